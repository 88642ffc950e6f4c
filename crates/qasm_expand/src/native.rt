//! A program as its native list.

ghost use Rattle.std.specs.Prelude.{◌≡◌, ◌≤◌, ◌⊎◌, ℕ, length, IfOk, IfErr, IsErrOf, IsErrAnd};
ghost use Rattle.qasm_expand.specs.Answers.{TellsLimit};
ghost use Rattle.qasm_expand.specs.Expansion.{IsWithinLimits, PassesFirst, IsExpansion};
ghost use Rattle.zac_gates.specs.Ops.{pairs_in};
ghost use Rattle.qasm_expand.specs.declared.fault.LimitKind.{LimitKind};

use crate::fault::ExpandFault;
use crate::limit::refuse;
use crate::registers::Registers;
use crate::statement::walk_all;
use crate::sums::passed_before_calls;
use qasm_names::{SourceProgram, gates_are_well_bound};
use std::alloc::Global;
use zac_gates::{Circuit, CircuitFault};

/// The native list of a program.
fn native(alloc: Global, program: &SourceProgram) -> Result<Circuit, ExpandFault>
    ensures within { IfOk result (λ _. IsWithinLimits program.now) }
    ensures expansion { IfOk result (IsExpansion program.now) }
    ensures few { IfOk result (λ c. (pairs_in c.ops ≤ 262144) × (length c.ops ≤ 786432)) }
    ensures err { IfErr result (TellsLimit program.now) }
{
    gates_are_well_bound();
    let statements = program.statements();
    refuse(passed_before_calls(statements))?;
    let registers = Registers::new(alloc, statements)?;
    let walk = walk_all(alloc, program, &registers)?;
    let circuit = Circuit::new(
        alloc,
        registers.qubit_count(),
        registers.bit_count(),
        walk.into_ops(),
    );
    match circuit {
        Ok(circuit) => Ok(circuit),
        Err(fault) => match fault {
            CircuitFault::Memory => Err(ExpandFault::Memory),
            CircuitFault::Op { op: _ } => unreachable!(),
        },
    }
}

/// The native list of a program: each call of a gate with a body is replaced by its body, until none has one.
///
/// `Limit` comes exactly where a limit is passed, and tells the first with the count that first passed it: before the calls
/// the length of a number and the sums of the registers' sizes, then call by call. `Memory` says that there was none.
pub fn expand(alloc: Global, program: &SourceProgram) -> Result<Circuit, ExpandFault>
    ensures ok { IfOk result (λ c. IsWithinLimits program.now × IsExpansion program.now c) }
    ensures few { IfOk result (λ c. (pairs_in c.ops ≤ 262144) × (length c.ops ≤ 786432)) }
    ensures limit { (kind : LimitKind) (count : ℕ) → IsErrOf result (ExpandFault.Limit kind count) → PassesFirst program.now kind count }

    // A program within the limits is answered by its list, and one that passes a limit by that limit, or both by want of
    // memory.
    ensures within { IsWithinLimits program.now → IfErr result (λ e. e ≡ ExpandFault.Memory) }
    ensures passes { (kind : LimitKind) (count : ℕ) → PassesFirst program.now kind count
        → IsErrAnd result (λ e. (e ≡ ExpandFault.Limit kind count) ⊎ (e ≡ ExpandFault.Memory)) }
{
    native(alloc, program)
}
