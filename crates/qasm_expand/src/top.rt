//! The calls at the top of a program: each is applied as often as its registers say.

ghost use Rattle.std.specs.Prelude.{◌≡◌, ℕ, ◌<◌, ◌∷◌, [], List, length, OnOk, IfErr};
ghost use Rattle.std.specs.List.{AllByRecursion};
ghost use Rattle.qasm_names.specs.declared.gate.GateDef.{GateDef};
ghost use Rattle.qasm_names.specs.Applications.{applications, applied};
ghost use Rattle.qasm_names.specs.Bound.{IsWellBound};
ghost use Rattle.qasm_expand.specs.AngleNodes.{HasNoNames};
ghost use Rattle.qasm_expand.specs.Fit.{Suits};
ghost use Rattle.qasm_expand.specs.RegisterKinds.{IsPlaceIn};
ghost use Rattle.qasm_expand.specs.Sized.{sized};
ghost use Rattle.qasm_expand.specs.Top.{HaveShortNumbers, visits_of, readings_of};
ghost use Rattle.qasm_expand.specs.Walks.{Walks, Passes};
ghost use Rattle.qasm_expand.specs.declared.kind.RegisterKind.{RegisterKind};

use crate::fault::ExpandFault;
use crate::registers::Registers;
use crate::walk::Walk;
use qasm_form::{Arg, BodyOp};
use qasm_names::{GateDef, Target};
use std::alloc::Global;

/// Visits a call in each of its applications.
pub(crate) fn apply_all(
    walk: &mut Walk,
    alloc: Global,
    gates: &[GateDef],
    target: Target,
    call: &BodyOp,
    registers: &Registers,
) -> Result<(), ExpandFault>
    requires bound { (place : ℕ) → IsWellBound gates.now place }
    requires short { HaveShortNumbers gates.now }
    requires closed { AllByRecursion HasNoNames call.now.exprs }
    requires suits { Suits gates.now target (length call.now.exprs) (length call.now.args) }
    requires places { (k : ℕ) → k < applications (sized registers.now) call.now.args
        → AllByRecursion (λ arg. IsPlaceIn RegisterKind.Qubit registers.now (applied arg k)) call.now.args }
    ensures ok { OnOk result (Walks gates.now walk.old walk.new (visits_of registers.now target call.now)) }
    ensures err { IfErr result (Passes gates.now walk.old (visits_of registers.now target call.now)) }
{
    let args = call.args.as_slice();
    for k in 0..registers.applications(args) {
        let qubits = registers.qubits(alloc, args, k)?;
        walk.apply(alloc, gates, target, call.exprs.as_slice(), qubits)?;
    }
    Ok(())
}

/// Visits a measurement in each of its applications.
pub(crate) fn measure_all(
    walk: &mut Walk,
    from: &Arg,
    into: &Arg,
    registers: &Registers,
) -> Result<(), ExpandFault>
    requires qubits { (k : ℕ) → k < applications (sized registers.now) (from.now ∷ [])
        → IsPlaceIn RegisterKind.Qubit registers.now (applied from.now k) }
    requires bits { (k : ℕ) → k < applications (sized registers.now) (from.now ∷ [])
        → IsPlaceIn RegisterKind.Bit registers.now (applied into.now k) }
    ensures ok { OnOk result
        ((gates : List GateDef) → Walks gates walk.old walk.new (readings_of registers.now from.now into.now)) }
    ensures err { IfErr result
        (λ e. (gates : List GateDef) → Passes gates walk.old (readings_of registers.now from.now into.now) e) }
{
    for k in 0..registers.readings(from) {
        walk.measure(registers.qubit(from, k), registers.bit(into, k))?;
    }
    Ok(())
}
