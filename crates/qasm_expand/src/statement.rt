//! The calls of each statement of a program, one behind the other.

ghost use Rattle.std.specs.Prelude.{◌≡◌, ◌<◌, [], None, Some, length, slice_get, IfOk, OnOk, IfErr};
ghost use Rattle.qasm_form.specs.declared.stmt.Stmt.TheVariants as stmt;
ghost use Rattle.qasm_names.specs.Accepted.{AreAdmissible};
ghost use Rattle.qasm_names.specs.Environment.{environment};
ghost use Rattle.qasm_names.specs.Scopes.{AreAdmissibleInHeader};
ghost use Rattle.qasm_expand.specs.Limits.{passed_before_calls};
ghost use Rattle.qasm_expand.specs.Top.{HaveShortNumbers, IsWalked, IsStopped, visits_at};
ghost use Rattle.qasm_expand.specs.Walks.{Walks, Passes};

use crate::fault::ExpandFault;
use crate::registers::Registers;
use crate::top::{apply_all, measure_all};
use crate::walk::Walk;
use qasm_form::{BodyOp, Stmt};
use qasm_names::SourceProgram;
use std::alloc::Global;

/// Visits the call that is the statement at a place, and all calls below it.
fn visit_call(
    walk: &mut Walk,
    alloc: Global,
    program: &SourceProgram,
    registers: &Registers,
    place: usize,
    call: &BodyOp,
) -> Result<(), ExpandFault>
    requires at { slice_get program.now.statements place ≡ Some (stmt.Call call.now) }
    requires header { AreAdmissibleInHeader [] program.now.header }
    requires admissible { AreAdmissible program.now.header [] program.now.statements }
    requires registers { registers.now ≡ program.now.statements }
    requires before { passed_before_calls program.now.statements ≡ None }
    requires short { HaveShortNumbers (environment program.now.header program.now.statements).gates }
    ensures ok { OnOk result
        (Walks (environment program.now.header program.now.statements).gates walk.old walk.new (visits_at program.now place)) }
    ensures err { IfErr result
        (Passes (environment program.now.header program.now.statements).gates walk.old (visits_at program.now place)) }
{
    let gates = program.gates();
    apply_all(walk, alloc, gates, program.target(place), call, registers)
}

/// Visits the calls of the statement at a place, and all calls below them.
fn visit(
    walk: &mut Walk,
    alloc: Global,
    program: &SourceProgram,
    registers: &Registers,
    place: usize,
) -> Result<(), ExpandFault>
    requires place { place < length program.now.statements }
    requires registers { registers.now ≡ program.now.statements }
    requires before { passed_before_calls program.now.statements ≡ None }
    requires short { HaveShortNumbers (environment program.now.header program.now.statements).gates }
    ensures ok { OnOk result
        (Walks (environment program.now.header program.now.statements).gates walk.old walk.new (visits_at program.now place)) }
    ensures err { IfErr result
        (Passes (environment program.now.header program.now.statements).gates walk.old (visits_at program.now place)) }
{
    let statements = program.statements();
    let stmt = &statements[place];
    match stmt {
        Stmt::Call { call } => visit_call(walk, alloc, program, registers, place, call),
        Stmt::Measure { from, into, .. } => measure_all(walk, from, into, registers),
        Stmt::Barrier { .. } => walk.fence(1),
        _ => Ok(()),
    }
}

/// Visits the calls of all statements, and all calls below them.
pub(crate) fn walk_all(
    alloc: Global,
    program: &SourceProgram,
    registers: &Registers,
) -> Result<Walk, ExpandFault>
    requires registers { registers.now ≡ program.now.statements }
    requires before { passed_before_calls program.now.statements ≡ None }
    requires short { HaveShortNumbers (environment program.now.header program.now.statements).gates }
    ensures ok { IfOk result (IsWalked program.now) }
    ensures err { IfErr result (IsStopped program.now) }
{
    let mut walk = Walk::new(alloc);
    for place in 0..program.statements().len() {
        visit(&mut walk, alloc, program, registers, place)?;
    }
    Ok(walk)
}
