//! The parts of a statement that are judged.

ghost use Rattle.std.specs.Prelude.{◌≡◌};
ghost use Rattle.qasm_names.specs.Refusals.{bit_args, calls_in, qubit_args};

use qasm_form::{Arg, BodyOp, Stmt};
use std::slice;

/// The arguments of a statement at the top that are qubits.
pub(crate) fn qubit_args(stmt: &Stmt) -> &[Arg]
    ensures { result.now ≡ qubit_args stmt.now }
{
    match stmt {
        Stmt::Call { call } => call.args.as_slice(),
        Stmt::Barrier { args, .. } => args.as_slice(),
        Stmt::Measure { from, .. } => slice::from_ref(from),
        _ => &[],
    }
}

/// The arguments of a statement at the top that are bits.
pub(crate) fn bit_args(stmt: &Stmt) -> &[Arg]
    ensures { result.now ≡ bit_args stmt.now }
{
    match stmt {
        Stmt::Measure { into, .. } => slice::from_ref(into),
        _ => &[],
    }
}

/// The calls of a statement, at the top or in a body.
pub(crate) fn calls_in(stmt: &Stmt) -> &[BodyOp]
    ensures { result.now ≡ calls_in stmt.now }
{
    match stmt {
        Stmt::Call { call } => slice::from_ref(call),
        Stmt::Gate { body, .. } => body.as_slice(),
        _ => &[],
    }
}
