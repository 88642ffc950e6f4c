//! Gates, and what the calls in their bodies are bound to.

use qasm_form::Expr;
use zac_gates::{Bytes, List};

/// What a call is bound to.
#[derive(Clone, Copy)]
pub enum Target {
    /// The gate of one qubit with three angles.
    U,
    /// The controlled not.
    Cx,
    /// The header's `cz`, which has no body.
    Cz,
    /// A barrier in a body.
    Barrier,
    /// The gate at this place among the gates with a body.
    Gate { place: usize },
}

/// A call in a body, with its angles over the gate's parameters and its arguments by their places among the gate's.
#[derive(Drop)]
pub struct Bound {
    /// What it calls.
    pub target: Target,
    /// Its angles.
    pub exprs: List<Expr>,
    /// The places of its arguments among the arguments of the gate.
    pub args: List<usize>,
}

/// A gate with a body.
#[derive(Drop)]
pub struct GateDef {
    /// The names of its parameters.
    pub params: List<Bytes>,
    /// The number of its arguments.
    pub args: usize,
    /// Its body.
    pub body: List<Bound>,
}
