//! What a statement or a call begins with.

/// What is done to qubits at the top.
#[derive(Clone, Copy)]
pub enum Verb {
    /// `U`.
    GateU,
    /// `CX`.
    GateCx,
    /// A gate's name.
    Call,
    /// `measure`.
    Measure,
    /// `reset`.
    Reset,
}

/// What is done to qubits in a body.
#[derive(Clone, Copy)]
pub enum BodyVerb {
    /// `U`.
    GateU,
    /// `CX`.
    GateCx,
    /// A gate's name.
    Call,
    /// `barrier`.
    Barrier,
}

/// What a statement begins with.
#[derive(Clone, Copy)]
pub enum Opening {
    Include,
    Qreg,
    Creg,
    Gate,
    Opaque,
    Barrier,
    If,
    Verb(Verb),
}
