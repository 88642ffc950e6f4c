//! Why a statement is refused.

/// The kinds of refusals of a statement, in their order: of several, the first is told.
#[derive(Clone, Copy, Debug, PartialEq, Eq)]
pub enum ScopeKind {
    /// The version isn't `2.0`.
    Version,
    /// The statement stands under a condition.
    Control,
    /// The statement is a reset.
    Reset,
    /// The include names another file than `qelib1.inc`.
    Include,
    /// The name is declared, or the header comes where the file has declared one of its fixed names.
    Redeclared,
    /// The argument names no register, or one of the wrong kind.
    NotDeclared,
    /// The call names no gate.
    UnknownGate,
    /// The call names an opaque gate.
    Opaque,
    /// The call has another number of angles than its gate.
    Params,
    /// The call has another number of arguments than its gate.
    Arity,
    /// Whole registers of different size, or a measurement from a register into one bit or the other way round.
    Sizes,
    /// The index isn't less than the register's size.
    Index,
    /// One application has a qubit twice.
    Repeated,
    /// A name of a declaration comes twice, or a name is used that isn't declared there.
    Name,
    /// A gate or a measurement on a qubit that was measured.
    AfterRead,
}

/// The refusal of a statement: its kind, and the offset of what is refused.
#[derive(Clone, Copy)]
pub struct ScopeFault {
    /// The kind.
    pub kind: ScopeKind,
    /// The offset.
    pub at: u32,
}
