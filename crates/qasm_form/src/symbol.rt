//! The symbols that the grammar speaks of.

/// What a token is to the grammar.
#[derive(Clone, Copy, PartialEq, Eq)]
pub enum Symbol {
    /// A word that isn't reserved.
    Identifier,
    /// A whole number.
    Whole,
    /// A real.
    Real,
    /// A string.
    Text,
    /// `OPENQASM`.
    Header,
    /// `U`.
    GateU,
    /// `CX`.
    GateCx,
    Include,
    Qreg,
    Creg,
    Gate,
    Opaque,
    Measure,
    Reset,
    Barrier,
    If,
    Pi,
    Sin,
    Cos,
    Tan,
    Exp,
    Ln,
    Sqrt,
    Semicolon,
    Comma,
    OpenParen,
    CloseParen,
    OpenBrace,
    CloseBrace,
    OpenBracket,
    CloseBracket,
    Plus,
    Minus,
    Times,
    Over,
    Power,
    Arrow,
    Equals,
}
