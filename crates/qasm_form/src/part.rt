//! What an expression is made of.

use crate::stmt::Function;
use crate::symbol::Symbol;

/// An operator of an expression.
#[derive(Clone, Copy)]
pub enum Operator {
    Negate,
    Apply(Function),
    Plus,
    Minus,
    Times,
    Over,
    Power,
}

/// A part of an expression that is still to be read, or an operator that is to be written then.
#[derive(Clone, Copy)]
pub enum Part {
    /// An expression.
    Expr,
    /// Signs of addition, each with a term behind it.
    Terms,
    /// A term.
    Term,
    /// Signs of multiplication, each with a factor behind it.
    Factors,
    /// A factor, perhaps with minus signs before it.
    Factor,
    /// An atom, perhaps with an exponent.
    Power,
    /// An exponent, or nothing.
    Exponent,
    /// A number, a name, or something in parentheses.
    Atom,
    /// A number or a name.
    Leaf,
    /// A token of this symbol.
    Token(Symbol),
    /// No token: the operator is written.
    Write(Operator),
}
