//! What a part of an expression begins with.

ghost use Rattle.std.specs.Prelude.{◌≡◌};
ghost use Rattle.qasm_parse.specs.Running.{atom_start, product_of, sum_of};

use qasm_form::part::Operator;
use qasm_form::{Function, Symbol};

/// What an atom begins with.
#[derive(Clone, Copy)]
pub enum AtomStart {
    Leaf,
    Paren,
    Call(Function),
    Nothing,
}

/// What an atom that begins with this symbol is.
pub(crate) fn atom_start(symbol: Symbol) -> AtomStart
    ensures { result ≡ atom_start symbol }
{
    match symbol {
        Symbol::Whole | Symbol::Real | Symbol::Pi | Symbol::Identifier => AtomStart::Leaf,
        Symbol::OpenParen => AtomStart::Paren,
        Symbol::Sin => AtomStart::Call(Function::Sin),
        Symbol::Cos => AtomStart::Call(Function::Cos),
        Symbol::Tan => AtomStart::Call(Function::Tan),
        Symbol::Exp => AtomStart::Call(Function::Exp),
        Symbol::Ln => AtomStart::Call(Function::Ln),
        Symbol::Sqrt => AtomStart::Call(Function::Sqrt),
        _ => AtomStart::Nothing,
    }
}

/// The operator of a sign of addition.
pub(crate) fn sum_of(symbol: Symbol) -> Option<Operator>
    ensures { result ≡ sum_of symbol }
{
    match symbol {
        Symbol::Plus => Some(Operator::Plus),
        Symbol::Minus => Some(Operator::Minus),
        _ => None,
    }
}

/// The operator of a sign of multiplication.
pub(crate) fn product_of(symbol: Symbol) -> Option<Operator>
    ensures { result ≡ product_of symbol }
{
    match symbol {
        Symbol::Times => Some(Operator::Times),
        Symbol::Over => Some(Operator::Over),
        _ => None,
    }
}
