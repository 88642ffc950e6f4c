//! What a symbol begins, and what may stand behind an item.

ghost use Rattle.std.specs.Prelude.{◌≡◌};
ghost use Rattle.qasm_form.specs.Openings.{body_verb_of, is_number, opening_of, verb_of};
ghost use Rattle.qasm_parse.specs.Follows.{follows};

use crate::symbol::same_symbol;
use qasm_form::Symbol;
use qasm_form::opening::{BodyVerb, Opening, Verb};

/// What is done, where a symbol begins it.
pub(crate) fn verb_of(symbol: Symbol) -> Option<Verb>
    ensures { result ≡ verb_of symbol }
{
    match symbol {
        Symbol::GateU => Some(Verb::GateU),
        Symbol::GateCx => Some(Verb::GateCx),
        Symbol::Identifier => Some(Verb::Call),
        Symbol::Measure => Some(Verb::Measure),
        Symbol::Reset => Some(Verb::Reset),
        _ => None,
    }
}

/// What is done in a body, where a symbol begins it.
pub(crate) fn body_verb_of(symbol: Symbol) -> Option<BodyVerb>
    ensures { result ≡ body_verb_of symbol }
{
    match symbol {
        Symbol::GateU => Some(BodyVerb::GateU),
        Symbol::GateCx => Some(BodyVerb::GateCx),
        Symbol::Identifier => Some(BodyVerb::Call),
        Symbol::Barrier => Some(BodyVerb::Barrier),
        _ => None,
    }
}

/// What a statement is, where a symbol begins one.
pub(crate) fn opening_of(symbol: Symbol) -> Option<Opening>
    ensures { result ≡ opening_of symbol }
{
    match symbol {
        Symbol::Include => Some(Opening::Include),
        Symbol::Qreg => Some(Opening::Qreg),
        Symbol::Creg => Some(Opening::Creg),
        Symbol::Gate => Some(Opening::Gate),
        Symbol::Opaque => Some(Opening::Opaque),
        Symbol::Barrier => Some(Opening::Barrier),
        Symbol::If => Some(Opening::If),
        Symbol::GateU => Some(Opening::Verb(Verb::GateU)),
        Symbol::GateCx => Some(Opening::Verb(Verb::GateCx)),
        Symbol::Identifier => Some(Opening::Verb(Verb::Call)),
        Symbol::Measure => Some(Opening::Verb(Verb::Measure)),
        Symbol::Reset => Some(Opening::Verb(Verb::Reset)),
        _ => None,
    }
}

/// Whether a symbol is a number.
pub(crate) fn is_number(symbol: Symbol) -> Option<bool>
    ensures { result ≡ is_number symbol }
{
    match symbol {
        Symbol::Whole => Some(true),
        Symbol::Real => Some(true),
        _ => None,
    }
}

/// What stands behind an item.
#[derive(Clone, Copy)]
pub enum Follow {
    /// This symbol.
    Only(Symbol),
    /// This symbol, or a comma and a further item.
    Until(Symbol),
}

/// Whether a further item follows, where the symbol may stand behind an item.
pub(crate) fn follows(follow: Follow, symbol: Symbol) -> Option<bool>
    ensures { result ≡ follows follow symbol }
{
    match follow {
        Follow::Only(stop) => {
            if same_symbol(symbol, stop) {
                Some(false)
            } else {
                None
            }
        }
        Follow::Until(stop) => {
            if same_symbol(symbol, stop) {
                Some(false)
            } else if same_symbol(symbol, Symbol::Comma) {
                Some(true)
            } else {
                None
            }
        }
    }
}

/// Where an argument stands.
#[derive(Clone, Copy)]
pub enum Place {
    /// At the top, where an argument may have an index.
    Top,
    /// In a body, where it has none.
    InBody,
}
