//! Names and arguments, each with what stands behind it.

ghost use Rattle.std.specs.Prelude.{◌≡◌};
ghost use Rattle.qasm_parse.specs.Gives.{Gives, seen};
ghost use Rattle.qasm_form.specs.Grammar.{number_of};
ghost use Rattle.qasm_parse.specs.Readings.{arg_then, behind_name, index_then, name_then, plain_then};
ghost use Rattle.qasm_form.specs.Symbols.{lexeme_of, lexemes_of};

use crate::cursor::{Read, first, follow, symbol_at, take, text, word};
use crate::opening::{Follow, Place};
use crate::symbol::same_symbol;
use qasm_form::{Arg, Named, Symbol};
use qasm_lex::Token;
use std::alloc::Global;

/// The number that digits spell; one past 2^64 - 1 stands as 2^64 - 1.
pub(crate) fn number_of(digits: &[u8]) -> u64
    ensures { result ≡ number_of digits.now }
{
    let mut n: u64 = 0;
    for b in digits {
        n = n
            .saturating_mul(10)
            .saturating_add(u64::from(b.saturating_sub(b'0')));
    }
    n
}

/// A name and whether a further one follows.
#[tactic(auto, unfolding(crate::specs::Readings::name_then))]
pub(crate) fn name_then<'a>(
    alloc: Global,
    source: &[u8],
    end: u32,
    rest: &'a [Token],
    class: Follow,
) -> Read<'a, (Named, bool)>
    ensures { Gives (seen source.now) result (name_then end class (lexemes_of source.now rest.now)) }
{
    let (name, rest) = take(source, end, rest, Symbol::Identifier)?;
    let ((more, _), rest) = follow(source, end, rest, class)?;
    let word = word(alloc, source, name)?;
    let at = name.from;
    Ok(((Named { word, at }, more), rest))
}

/// An argument and whether a further one follows.
#[tactic(auto, unfolding(crate::specs::Readings::arg_then))]
pub(crate) fn arg_then<'a>(
    alloc: Global,
    source: &[u8],
    end: u32,
    rest: &'a [Token],
    place: Place,
    class: Follow,
) -> Read<'a, (Arg, bool)>
    ensures { Gives (seen source.now) result (arg_then end place class (lexemes_of source.now rest.now)) }
{
    let (name, rest) = take(source, end, rest, Symbol::Identifier)?;
    behind_name(alloc, source, end, rest, place, class, name)
}

/// What stands behind an argument's name.
fn behind_name<'a>(
    alloc: Global,
    source: &[u8],
    end: u32,
    rest: &'a [Token],
    place: Place,
    class: Follow,
    name: Token,
) -> Read<'a, (Arg, bool)>
    ensures { Gives (seen source.now) result
        (behind_name end place class (lexeme_of source.now name) (lexemes_of source.now rest.now)) }
{
    match place {
        Place::InBody => plain_then(alloc, source, end, rest, class, name),
        Place::Top => {
            let (next, _) = first(source, end, rest)?;
            if same_symbol(symbol_at(source, next), Symbol::OpenBracket) {
                index_then(alloc, source, end, rest, class, name)
            } else {
                plain_then(alloc, source, end, rest, class, name)
            }
        }
    }
}

/// An argument without an index.
#[tactic(auto, unfolding(crate::specs::Readings::plain_then))]
fn plain_then<'a>(
    alloc: Global,
    source: &[u8],
    end: u32,
    rest: &'a [Token],
    class: Follow,
    name: Token,
) -> Read<'a, (Arg, bool)>
    ensures { Gives (seen source.now) result
        (plain_then end class (lexeme_of source.now name) (lexemes_of source.now rest.now)) }
{
    let ((more, _), rest) = follow(source, end, rest, class)?;
    let word = word(alloc, source, name)?;
    let at = name.from;
    let index = None;
    Ok(((Arg { word, index, at }, more), rest))
}

/// An argument with an index.
#[tactic(auto, unfolding(crate::specs::Readings::index_then))]
fn index_then<'a>(
    alloc: Global,
    source: &[u8],
    end: u32,
    rest: &'a [Token],
    class: Follow,
    name: Token,
) -> Read<'a, (Arg, bool)>
    ensures { Gives (seen source.now) result
        (index_then end class (lexeme_of source.now name) (lexemes_of source.now rest.now)) }
{
    let (_, rest) = take(source, end, rest, Symbol::OpenBracket)?;
    let (number, rest) = take(source, end, rest, Symbol::Whole)?;
    let (_, rest) = take(source, end, rest, Symbol::CloseBracket)?;
    let ((more, _), rest) = follow(source, end, rest, class)?;
    let word = word(alloc, source, name)?;
    let at = name.from;
    let index = Some(number_of(text(source, number)));
    Ok(((Arg { word, index, at }, more), rest))
}
