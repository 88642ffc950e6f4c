//! Lists of items with commas between them.

ghost use Rattle.std.specs.Prelude.{◌≡◌};
ghost use Rattle.qasm_parse.specs.Gives.{Gives, seen};
ghost use Rattle.qasm_form.specs.Numbers.{AreSpelt};
ghost use Rattle.qasm_parse.specs.Readings.{
  args_until,
  exprs_until,
  names_until,
  nothing,
  perhaps_exprs,
  perhaps_names,
};
ghost use Rattle.qasm_form.specs.Symbols.{lexemes_of};

use crate::cursor::{Read, first, symbol_at, take};
use crate::expr::expr_then;
use crate::item::{arg_then, name_then};
use crate::opening::{Follow, Place};
use crate::symbol::same_symbol;
use qasm_form::{Arg, Expr, Named, Symbol};
use qasm_lex::Token;
use std::alloc::Global;
use zac_gates::List;

/// Names up to a sign.
pub(crate) fn names_until<'a>(
    alloc: Global,
    source: &[u8],
    end: u32,
    rest: &'a [Token],
    stop: Symbol,
) -> Read<'a, List<Named>>
    ensures { Gives (seen source.now) result (names_until end stop (lexemes_of source.now rest.now)) }
{
    let mut names = Vec::new(alloc);
    let mut left = rest;
    loop {
        let ((item, more), others) = name_then(alloc, source, end, left, Follow::Until(stop))?;
        names.push(item)?;
        left = others;
        if !more {
            return Ok((List::of(names), left));
        }
    }
}

/// Arguments up to a semicolon.
pub(crate) fn args_until<'a>(
    alloc: Global,
    source: &[u8],
    end: u32,
    rest: &'a [Token],
    place: Place,
) -> Read<'a, List<Arg>>
    ensures { Gives (seen source.now) result (args_until end place Symbol.Semicolon (lexemes_of source.now rest.now)) }
{
    let mut args = Vec::new(alloc);
    let mut left = rest;
    loop {
        let ((item, more), others) = arg_then(
            alloc,
            source,
            end,
            left,
            place,
            Follow::Until(Symbol::Semicolon),
        )?;
        args.push(item)?;
        left = others;
        if !more {
            return Ok((List::of(args), left));
        }
    }
}

/// Expressions up to a closing parenthesis.
pub(crate) fn exprs_until<'a>(
    alloc: Global,
    source: &[u8],
    end: u32,
    rest: &'a [Token],
) -> Read<'a, List<Expr>>
    requires { AreSpelt (lexemes_of source.now rest.now) }
    ensures { Gives (seen source.now) result (exprs_until end Symbol.CloseParen (lexemes_of source.now rest.now)) }
{
    let mut exprs = Vec::new(alloc);
    let mut left = rest;
    loop {
        let ((item, more), others) = expr_then(
            alloc,
            source,
            end,
            left,
            Follow::Until(Symbol::CloseParen),
        )?;
        exprs.push(item)?;
        left = others;
        if !more {
            return Ok((List::of(exprs), left));
        }
    }
}

/// Perhaps names, and a closing parenthesis.
#[tactic(auto, unfolding(crate::specs::Readings::perhaps_names))]
pub(crate) fn perhaps_names<'a>(
    alloc: Global,
    source: &[u8],
    end: u32,
    rest: &'a [Token],
) -> Read<'a, List<Named>>
    ensures { Gives (seen source.now) result (perhaps_names end Symbol.CloseParen (lexemes_of source.now rest.now)) }
{
    let (next, _) = first(source, end, rest)?;
    if same_symbol(symbol_at(source, next), Symbol::CloseParen) {
        let (_, rest) = take(source, end, rest, Symbol::CloseParen)?;
        Ok((List::of(Vec::new(alloc)), rest))
    } else {
        names_until(alloc, source, end, rest, Symbol::CloseParen)
    }
}

/// Perhaps expressions, and a closing parenthesis.
#[tactic(auto, unfolding(crate::specs::Readings::perhaps_exprs))]
pub(crate) fn perhaps_exprs<'a>(
    alloc: Global,
    source: &[u8],
    end: u32,
    rest: &'a [Token],
) -> Read<'a, List<Expr>>
    requires { AreSpelt (lexemes_of source.now rest.now) }
    ensures { Gives (seen source.now) result (perhaps_exprs end Symbol.CloseParen (lexemes_of source.now rest.now)) }
{
    let (next, _) = first(source, end, rest)?;
    if same_symbol(symbol_at(source, next), Symbol::CloseParen) {
        let (_, rest) = take(source, end, rest, Symbol::CloseParen)?;
        Ok((List::of(Vec::new(alloc)), rest))
    } else {
        exprs_until(alloc, source, end, rest)
    }
}
