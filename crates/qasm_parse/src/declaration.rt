//! Declarations of registers and gates.

ghost use Rattle.std.specs.Prelude.{◌≡◌, Some};
ghost use Rattle.qasm_parse.specs.Bodies.{item_of};
ghost use Rattle.qasm_parse.specs.Gives.{Gives, seen};
ghost use Rattle.qasm_form.specs.Numbers.{AreSpelt};
ghost use Rattle.qasm_parse.specs.Readings.{
  argument_names,
  body_item,
  body_ops,
  gate,
  opaque_gate,
  register,
  signature,
  with_params,
};
ghost use Rattle.qasm_form.specs.Symbols.{lexeme_of, lexemes_of};

use crate::cursor::{Read, first, symbol_at, take, text, word};
use crate::item::number_of;
use crate::lists::{names_until, perhaps_names};
use crate::operation::body_operation;
use crate::symbol::same_symbol;
use qasm_form::{BodyOp, Named, Stmt, Symbol};
use qasm_lex::Token;
use std::alloc::Global;
use zac_gates::List;

/// A register: its name's token and its size.
#[tactic(auto, unfolding(crate::specs::Readings::register))]
pub(crate) fn register<'a>(source: &[u8], end: u32, rest: &'a [Token]) -> Read<'a, (Token, u64)>
    ensures { Gives (λ x. ((lexeme_of source.now x.0.0, x.0.1), lexemes_of source.now x.1.now)) result
        (register end (lexemes_of source.now rest.now)) }
{
    let (name, rest) = take(source, end, rest, Symbol::Identifier)?;
    let (_, rest) = take(source, end, rest, Symbol::OpenBracket)?;
    let (size, rest) = take(source, end, rest, Symbol::Whole)?;
    let (_, rest) = take(source, end, rest, Symbol::CloseBracket)?;
    let (_, rest) = take(source, end, rest, Symbol::Semicolon)?;
    Ok(((name, number_of(text(source, size))), rest))
}

/// The names of the arguments, up to a sign.
#[tactic(auto, unfolding(crate::specs::Readings::argument_names))]
fn argument_names<'a>(
    alloc: Global,
    source: &[u8],
    end: u32,
    rest: &'a [Token],
    stop: Symbol,
    params: List<Named>,
) -> Read<'a, (List<Named>, List<Named>)>
    ensures { Gives (seen source.now) result (argument_names end stop params (lexemes_of source.now rest.now)) }
{
    let (args, rest) = names_until(alloc, source, end, rest, stop)?;
    Ok(((params, args), rest))
}

/// The names of the parameters and of the arguments.
#[tactic(auto, unfolding(crate::specs::Readings::with_params))]
fn with_params<'a>(
    alloc: Global,
    source: &[u8],
    end: u32,
    rest: &'a [Token],
    stop: Symbol,
) -> Read<'a, (List<Named>, List<Named>)>
    ensures { Gives (seen source.now) result (with_params end stop (lexemes_of source.now rest.now)) }
{
    let (_, rest) = take(source, end, rest, Symbol::OpenParen)?;
    let (params, rest) = perhaps_names(alloc, source, end, rest)?;
    argument_names(alloc, source, end, rest, stop, params)
}

/// The names of the parameters, if there are any, and of the arguments.
#[tactic(auto, unfolding(crate::specs::Readings::signature))]
fn signature<'a>(
    alloc: Global,
    source: &[u8],
    end: u32,
    rest: &'a [Token],
    stop: Symbol,
) -> Read<'a, (List<Named>, List<Named>)>
    ensures { Gives (seen source.now) result (signature end stop (lexemes_of source.now rest.now)) }
{
    let (next, _) = first(source, end, rest)?;
    if same_symbol(symbol_at(source, next), Symbol::OpenParen) {
        with_params(alloc, source, end, rest, stop)
    } else {
        let params = List::of(Vec::new(alloc));
        argument_names(alloc, source, end, rest, stop, params)
    }
}

/// The next operation of a body, or its end.
#[tactic(auto, unfolding(crate::specs::Readings::body_item))]
fn body_item<'a>(
    alloc: Global,
    source: &[u8],
    end: u32,
    rest: &'a [Token],
) -> Read<'a, Option<BodyOp>>
    requires { AreSpelt (lexemes_of source.now rest.now) }
    ensures { Gives (λ x. (item_of x.0, lexemes_of source.now x.1.now)) result
        (body_item end (lexemes_of source.now rest.now)) }
{
    let (next, _) = first(source, end, rest)?;
    if same_symbol(symbol_at(source, next), Symbol::CloseBrace) {
        let (_, rest) = take(source, end, rest, Symbol::CloseBrace)?;
        Ok((None, rest))
    } else {
        let (op, rest) = body_operation(alloc, source, end, rest)?;
        Ok((Some(op), rest))
    }
}

/// The operations of a body, up to its end.
fn body_ops<'a>(alloc: Global, source: &[u8], end: u32, rest: &'a [Token]) -> Read<'a, List<BodyOp>>
    requires { AreSpelt (lexemes_of source.now rest.now) }
    ensures { Gives (seen source.now) result (body_ops end (lexemes_of source.now rest.now)) }
{
    let mut ops = Vec::new(alloc);
    let mut left = rest;
    loop {
        let (item, others) = body_item(alloc, source, end, left)?;
        left = others;
        match item {
            None => return Ok((List::of(ops), left)),
            Some(op) => ops.push(op)?,
        }
    }
}

/// The declaration of a gate with a body.
#[tactic(auto, unfolding(crate::specs::Readings::gate))]
pub(crate) fn gate<'a>(alloc: Global, source: &[u8], end: u32, rest: &'a [Token]) -> Read<'a, Stmt>
    requires { AreSpelt (lexemes_of source.now rest.now) }
    ensures { Gives (seen source.now) result (gate end (lexemes_of source.now rest.now)) }
{
    let (token, rest) = take(source, end, rest, Symbol::Identifier)?;
    let ((params, args), rest) = signature(alloc, source, end, rest, Symbol::OpenBrace)?;
    let (body, rest) = body_ops(alloc, source, end, rest)?;
    let name = word(alloc, source, token)?;
    let at = token.from;
    Ok((
        Stmt::Gate {
            name,
            params,
            args,
            body,
            at,
        },
        rest,
    ))
}

/// The declaration of a gate without one.
#[tactic(auto, unfolding(crate::specs::Readings::opaque_gate))]
pub(crate) fn opaque_gate<'a>(
    alloc: Global,
    source: &[u8],
    end: u32,
    rest: &'a [Token],
) -> Read<'a, Stmt>
    ensures { Gives (seen source.now) result (opaque_gate end (lexemes_of source.now rest.now)) }
{
    let (token, rest) = take(source, end, rest, Symbol::Identifier)?;
    let ((params, args), rest) = signature(alloc, source, end, rest, Symbol::Semicolon)?;
    let name = word(alloc, source, token)?;
    let at = token.from;
    Ok((
        Stmt::Opaque {
            name,
            params,
            args,
            at,
        },
        rest,
    ))
}
