//! What is done to qubits: calls of gates, measurements, resets and barriers.

ghost use Rattle.std.specs.Prelude.{◌≡◌, [], ◌∷◌, IfOk, IfErr};
ghost use Rattle.qasm_parse.specs.Gives.{Gives, seen};
ghost use Rattle.qasm_form.specs.Grammar.{operation};
ghost use Rattle.qasm_form.specs.Numbers.{AreSpelt};
ghost use Rattle.qasm_parse.specs.Readings.{
  after_body_verb,
  after_verb,
  arguments,
  as_call,
  body_operation,
  call,
  gate_cx,
  gate_u,
  measure,
  reset,
  with_angles,
};
ghost use Rattle.qasm_form.specs.Symbols.{lexeme_of, lexemes_of};

use crate::cursor::{Read, body_verb, first, symbol_at, take, word};
use crate::fault::SyntaxFault;
use crate::item::arg_then;
use crate::lists::{args_until, exprs_until, perhaps_exprs};
use crate::opening::{Follow, Place};
use crate::symbol::same_symbol;
use qasm_form::opening::{BodyVerb, Verb};
use qasm_form::{Arg, BodyOp, Expr, Stmt, Symbol};
use qasm_lex::Token;
use std::alloc::Global;
use zac_gates::List;

/// A call of this name.
fn operation(
    alloc: Global,
    source: &[u8],
    token: Token,
    exprs: List<Expr>,
    args: List<Arg>,
) -> Result<BodyOp, SyntaxFault>
    ensures made { IfOk result (λ op. op ≡ operation (lexeme_of source.now token) exprs args) }
    ensures only_memory { IfErr result (λ e. e ≡ SyntaxFault.Memory) }
{
    let name = word(alloc, source, token)?;
    let at = token.from;
    Ok(BodyOp {
        name,
        at,
        exprs,
        args,
    })
}

/// One argument as a list.
fn one(alloc: Global, arg: Arg) -> Result<List<Arg>, SyntaxFault>
    ensures made { IfOk result (λ args. args ≡ arg ∷ []) }
    ensures only_memory { IfErr result (λ e. e ≡ SyntaxFault.Memory) }
{
    let mut args = Vec::new(alloc);
    args.push(arg)?;
    Ok(List::of(args))
}

/// Two arguments as a list.
fn two(alloc: Global, first: Arg, second: Arg) -> Result<List<Arg>, SyntaxFault>
    ensures made { IfOk result (λ args. args ≡ first ∷ second ∷ []) }
    ensures only_memory { IfErr result (λ e. e ≡ SyntaxFault.Memory) }
{
    let mut args = Vec::new(alloc);
    args.push(first)?;
    args.push(second)?;
    Ok(List::of(args))
}

/// The gate of one qubit: its angles and its argument.
#[tactic(auto, unfolding(crate::specs::Readings::gate_u))]
fn gate_u<'a>(
    alloc: Global,
    source: &[u8],
    end: u32,
    rest: &'a [Token],
    place: Place,
    token: Token,
) -> Read<'a, BodyOp>
    requires { AreSpelt (lexemes_of source.now rest.now) }
    ensures { Gives (seen source.now) result (gate_u end place (lexeme_of source.now token) (lexemes_of source.now rest.now)) }
{
    let (_, rest) = take(source, end, rest, Symbol::OpenParen)?;
    let (exprs, rest) = exprs_until(alloc, source, end, rest)?;
    let ((arg, _), rest) = arg_then(
        alloc,
        source,
        end,
        rest,
        place,
        Follow::Only(Symbol::Semicolon),
    )?;
    let args = one(alloc, arg)?;
    Ok((operation(alloc, source, token, exprs, args)?, rest))
}

/// The gate of two qubits.
#[tactic(auto, unfolding(crate::specs::Readings::gate_cx))]
fn gate_cx<'a>(
    alloc: Global,
    source: &[u8],
    end: u32,
    rest: &'a [Token],
    place: Place,
    token: Token,
) -> Read<'a, BodyOp>
    ensures { Gives (seen source.now) result (gate_cx end place (lexeme_of source.now token) (lexemes_of source.now rest.now)) }
{
    let ((control, _), rest) = arg_then(
        alloc,
        source,
        end,
        rest,
        place,
        Follow::Only(Symbol::Comma),
    )?;
    let ((target, _), rest) = arg_then(
        alloc,
        source,
        end,
        rest,
        place,
        Follow::Only(Symbol::Semicolon),
    )?;
    let args = two(alloc, control, target)?;
    let exprs = List::of(Vec::new(alloc));
    Ok((operation(alloc, source, token, exprs, args)?, rest))
}

/// The arguments of a call.
#[tactic(auto, unfolding(crate::specs::Readings::arguments))]
fn arguments<'a>(
    alloc: Global,
    source: &[u8],
    end: u32,
    rest: &'a [Token],
    place: Place,
    token: Token,
    exprs: List<Expr>,
) -> Read<'a, BodyOp>
    ensures { Gives (seen source.now) result (arguments end place (lexeme_of source.now token) exprs (lexemes_of source.now rest.now)) }
{
    let (args, rest) = args_until(alloc, source, end, rest, place)?;
    Ok((operation(alloc, source, token, exprs, args)?, rest))
}

/// The angles and arguments of a call.
#[tactic(auto, unfolding(crate::specs::Readings::with_angles))]
fn with_angles<'a>(
    alloc: Global,
    source: &[u8],
    end: u32,
    rest: &'a [Token],
    place: Place,
    token: Token,
) -> Read<'a, BodyOp>
    requires { AreSpelt (lexemes_of source.now rest.now) }
    ensures { Gives (seen source.now) result (with_angles end place (lexeme_of source.now token) (lexemes_of source.now rest.now)) }
{
    let (_, rest) = take(source, end, rest, Symbol::OpenParen)?;
    let (exprs, rest) = perhaps_exprs(alloc, source, end, rest)?;
    arguments(alloc, source, end, rest, place, token, exprs)
}

/// A call of a gate by its name.
#[tactic(auto, unfolding(crate::specs::Readings::call))]
fn call<'a>(
    alloc: Global,
    source: &[u8],
    end: u32,
    rest: &'a [Token],
    place: Place,
    token: Token,
) -> Read<'a, BodyOp>
    requires { AreSpelt (lexemes_of source.now rest.now) }
    ensures { Gives (seen source.now) result (call end place (lexeme_of source.now token) (lexemes_of source.now rest.now)) }
{
    let (next, _) = first(source, end, rest)?;
    if same_symbol(symbol_at(source, next), Symbol::OpenParen) {
        with_angles(alloc, source, end, rest, place, token)
    } else {
        let exprs = List::of(Vec::new(alloc));
        arguments(alloc, source, end, rest, place, token, exprs)
    }
}

/// A measurement.
#[tactic(auto, unfolding(crate::specs::Readings::measure))]
fn measure<'a>(
    alloc: Global,
    source: &[u8],
    end: u32,
    rest: &'a [Token],
    token: Token,
) -> Read<'a, Stmt>
    ensures { Gives (seen source.now) result (measure end (lexeme_of source.now token) (lexemes_of source.now rest.now)) }
{
    let ((from, _), rest) = arg_then(
        alloc,
        source,
        end,
        rest,
        Place::Top,
        Follow::Only(Symbol::Arrow),
    )?;
    let ((into, _), rest) = arg_then(
        alloc,
        source,
        end,
        rest,
        Place::Top,
        Follow::Only(Symbol::Semicolon),
    )?;
    let at = token.from;
    Ok((Stmt::Measure { from, into, at }, rest))
}

/// A reset.
#[tactic(auto, unfolding(crate::specs::Readings::reset))]
fn reset<'a>(
    alloc: Global,
    source: &[u8],
    end: u32,
    rest: &'a [Token],
    token: Token,
) -> Read<'a, Stmt>
    ensures { Gives (seen source.now) result (reset end (lexeme_of source.now token) (lexemes_of source.now rest.now)) }
{
    let ((arg, _), rest) = arg_then(
        alloc,
        source,
        end,
        rest,
        Place::Top,
        Follow::Only(Symbol::Semicolon),
    )?;
    let at = token.from;
    Ok((Stmt::Reset { arg, at }, rest))
}

/// What is done to qubits at the top.
#[tactic(auto, unfolding(crate::specs::Readings::after_verb))]
pub(crate) fn after_verb<'a>(
    alloc: Global,
    source: &[u8],
    end: u32,
    rest: &'a [Token],
    verb: Verb,
    token: Token,
) -> Read<'a, Stmt>
    requires { AreSpelt (lexemes_of source.now rest.now) }
    ensures { Gives (seen source.now) result (after_verb end verb (lexeme_of source.now token) (lexemes_of source.now rest.now)) }
{
    match verb {
        Verb::GateU => {
            let (call, rest) = gate_u(alloc, source, end, rest, Place::Top, token)?;
            Ok((Stmt::Call { call }, rest))
        }
        Verb::GateCx => {
            let (call, rest) = gate_cx(alloc, source, end, rest, Place::Top, token)?;
            Ok((Stmt::Call { call }, rest))
        }
        Verb::Call => {
            let (call, rest) = call(alloc, source, end, rest, Place::Top, token)?;
            Ok((Stmt::Call { call }, rest))
        }
        Verb::Measure => measure(alloc, source, end, rest, token),
        Verb::Reset => reset(alloc, source, end, rest, token),
    }
}

/// What is done to qubits in a body.
#[tactic(auto, unfolding(crate::specs::Readings::after_body_verb))]
fn after_body_verb<'a>(
    alloc: Global,
    source: &[u8],
    end: u32,
    rest: &'a [Token],
    verb: BodyVerb,
    token: Token,
) -> Read<'a, BodyOp>
    requires { AreSpelt (lexemes_of source.now rest.now) }
    ensures { Gives (seen source.now) result (after_body_verb end verb (lexeme_of source.now token) (lexemes_of source.now rest.now)) }
{
    match verb {
        BodyVerb::GateU => gate_u(alloc, source, end, rest, Place::InBody, token),
        BodyVerb::GateCx => gate_cx(alloc, source, end, rest, Place::InBody, token),
        BodyVerb::Call => call(alloc, source, end, rest, Place::InBody, token),
        BodyVerb::Barrier => {
            let exprs = List::of(Vec::new(alloc));
            arguments(alloc, source, end, rest, Place::InBody, token, exprs)
        }
    }
}

/// One operation of a body.
#[tactic(auto, unfolding(crate::specs::Readings::body_operation))]
pub(crate) fn body_operation<'a>(
    alloc: Global,
    source: &[u8],
    end: u32,
    rest: &'a [Token],
) -> Read<'a, BodyOp>
    requires { AreSpelt (lexemes_of source.now rest.now) }
    ensures { Gives (seen source.now) result (body_operation end (lexemes_of source.now rest.now)) }
{
    let ((verb, token), rest) = body_verb(source, end, rest)?;
    after_body_verb(alloc, source, end, rest, verb, token)
}
