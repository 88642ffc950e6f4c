//! The first of the tokens that are left.

ghost use Rattle.std.specs.Prelude.{◌≡◌, [], ◌∷◌, MatchOption, IfOk, IfErr};
ghost use Rattle.qasm_parse.specs.Gives.{Gives, seen, seen_one, seen_token};
ghost use Rattle.qasm_form.specs.Openings.{body_verb_of, is_number, opening_of, verb_of};
ghost use Rattle.qasm_parse.specs.Follows.{follows};
ghost use Rattle.qasm_parse.specs.Readers.{first, one_of, token};
ghost use Rattle.qasm_form.specs.Symbols.{lexemes_of, symbol_of, token_text};

use crate::fault::SyntaxFault;
use crate::opening::{Follow, body_verb_of, follows, is_number, opening_of, verb_of};
use crate::symbol::{same_symbol, symbol_of};
use qasm_form::Symbol;
use qasm_form::opening::{BodyVerb, Opening, Verb};
use qasm_lex::Token;
use std::alloc::Global;
use zac_gates::Bytes;

/// What a reader answers: a value and the tokens after it.
pub(crate) type Read<'a, V> = Result<(V, &'a [Token]), SyntaxFault>;

/// The bytes of a token.
pub(crate) fn text<'s>(source: &'s [u8], token: Token) -> &'s [u8]
    ensures { result.now ≡ token_text source.now token }
{
    let from = source.len().min(token.from as usize);
    let to = source.len().min(token.to as usize).max(from);
    &source[from..to]
}

/// The bytes of a token, as bytes of their own.
pub(crate) fn word(alloc: Global, source: &[u8], token: Token) -> Result<Bytes, SyntaxFault>
    ensures text { IfOk result (λ bytes. bytes ≡ token_text source.now token) }
    ensures only_memory { IfErr result (λ e. e ≡ SyntaxFault.Memory) }
{
    Ok(Bytes::of(text(source, token).to_vec(alloc)?))
}

/// The symbol of a token.
pub(crate) fn symbol_at(source: &[u8], token: Token) -> Symbol
    ensures { result ≡ symbol_of token.kind (token_text source.now token) }
{
    symbol_of(token.kind, text(source, token))
}

/// The first token and the others, if there is one.
fn split(rest: &[Token]) -> Option<(Token, &[Token])>
    ensures { MatchOption result (rest.now ≡ []) (λ p. rest.now ≡ p.0 ∷ p.1.now) }
{
    if rest.is_empty() {
        return None;
    }
    Some((rest[0], &rest[1..]))
}

/// The first token, whichever it is.
pub(crate) fn first<'a>(source: &[u8], end: u32, rest: &'a [Token]) -> Read<'a, Token>
    ensures { Gives (seen_token source.now) result (first end (lexemes_of source.now rest.now)) }
{
    let _ = source;
    match split(rest) {
        None => Err(SyntaxFault::At { at: end }),
        Some((token, others)) => Ok((token, others)),
    }
}

/// One token of this symbol.
pub(crate) fn take<'a>(
    source: &[u8],
    end: u32,
    rest: &'a [Token],
    symbol: Symbol,
) -> Read<'a, Token>
    ensures { Gives (seen_token source.now) result (token end symbol (lexemes_of source.now rest.now)) }
{
    let (token, others) = first(source, end, rest)?;
    if same_symbol(symbol_at(source, token), symbol) {
        Ok((token, others))
    } else {
        Err(SyntaxFault::At { at: token.from })
    }
}

/// What stands behind an item: whether a further one follows.
pub(crate) fn follow<'a>(
    source: &[u8],
    end: u32,
    rest: &'a [Token],
    class: Follow,
) -> Read<'a, (bool, Token)>
    ensures { Gives (seen_one source.now) result (one_of end (follows class) (lexemes_of source.now rest.now)) }
{
    let (token, others) = first(source, end, rest)?;
    match follows(class, symbol_at(source, token)) {
        None => Err(SyntaxFault::At { at: token.from }),
        Some(more) => Ok(((more, token), others)),
    }
}

/// What is done, and the token that says it.
pub(crate) fn verb<'a>(source: &[u8], end: u32, rest: &'a [Token]) -> Read<'a, (Verb, Token)>
    ensures { Gives (seen_one source.now) result (one_of end verb_of (lexemes_of source.now rest.now)) }
{
    let (token, others) = first(source, end, rest)?;
    match verb_of(symbol_at(source, token)) {
        None => Err(SyntaxFault::At { at: token.from }),
        Some(verb) => Ok(((verb, token), others)),
    }
}

/// What is done in a body, and the token that says it.
pub(crate) fn body_verb<'a>(
    source: &[u8],
    end: u32,
    rest: &'a [Token],
) -> Read<'a, (BodyVerb, Token)>
    ensures { Gives (seen_one source.now) result (one_of end body_verb_of (lexemes_of source.now rest.now)) }
{
    let (token, others) = first(source, end, rest)?;
    match body_verb_of(symbol_at(source, token)) {
        None => Err(SyntaxFault::At { at: token.from }),
        Some(verb) => Ok(((verb, token), others)),
    }
}

/// What a statement is, and its first token.
pub(crate) fn opening<'a>(source: &[u8], end: u32, rest: &'a [Token]) -> Read<'a, (Opening, Token)>
    ensures { Gives (seen_one source.now) result (one_of end opening_of (lexemes_of source.now rest.now)) }
{
    let (token, others) = first(source, end, rest)?;
    match opening_of(symbol_at(source, token)) {
        None => Err(SyntaxFault::At { at: token.from }),
        Some(opening) => Ok(((opening, token), others)),
    }
}

/// A number, whole or real.
pub(crate) fn number<'a>(source: &[u8], end: u32, rest: &'a [Token]) -> Read<'a, (bool, Token)>
    ensures { Gives (seen_one source.now) result (one_of end is_number (lexemes_of source.now rest.now)) }
{
    let (token, others) = first(source, end, rest)?;
    match is_number(symbol_at(source, token)) {
        None => Err(SyntaxFault::At { at: token.from }),
        Some(number) => Ok(((number, token), others)),
    }
}
