//! Statements.

ghost use Rattle.std.specs.Prelude.{◌≡◌, ◌<◌, ◌≤◌, ◌^◌, ◌⊎◌, ◌++◌, ℕ, List, Ok, length, IfOk, IsErrOf};
ghost use Rattle.qasm_lex.specs.Cuts.{AreTokensOf};
ghost use Rattle.qasm_parse.specs.Gives.{Gives, seen, seen_token};
ghost use Rattle.qasm_form.specs.Grammar.{unquoted};
ghost use Rattle.qasm_form.specs.Numbers.{AreSpelt};
ghost use Rattle.qasm_parse.specs.Readings.{
  after_opening,
  barrier,
  condition,
  conditional,
  include,
  statement_at,
  version_at,
};
ghost use Rattle.qasm_form.specs.declared.stmt.Stmt.{Stmt};
ghost use Rattle.qasm_form.specs.Statements.{IsStatement, IsSyntaxFault, StatementAt};
ghost use Rattle.qasm_parse.specs.ReadAnswers.{IsAnswer, reading_at};
ghost use Rattle.qasm_form.specs.Symbols.{Lexeme, lexeme_of, lexemes_of};

use crate::cursor::{Read, number, opening, take, text, verb, word};
use crate::declaration::{gate, opaque_gate, register};
use crate::fault::SyntaxFault;
use crate::lists::args_until;
use crate::opening::Place;
use crate::operation::after_verb;
use qasm_form::opening::Opening;
use qasm_form::{Stmt, Symbol};
use qasm_lex::{Token, Tokens};
use std::alloc::Global;
use zac_gates::Bytes;

/// A string without its quotes.
fn unquoted(quoted: &[u8]) -> &[u8]
    ensures { result.now ≡ unquoted quoted.now }
{
    if quoted.len() < 2 {
        return &quoted[..0];
    }
    &quoted[1..quoted.len() - 1]
}

/// An include.
#[tactic(auto, unfolding(crate::specs::Readings::include))]
fn include<'a>(alloc: Global, source: &[u8], end: u32, rest: &'a [Token]) -> Read<'a, Stmt>
    ensures { Gives (seen source.now) result (include end (lexemes_of source.now rest.now)) }
{
    let (token, rest) = take(source, end, rest, Symbol::Text)?;
    let (_, rest) = take(source, end, rest, Symbol::Semicolon)?;
    let name = Bytes::of(unquoted(text(source, token)).to_vec(alloc)?);
    let at = token.from;
    Ok((Stmt::Include { name, at }, rest))
}

/// A barrier.
#[tactic(auto, unfolding(crate::specs::Readings::barrier))]
fn barrier<'a>(
    alloc: Global,
    source: &[u8],
    end: u32,
    rest: &'a [Token],
    token: Token,
) -> Read<'a, Stmt>
    ensures { Gives (seen source.now) result (barrier end (lexeme_of source.now token) (lexemes_of source.now rest.now)) }
{
    let (args, rest) = args_until(alloc, source, end, rest, Place::Top)?;
    let at = token.from;
    Ok((Stmt::Barrier { args, at }, rest))
}

/// A condition, of which the last token is given.
#[tactic(auto, unfolding(crate::specs::Readings::condition))]
fn condition<'a>(source: &[u8], end: u32, rest: &'a [Token]) -> Read<'a, Token>
    ensures { Gives (seen_token source.now) result (condition end (lexemes_of source.now rest.now)) }
{
    let (_, rest) = take(source, end, rest, Symbol::OpenParen)?;
    let (_, rest) = take(source, end, rest, Symbol::Identifier)?;
    let (_, rest) = take(source, end, rest, Symbol::Equals)?;
    let (_, rest) = take(source, end, rest, Symbol::Whole)?;
    take(source, end, rest, Symbol::CloseParen)
}

/// A condition and what it is about.
#[tactic(auto, unfolding(crate::specs::Readings::conditional))]
fn conditional<'a>(
    alloc: Global,
    source: &[u8],
    end: u32,
    rest: &'a [Token],
    token: Token,
) -> Read<'a, Stmt>
    requires { AreSpelt (lexemes_of source.now rest.now) }
    ensures { Gives (seen source.now) result (conditional end (lexeme_of source.now token) (lexemes_of source.now rest.now)) }
{
    let (_, rest) = condition(source, end, rest)?;
    let ((verb, done), rest) = verb(source, end, rest)?;
    let (_, rest) = after_verb(alloc, source, end, rest, verb, done)?;
    let at = token.from;
    Ok((Stmt::If { at }, rest))
}

/// What follows a statement's first token.
#[tactic(auto, unfolding(crate::specs::Readings::after_opening))]
fn after_opening<'a>(
    alloc: Global,
    source: &[u8],
    end: u32,
    rest: &'a [Token],
    opening: Opening,
    token: Token,
) -> Read<'a, Stmt>
    requires { AreSpelt (lexemes_of source.now rest.now) }
    ensures { Gives (seen source.now) result (after_opening end opening (lexeme_of source.now token) (lexemes_of source.now rest.now)) }
{
    match opening {
        Opening::Include => include(alloc, source, end, rest),
        Opening::Qreg => {
            let ((token, size), rest) = register(source, end, rest)?;
            let name = word(alloc, source, token)?;
            let at = token.from;
            Ok((Stmt::Qreg { name, size, at }, rest))
        }
        Opening::Creg => {
            let ((token, size), rest) = register(source, end, rest)?;
            let name = word(alloc, source, token)?;
            let at = token.from;
            Ok((Stmt::Creg { name, size, at }, rest))
        }
        Opening::Gate => gate(alloc, source, end, rest),
        Opening::Opaque => opaque_gate(alloc, source, end, rest),
        Opening::Barrier => barrier(alloc, source, end, rest, token),
        Opening::If => conditional(alloc, source, end, rest, token),
        Opening::Verb(verb) => after_verb(alloc, source, end, rest, verb, token),
    }
}

/// A statement behind the version.
#[tactic(auto, unfolding(crate::specs::Readings::statement_at))]
pub(crate) fn statement_at<'a>(
    alloc: Global,
    source: &[u8],
    end: u32,
    rest: &'a [Token],
) -> Read<'a, Stmt>
    requires { AreSpelt (lexemes_of source.now rest.now) }
    ensures { Gives (seen source.now) result (statement_at end (lexemes_of source.now rest.now)) }
{
    let ((opening, token), rest) = opening(source, end, rest)?;
    after_opening(alloc, source, end, rest, opening, token)
}

/// The version.
#[tactic(auto, unfolding(crate::specs::Readings::version_at))]
pub(crate) fn version_at<'a>(
    alloc: Global,
    source: &[u8],
    end: u32,
    rest: &'a [Token],
) -> Read<'a, Stmt>
    ensures { Gives (seen source.now) result (version_at end (lexemes_of source.now rest.now)) }
{
    let (_, rest) = take(source, end, rest, Symbol::Header)?;
    let ((_, token), rest) = number(source, end, rest)?;
    let (_, rest) = take(source, end, rest, Symbol::Semicolon)?;
    let number = word(alloc, source, token)?;
    let at = token.from;
    Ok((Stmt::Version { number, at }, rest))
}

/// The statement at a place among the tokens, and the place behind it. At place 0 the version is read, and nowhere
/// else. The tokens are those that `lex` answers for this source, and the place is a token's.
///
/// `SyntaxFault::At` names the first token with which the tokens from the place on begin no statement, by its offset, or
/// the source's length where the tokens end before a statement does.
pub fn statement(
    alloc: Global,
    source: &[u8],
    tokens: &Tokens,
    from: u32,
) -> Result<(Stmt, u32), SyntaxFault>
    requires lexed { AreTokensOf source.now tokens.now }
    requires place { from < length tokens.now.tokens }
    ensures read { IfOk result (λ r. IsStatement (lexemes_of source.now tokens.now.tokens) from r.0 r.1) }
    ensures fault { (at : ℕ) → IsErrOf result (SyntaxFault.At at)
        → IsSyntaxFault (lexemes_of source.now tokens.now.tokens) from (length source.now) at }

    // Unless memory runs out, each statement that stands there is read, and where none stands it is refused.
    ensures every { (s : Stmt) (next : ℕ) → IsStatement (lexemes_of source.now tokens.now.tokens) from s next
        → (result ≡ Ok (s, next)) ⊎ IsErrOf result SyntaxFault.Memory }
    ensures refused { (at : ℕ) → IsSyntaxFault (lexemes_of source.now tokens.now.tokens) from (length source.now) at
        → IsErrOf result (SyntaxFault.At at) ⊎ IsErrOf result SyntaxFault.Memory }
{
    answer(alloc, source, tokens.all(), from)
}

/// The statement at a place, and the place behind it.
fn answer(
    alloc: Global,
    source: &[u8],
    tokens: &[Token],
    from: u32,
) -> Result<(Stmt, u32), SyntaxFault>
    requires small { length source.now < 2 ^ 32 }
    requires few { length tokens.now < 2 ^ 32 }
    requires place { from < length tokens.now }
    requires spelt { AreSpelt (lexemes_of source.now tokens.now) }
    ensures { IsAnswer (lexemes_of source.now tokens.now) from (length source.now) result }
{
    let end = source.len() as u32;
    let rest = &tokens[from as usize..];
    let (statement, left) = read_at(alloc, source, end, rest, from)?;
    let next = (tokens.len() - left.len()) as u32;
    Ok((statement, next))
}

/// The version at place 0, and a statement behind it elsewhere.
fn read_at<'a>(
    alloc: Global,
    source: &[u8],
    end: u32,
    rest: &'a [Token],
    from: u32,
) -> Read<'a, Stmt>
    requires { AreSpelt (lexemes_of source.now rest.now) }
    ensures reads { Gives (seen source.now) result (reading_at from end (lexemes_of source.now rest.now)) }
    ensures shorter { IfOk result (λ x. length x.1.now ≤ length rest.now) }
{
    if from == 0 {
        version_at(alloc, source, end, rest)
    } else {
        statement_at(alloc, source, end, rest)
    }
}

/// No statement is a proper front of another, and its tokens have one reading: so tokens fall into statements in at most
/// one way.
pub fn one_reading()
    ensures { (from : ℕ) (a b r s : List Lexeme) (v w : Stmt) → StatementAt from a v → StatementAt from b w
        → a ++ r ≡ b ++ s → (a ≡ b) × (v ≡ w) }
{}
