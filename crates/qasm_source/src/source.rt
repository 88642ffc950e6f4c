//! Reading a source: its tokens, and its statements one behind the other.

ghost use Rattle.std.specs.Prelude.{◌≡◌, ◌<◌, ◌≤◌, ◌⊎◌, ℕ, length, IfErr, IfOk};
ghost use Rattle.qasm_lex.specs.Cuts.{AreTokensOf};
ghost use Rattle.qasm_form.specs.Statements.{IsStatement, IsSyntaxFault};
ghost use Rattle.qasm_form.specs.Symbols.{lexemes_of};
ghost use Rattle.qasm_source.specs.Source.{source_limit, IsAccepted, IsAcceptedTo};
ghost use Rattle.qasm_source.specs.Refusals.{IsRefusalOrWant};

use crate::source_fault::{Refusal, SourceFault};
use qasm_lex::laws::tokens_are_few;
use qasm_lex::{LexFault, Tokens, lex};
use qasm_parse::laws::each_token_is_seen;
use qasm_parse::{Stmt, SyntaxFault, statement};
use qasm_scope::Scope;
use std::alloc::Global;

/// The statements of a source of at most 4 MiB, where all of them are accepted and there is one at least. Else the fault
/// names the first refusal: tokens are judged first, and then each statement in turn, its syntax before the rest. Beside the
/// judgement of each statement, the time is in proportion to the bytes. Want of memory may come always.
pub fn read_source(alloc: Global, source: &[u8]) -> Result<Scope, SourceFault>
    requires { length source.now ≤ source_limit }
    ensures ok { IfOk result (λ program. IsAccepted source.now program) }
    ensures fault { IfErr result (IsRefusalOrWant source.now) }
{
    each_token_is_seen();
    let tokens = tokens_of(alloc, source)?;
    let scope = read_statements(alloc, source, &tokens)?;
    if scope.statements().is_empty() {
        return Err(SourceFault::Refused {
            kind: Refusal::Syntax,
            at: source.len() as u32,
        });
    }
    Ok(scope)
}

/// The tokens of a source.
fn tokens_of(alloc: Global, source: &[u8]) -> Result<Tokens, SourceFault>
    requires { length source.now ≤ source_limit }
    ensures ok { IfOk result (λ lexed. AreTokensOf source.now lexed) }
    ensures fault { IfErr result (IsRefusalOrWant source.now) }
{
    match lex(alloc, source) {
        Ok(tokens) => Ok(tokens),
        Err(LexFault::At { at }) => Err(SourceFault::Refused {
            kind: Refusal::Lex,
            at,
        }),
        Err(LexFault::Memory) => Err(SourceFault::Memory),
    }
}

/// The statements into which the tokens fall, where all of them are accepted.
fn read_statements(alloc: Global, source: &[u8], tokens: &Tokens) -> Result<Scope, SourceFault>
    requires short { length source.now ≤ source_limit }
    requires lexed { AreTokensOf source.now tokens.now }
    ensures ok { IfOk result (λ program. IsAcceptedTo source.now tokens.now program (length tokens.now.tokens)) }
    ensures fault { IfErr result (IsRefusalOrWant source.now) }
{
    tokens_are_few();
    let count = tokens.all().len() as u32;
    let mut scope = Scope::new(alloc)?;
    let mut place = 0;
    while place < count {
        place = read_statement(alloc, source, tokens, place, &mut scope)?;
    }
    Ok(scope)
}

/// Reads, judges and adds the statement at a place behind accepted ones, and answers the place behind it.
fn read_statement(
    alloc: Global,
    source: &[u8],
    tokens: &Tokens,
    place: u32,
    scope: &mut Scope,
) -> Result<u32, SourceFault>
    requires short { length source.now ≤ source_limit }
    requires so_far { IsAcceptedTo source.now tokens.now scope.old place }
    requires place { place < length tokens.now.tokens }
    ensures ok { IfOk result (λ next. IsAcceptedTo source.now tokens.now scope.new next) }
    ensures within { IfOk result (λ next. (place < next) × (next ≤ length tokens.now.tokens)) }
    ensures fault { IfErr result (IsRefusalOrWant source.now) }
{
    each_token_is_seen();
    let (statement, next) = statement_at(alloc, source, tokens, place)?;
    scope.check(&statement)?;
    scope.admit(statement)?;
    Ok(next)
}

/// The statement at a place, and the place behind it.
fn statement_at(
    alloc: Global,
    source: &[u8],
    tokens: &Tokens,
    place: u32,
) -> Result<(Stmt, u32), SourceFault>
    requires lexed { AreTokensOf source.now tokens.now }
    requires place { place < length tokens.now.tokens }
    ensures ok { IfOk result (λ r. IsStatement (lexemes_of source.now tokens.now.tokens) place r.0 r.1) }
    ensures fault { IfErr result (λ f. (f ≡ SourceFault.Memory) ⊎ ((at : ℕ) × (f ≡ SourceFault.Refused Refusal.Syntax at)
        × IsSyntaxFault (lexemes_of source.now tokens.now.tokens) place (length source.now) at)) }
{
    match statement(alloc, source, tokens, place) {
        Ok(read) => Ok(read),
        Err(SyntaxFault::At { at }) => Err(SourceFault::Refused {
            kind: Refusal::Syntax,
            at,
        }),
        Err(SyntaxFault::Memory) => Err(SourceFault::Memory),
    }
}
