//! The tokens of a source.

ghost use Rattle.std.specs.Prelude.{◌≡◌, ◌≤◌, ◌++◌, ◌⊎◌, ℕ, length, IfOk, OnOk, IsErrOf, IfErr};
ghost use Rattle.qasm_lex.specs.Lexed.{Lexed};
ghost use Rattle.qasm_lex.specs.Cuts.{AreTokensOf, IsLexAnswer, IsLexFault, token_of};

use crate::piece::piece;
use crate::token::{LexFault, Token, TokenKind, Tokens};
use std::alloc::Global;

/// The tokens of a source of at most 4 MiB, where it is a sequence of tokens, blanks and comments, each the longest
/// that stands at its place. Else `LexFault::At` names the first byte at which none begins.
pub fn lex(alloc: Global, source: &[u8]) -> Result<Tokens, LexFault>
    requires { length source.now ≤ 4194304 }
    ensures tokens { IfOk result (λ lexed. AreTokensOf source.now lexed) }
    ensures fault { (at : ℕ) → IsErrOf result (LexFault.At at) → IsLexFault source.now at }

    // Unless memory runs out, each source that has tokens is read, and each that has none is refused.
    ensures every { (lexed : Lexed) → AreTokensOf source.now lexed → (result ≡ Ok lexed) ⊎ IsErrOf result LexFault.Memory }
    ensures refused { (at : ℕ) → IsLexFault source.now at → IsErrOf result (LexFault.At at) ⊎ IsErrOf result LexFault.Memory }
{
    read(alloc, source)
}

/// The tokens of a source, or its fault.
fn read(alloc: Global, source: &[u8]) -> Result<Tokens, LexFault>
    requires { length source.now ≤ 4194304 }
    ensures { IsLexAnswer source.now result }
{
    let mut items = Vec::new(alloc);
    let mut at: usize = 0;
    while at < source.len() {
        let Some(front) = piece(&source[at..]) else {
            return Err(LexFault::At { at: at as u32 });
        };
        let end = at + front.length;
        add(&mut items, front.kind, at as u32, end as u32)?;
        at = end;
    }
    Ok(Tokens::of(items, source.len() as u32))
}

/// Adds the token of a piece, where it is one.
fn add(items: &mut Vec<Token>, kind: Option<TokenKind>, from: u32, to: u32) -> Result<(), LexFault>
    ensures added { OnOk result (items.new.items ≡ items.old.items ++ token_of kind from to) }
    ensures only_memory { IfErr result (λ e. e ≡ LexFault.Memory) }
{
    if let Some(kind) = kind {
        items.push(Token { kind, from, to })?;
    }
    Ok(())
}
