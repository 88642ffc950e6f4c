//! Tokens, and the list of those of a source.

ghost use Rattle.std.specs.Prelude.{◌≡◌};

use std::alloc::{AllocError, AllocFailed};
use std::marker::Model;

/// The kind of a token.
#[derive(Clone, Copy)]
pub enum TokenKind {
    /// A lower-case letter, then letters, digits and underscores.
    Word,
    /// `OPENQASM`, `U` or `CX`.
    Capital,
    /// `0`, or digits that don't begin with 0.
    Whole,
    /// Digits with a point, an exponent or both.
    Real,
    /// Bytes between quotes.
    Text,
    /// One of `; , ( ) { } [ ] + - * / ^ -> ==`.
    Sign,
}

/// A token of a source, with the offset of its first byte and the offset behind its last.
#[derive(Clone, Copy)]
pub struct Token {
    /// What it is.
    pub kind: TokenKind,
    /// The offset of its first byte.
    pub from: u32,
    /// The offset behind its last byte.
    pub to: u32,
}

/// Why a source has no tokens.
#[derive(Clone, Copy)]
pub enum LexFault {
    /// Memory ran out.
    Memory,
    /// No token, blank or comment begins at this byte.
    At { at: u32 },
}

impl From<AllocError> for LexFault {
    ghost use Rattle.std.specs.Prelude.{◌≡◌};
    ghost use Rattle.qasm_lex.specs.declared.token.LexFault.TheVariants.{Memory};

    ghost from_gives = { λ _ e. e ≡ Memory };

    fn from(_error: AllocError) -> LexFault {
        LexFault::Memory
    }
}

impl<T: Drop> From<AllocFailed<T>> for LexFault {
    ghost use Rattle.std.specs.Prelude.{◌≡◌};
    ghost use Rattle.qasm_lex.specs.declared.token.LexFault.TheVariants.{Memory};

    ghost from_gives = { λ _ e. e ≡ Memory };

    fn from(_error: AllocFailed<T>) -> LexFault {
        LexFault::Memory
    }
}

/// The tokens of a source, in order, each within the source. Contracts see the list of the tokens and the number of
/// bytes of the source.
#[derive(Drop)]
pub struct Tokens {
    items: Vec<Token>,
    source_length: u32,
}

impl Model for Tokens {
    ghost use Rattle.qasm_lex.specs.Lexed.{Lexed, AreInOrder};

    ghost Value = { Lexed };

    ghost view = { λ t. record { tokens = t.items.items; source_length = t.source_length } };

    ghost invariant = { λ t. AreInOrder 0 t.items.items t.source_length };
}

impl Tokens {
    ghost use Rattle.std.specs.Prelude.{◌≡◌, ◌<◌, ◌^◌};
    ghost use Rattle.qasm_lex.specs.Lexed.{AreInOrder};

    /// The tokens in the source's order.
    pub fn all(&self) -> &[Token]
        ensures tokens { result.now ≡ self.now.tokens }
        ensures in_order { AreInOrder 0 self.now.tokens self.now.source_length }
        ensures fits { self.now.source_length < 2 ^ 32 }
    {
        let _length = self.source_length;
        self.items.as_slice()
    }

    pub(crate) fn of(items: Vec<Token>, source_length: u32) -> Tokens
        requires { AreInOrder 0 items.items source_length }
        ensures tokens { result.tokens ≡ items.items }
        ensures source_length { result.source_length ≡ source_length }
    {
        Tokens {
            items,
            source_length,
        }
    }
}
