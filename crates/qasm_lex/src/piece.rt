//! The longest token, blank or comment at the front of some bytes.

ghost use Rattle.std.specs.Prelude.{◌≡◌, ◌<◌, ◌↔◌, IsTrue, length, slice_index};
ghost use Rattle.qasm_lex.specs.Classes.{class_of};
ghost use Rattle.qasm_lex.specs.Forms.{IsOneOf, capitals};
ghost use Rattle.qasm_lex.specs.Fronts.{Finds};

use crate::number::number;
use crate::run::{Run, byte_at, run_length};
use crate::token::TokenKind;

/// What a byte can begin.
#[derive(Clone, Copy)]
pub(crate) enum Class {
    /// A word.
    Lower,
    /// A number: a digit or a point.
    Numeric,
    /// A capital word.
    Upper,
    /// A blank.
    Blank,
    /// A comment, or the sign.
    Slash,
    /// A string.
    Quote,
    /// Another sign.
    Mark,
    /// Nothing.
    Other,
}

/// A piece at the front of some bytes: a token, or with no kind a blank or a comment.
#[derive(Clone, Copy)]
pub(crate) struct Front {
    /// The token's kind.
    pub kind: Option<TokenKind>,
    /// How many bytes it has.
    pub length: usize,
}

/// The class of a byte.
fn class_of(b: u8) -> Class
    ensures { result ≡ class_of b }
{
    match b {
        b'a'..=b'z' => Class::Lower,
        b'0'..=b'9' => Class::Numeric,
        b'.' => Class::Numeric,
        b'A'..=b'Z' => Class::Upper,
        b' ' | b'\t' | b'\r' | b'\n' => Class::Blank,
        b'/' => Class::Slash,
        b'"' => Class::Quote,
        b';' | b',' | b'(' | b')' | b'{' | b'}' | b'[' | b']' => Class::Mark,
        b'+' | b'-' | b'*' | b'^' | b'=' => Class::Mark,
        _ => Class::Other,
    }
}

/// The longest piece at the front, or none where none begins.
pub(crate) fn piece(bytes: &[u8]) -> Option<Front>
    requires { 0 < length bytes.now }
    ensures { Finds bytes.now result }
{
    match class_of(bytes[0]) {
        Class::Lower => Some(token(TokenKind::Word, run_length(Run::WordBytes, bytes))),
        Class::Numeric => number(bytes),
        Class::Upper => capital(bytes),
        Class::Blank => Some(Front {
            kind: None,
            length: 1,
        }),
        Class::Slash => Some(slash(bytes)),
        Class::Quote => text(bytes),
        Class::Mark => mark(bytes),
        Class::Other => None,
    }
}

/// A token of this kind and length.
fn token(kind: TokenKind, length: usize) -> Front
    ensures { result ≡ record { kind = Some kind; length = length } }
{
    Front {
        kind: Some(kind),
        length,
    }
}

/// A capital word, where the run at the front is one.
fn capital(bytes: &[u8]) -> Option<Front>
    requires some { 0 < length bytes.now }
    requires class { class_of (slice_index bytes.now 0) ≡ Class.Upper }
    ensures { Finds bytes.now result }
{
    let length = run_length(Run::WordBytes, bytes);
    if is_capital(&bytes[..length]) {
        Some(token(TokenKind::Capital, length))
    } else {
        None
    }
}

/// Whether a text is one of the three capital words.
fn is_capital(text: &[u8]) -> bool
    ensures { IsTrue result ↔ IsOneOf capitals text.now }
{
    text == b"OPENQASM".as_slice() || text == b"U".as_slice() || text == b"CX".as_slice()
}

/// A comment or the sign.
fn slash(bytes: &[u8]) -> Front
    requires some { 0 < length bytes.now }
    requires class { class_of (slice_index bytes.now 0) ≡ Class.Slash }
    ensures { Finds bytes.now (Some result) }
{
    if byte_at(bytes, 1) == b'/' {
        Front {
            kind: None,
            length: 2 + run_length(Run::CommentBytes, &bytes[2..]),
        }
    } else {
        token(TokenKind::Sign, 1)
    }
}

/// A string, where a quote closes it.
fn text(bytes: &[u8]) -> Option<Front>
    requires some { 0 < length bytes.now }
    requires class { class_of (slice_index bytes.now 0) ≡ Class.Quote }
    ensures { Finds bytes.now result }
{
    let inner = run_length(Run::StringBytes, &bytes[1..]);
    if byte_at(&bytes[1..], inner) == b'"' {
        Some(token(TokenKind::Text, inner + 2))
    } else {
        None
    }
}

/// A sign but the slash.
fn mark(bytes: &[u8]) -> Option<Front>
    requires some { 0 < length bytes.now }
    requires class { class_of (slice_index bytes.now 0) ≡ Class.Mark }
    ensures { Finds bytes.now result }
{
    let next = byte_at(bytes, 1);
    if bytes[0] == b'=' {
        if next == b'=' {
            Some(token(TokenKind::Sign, 2))
        } else {
            None
        }
    } else if bytes[0] == b'-' && next == b'>' {
        Some(token(TokenKind::Sign, 2))
    } else {
        Some(token(TokenKind::Sign, 1))
    }
}
