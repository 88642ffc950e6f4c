//! Which symbol a token is.

ghost use Rattle.std.specs.Prelude.{◌≡◌, map};
ghost use Rattle.qasm_form.specs.Symbols.{
  capital_symbol,
  row_of,
  sign_symbol,
  symbol_in,
  symbol_of,
  word_symbol,
};
ghost use Rattle.qasm_parse.specs.SameSymbols.{same_symbol};

use qasm_form::Symbol;
use qasm_lex::TokenKind;

/// The symbol of a token's kind and text.
pub(crate) fn symbol_of(kind: TokenKind, text: &[u8]) -> Symbol
    ensures { result ≡ symbol_of kind text.now }
{
    match kind {
        TokenKind::Word => word_symbol(text),
        TokenKind::Capital => capital_symbol(text),
        TokenKind::Whole => Symbol::Whole,
        TokenKind::Real => Symbol::Real,
        TokenKind::Text => Symbol::Text,
        TokenKind::Sign => sign_symbol(text),
    }
}

/// The symbol beside a text in a table, or another one where the table doesn't have the text.
fn symbol_in(rows: &[(&[u8], Symbol)], text: &[u8], other: Symbol) -> Symbol
    ensures { result ≡ symbol_in (map row_of rows.now) text.now other }
{
    for row in rows {
        if text == row.0 {
            return row.1;
        }
    }
    other
}

/// A reserved word, or else an identifier.
fn word_symbol(text: &[u8]) -> Symbol
    ensures { result ≡ word_symbol text.now }
{
    let words: [(&[u8], Symbol); 16] = [
        (b"include", Symbol::Include),
        (b"qreg", Symbol::Qreg),
        (b"creg", Symbol::Creg),
        (b"gate", Symbol::Gate),
        (b"opaque", Symbol::Opaque),
        (b"measure", Symbol::Measure),
        (b"reset", Symbol::Reset),
        (b"barrier", Symbol::Barrier),
        (b"if", Symbol::If),
        (b"pi", Symbol::Pi),
        (b"sin", Symbol::Sin),
        (b"cos", Symbol::Cos),
        (b"tan", Symbol::Tan),
        (b"exp", Symbol::Exp),
        (b"ln", Symbol::Ln),
        (b"sqrt", Symbol::Sqrt),
    ];
    symbol_in(&words, text, Symbol::Identifier)
}

/// One of the three capital words.
fn capital_symbol(text: &[u8]) -> Symbol
    ensures { result ≡ capital_symbol text.now }
{
    let words: [(&[u8], Symbol); 2] = [(b"OPENQASM", Symbol::Header), (b"U", Symbol::GateU)];
    symbol_in(&words, text, Symbol::GateCx)
}

/// A sign.
fn sign_symbol(text: &[u8]) -> Symbol
    ensures { result ≡ sign_symbol text.now }
{
    let signs: [(&[u8], Symbol); 14] = [
        (b";", Symbol::Semicolon),
        (b",", Symbol::Comma),
        (b"(", Symbol::OpenParen),
        (b")", Symbol::CloseParen),
        (b"{", Symbol::OpenBrace),
        (b"}", Symbol::CloseBrace),
        (b"[", Symbol::OpenBracket),
        (b"]", Symbol::CloseBracket),
        (b"+", Symbol::Plus),
        (b"-", Symbol::Minus),
        (b"*", Symbol::Times),
        (b"/", Symbol::Over),
        (b"^", Symbol::Power),
        (b"->", Symbol::Arrow),
    ];
    symbol_in(&signs, text, Symbol::Equals)
}

/// Whether two symbols are the same.
pub(crate) fn same_symbol(a: Symbol, b: Symbol) -> bool
    ensures { result ≡ same_symbol a b }
{
    a == b
}
