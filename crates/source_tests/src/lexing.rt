//! The kinds and places of tokens.

use qasm_lex::{Token, TokenKind, lex};
use std::alloc::{AllocError, Global};
use std::test::Fail;

/// A letter for each kind of token.
fn letter(kind: TokenKind) -> u8 {
    match kind {
        TokenKind::Word => b'W',
        TokenKind::Capital => b'C',
        TokenKind::Whole => b'N',
        TokenKind::Real => b'R',
        TokenKind::Text => b'T',
        TokenKind::Sign => b'S',
    }
}

/// Draws a token below its source: the letter of its kind at its first byte, and dashes at the others.
fn draw(picture: &mut [u8], token: Token) {
    for (at, place) in picture.iter_mut().enumerate() {
        if at == token.from as usize {
            *place = letter(token.kind);
        } else if (token.from as usize) < at && at < token.to as usize {
            *place = b'-';
        }
    }
}

/// The tokens of a source, drawn below it; one point alone where it has none.
fn drawn(alloc: Global, source: &[u8]) -> Result<Vec<u8>, AllocError> {
    if source.len() > 100 {
        return Ok(Vec::new(alloc));
    }
    let mut picture = vec![in alloc; b'.'; source.len()]?;
    if let Ok(tokens) = lex(alloc, source) {
        for token in tokens.all() {
            draw(&mut picture, *token);
        }
    }
    Ok(picture)
}

#[test]
fn cuts_sources(rt: HostRuntime) -> Result<(), Fail> {
    let rows: [(&[u8], &[u8]); 15] = [
        (b"OPENQASM 2.0;\n", b"C-------.R--S."),
        (b" \t\r\n", b"...."),
        (b"// CX $", b"......."),
        (b"// a\r;\n;", b".......S"),
        (b"a//b", b"W..."),
        (b"CX U(", b"C-.CS"),
        (b"qreg q_1Z", b"W---.W---"),
        (b"0 0a 12ab", b"N.NW.N-W-"),
        (b"00.5 .5 5. 1.2.3", b"R---.R-.R-.R--R-"),
        (b"1e 1.e+ 1e5 01e5", b"NW.R-WS.R--.R---"),
        (b"1.5E-07x", b"R------W"),
        (b"->- == / *", b"S-S.S-.S.S"),
        (b";,(){}[]+-*/^", b"SSSSSSSSSSSSS"),
        (b"\"a b\"\"\"", b"T----T-"),
        (b"a $", b"..."),
    ];
    for (source, picture) in rows {
        let found = drawn(rt.alloc(), source)?;
        assert!(rt; found.as_slice() == picture, "{source:?}");
    }
    Ok(())
}
