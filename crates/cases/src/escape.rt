//! Bytes that are written as text.

ghost use Rattle.std.specs.Prelude.{◌<◌, IfSome};

use std::alloc::{AllocError, Global};

/// What the next byte of a text belongs to.
#[derive(Clone, Copy)]
enum Within {
    /// It stands for itself, or begins an escape.
    Plain,
    /// It stands behind a backslash.
    Escape,
    /// It is the first digit of a byte.
    High,
    /// It is the second digit of a byte, and this is sixteen times the first.
    Low(u8),
}

/// The value of a hexadecimal digit.
fn digit(byte: u8) -> Option<u8>
    ensures { IfSome result (λ d. d < 16) }
{
    match byte {
        b'0'..=b'9' => Some(byte - b'0'),
        b'a'..=b'f' => Some(byte - b'a' + 10),
        b'A'..=b'F' => Some(byte - b'A' + 10),
        _ => None,
    }
}

/// The byte that an escape of one letter stands for.
fn named(letter: u8) -> Option<u8> {
    match letter {
        b'n' => Some(b'\n'),
        b'r' => Some(b'\r'),
        b't' => Some(b'\t'),
        b's' => Some(b' '),
        b'\\' => Some(b'\\'),
        _ => None,
    }
}

/// What a byte adds where it stands, and what the one behind it belongs to. None where no escape goes on so.
fn step(within: Within, byte: u8) -> Option<(Option<u8>, Within)> {
    match (within, byte) {
        (Within::Plain, b'\\') => Some((None, Within::Escape)),
        (Within::Plain, _) => Some((Some(byte), Within::Plain)),
        (Within::Escape, b'x') => Some((None, Within::High)),
        (Within::Escape, _) => Some((Some(named(byte)?), Within::Plain)),
        (Within::High, _) => Some((None, Within::Low(digit(byte)? * 16))),
        (Within::Low(high), _) => Some((Some(digit(byte)? | high), Within::Plain)),
    }
}

/// The bytes that a text stands for. None where an escape isn't one, or is cut off.
pub fn unescaped(alloc: Global, text: &str) -> Result<Option<Vec<u8>>, AllocError> {
    let mut bytes = Vec::new(alloc);
    let mut within = Within::Plain;
    for byte in text.as_bytes() {
        let Some((added, next)) = step(within, *byte) else {
            return Ok(None);
        };
        if let Some(added) = added {
            bytes.push(added)?;
        }
        within = next;
    }
    match within {
        Within::Plain => Ok(Some(bytes)),
        _ => Ok(None),
    }
}
