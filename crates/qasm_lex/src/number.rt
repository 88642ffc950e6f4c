//! The longest number at the front of some bytes.

ghost use Rattle.std.specs.Prelude.{◌≡◌, ◌<◌, ◌≤◌, length, slice_index, drop};
ghost use Rattle.std.specs.Char.{is_ascii_digit};
ghost use Rattle.std.specs.List.{prefix_len};
ghost use Rattle.qasm_lex.specs.Classes.{class_of};
ghost use Rattle.qasm_lex.specs.declared.piece.Class.TheVariants.{Numeric};
ghost use Rattle.qasm_lex.specs.Fronts.{Finds};
ghost use Rattle.qasm_lex.specs.Numbers.{IsExponentLength, IsMantissa, length_with};

use crate::piece::Front;
use crate::run::{Run, byte_at, run_length};
use crate::token::TokenKind;

/// The longest whole number or real.
pub(crate) fn number(bytes: &[u8]) -> Option<Front>
    requires some { 0 < length bytes.now }
    requires class { class_of (slice_index bytes.now 0) ≡ Numeric }
    ensures { Finds bytes.now result }
{
    let (front, pointed) = mantissa(bytes);
    if front == 0 {
        return None;
    }
    let behind = exponent(&bytes[front..]);
    if pointed || behind > 0 {
        return Some(Front {
            kind: Some(TokenKind::Real),
            length: front + behind,
        });
    }
    if front != 1 && bytes[0] == b'0' {
        return None;
    }
    Some(Front {
        kind: Some(TokenKind::Whole),
        length: front,
    })
}

/// The length of the longest front that is digits, or digits with a point, and whether it has a point.
fn mantissa(bytes: &[u8]) -> (usize, bool)
    ensures { IsMantissa bytes.now result.0 result.1 }
{
    let before = run_length(Run::Digits, bytes);
    if byte_at(bytes, before) != b'.' {
        return (before, false);
    }
    let behind = run_length(Run::Digits, &bytes[before + 1..]);
    if before == 0 && behind == 0 {
        return (0, false);
    }
    (before + (behind + 1), true)
}

/// The length of the longest exponent, or 0 where there is none.
fn exponent(bytes: &[u8]) -> usize
    ensures { IsExponentLength bytes.now result }
{
    let first = byte_at(bytes, 0);
    if first != b'e' && first != b'E' {
        return 0;
    }
    let sign = byte_at(bytes, 1);
    if sign == b'+' || sign == b'-' {
        with_digits(bytes, 2)
    } else {
        with_digits(bytes, 1)
    }
}

/// The length of a part up to a place and the digits behind it, or 0 where there are none.
fn with_digits(bytes: &[u8], before: usize) -> usize
    ensures value { result ≡ length_with before (prefix_len is_ascii_digit (drop before bytes.now)) }
    ensures within { result ≤ length bytes.now }
{
    if bytes.len() <= before {
        return 0;
    }
    let digits = run_length(Run::Digits, &bytes[before..]);
    if digits == 0 { 0 } else { before + digits }
}
