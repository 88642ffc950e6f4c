//! Texts and whole numbers at the front of bytes that are in the layout of written texts: no blanks, and the keys in byte order.

ghost use Rattle.std.specs.Prelude.{◌≡◌, ◌+◌, ◌<◌, ◌≤◌, ◌++◌, ◌∷◌, [], decimal, if◌then◌else◌, IfOk, IfSome};
ghost use Rattle.zair_text.specs.Values.{numbers};
ghost use Rattle.zair_read.specs.Compact.{BeginsWith};

use crate::fault::TextFault;

/// The greatest value to which one more digit is put.
const SHORT: u64 = 1_000_000_000_000_000_000;

/// What stands behind a text, if the bytes begin with it.
pub(crate) fn after<'a>(bytes: &'a [u8], text: &str) -> Option<&'a [u8]>
    ensures { IfSome result (λ rest. bytes.now ≡ text.now ++ rest.now) }
{
    bytes.strip_prefix(text.as_bytes())
}

/// What stands behind a text.
pub(crate) fn literal<'a>(bytes: &'a [u8], text: &str) -> Result<&'a [u8], TextFault>
    ensures { IfOk result (λ rest. bytes.now ≡ text.now ++ rest.now) }
{
    match after(bytes, text) {
        Some(rest) => Ok(rest),
        None => Err(TextFault::Refused),
    }
}

// The digit that the bytes begin with.
fn digit(bytes: &[u8]) -> Option<(u64, &[u8])>
    ensures { IfSome result (λ r. (r.0 < 10) × (bytes.now ≡ (48 + r.0) ∷ r.1.now)) }
{
    let (first, rest) = bytes.split_first()?;
    if *first >= b'0' && *first <= b'9' {
        Some((u64::from(*first - b'0'), rest))
    } else {
        None
    }
}

// The number that goes on with these digits behind a first digit that is not 0.
fn further_digits(bytes: &[u8], first: u64) -> Result<(u64, &[u8]), TextFault>
    requires some { 0 < first }
    requires digit { first < 10 }
    ensures { IfOk result (λ r. decimal first ++ bytes.now ≡ decimal r.0 ++ r.1.now) }
{
    let mut value = first;
    let mut rest = bytes;
    'digits: while let Some((digit, later)) = digit(rest) {
        if value > SHORT {
            return Err(TextFault::Refused);
        }
        value = value * 10 + digit;
        rest = later;
    }
    Ok((value, rest))
}

/// The number at the front, which is at most this one.
pub(crate) fn number(bytes: &[u8], most: u64) -> Result<(u64, &[u8]), TextFault>
    ensures { IfOk result (λ r. (bytes.now ≡ decimal r.0 ++ r.1.now) × (r.0 ≤ most)) }
{
    let Some((first, rest)) = digit(bytes) else {
        return Err(TextFault::Refused);
    };
    if first == 0 {
        return Ok((0, rest));
    }
    let (value, rest) = further_digits(rest, first)?;
    if value <= most {
        Ok((value, rest))
    } else {
        Err(TextFault::Refused)
    }
}

/// The two numbers of the array at the front, which are at most these.
pub(crate) fn two(bytes: &[u8], most_a: u64, most_b: u64) -> Result<(u64, u64, &[u8]), TextFault>
    ensures { IfOk result (λ r. BeginsWith (numbers (r.0 ∷ r.1 ∷ [])) bytes.now r.2.now × (r.0 ≤ most_a) × (r.1 ≤ most_b)) }
{
    let rest = literal(bytes, "[")?;
    let (a, rest) = number(rest, most_a)?;
    let rest = literal(rest, ",")?;
    let (b, rest) = number(rest, most_b)?;
    let rest = literal(rest, "]")?;
    Ok((a, b, rest))
}

/// The three numbers of the array at the front, of which the first is at most this one, and the others are at most that one.
pub(crate) fn three(
    bytes: &[u8],
    most_a: u64,
    most_others: u64,
) -> Result<(u64, u64, u64, &[u8]), TextFault>
    ensures { IfOk result (λ r. BeginsWith (numbers (r.0 ∷ r.1 ∷ r.2 ∷ [])) bytes.now r.3.now
        × (r.0 ≤ most_a) × (r.1 ≤ most_others) × (r.2 ≤ most_others)) }
{
    let rest = literal(bytes, "[")?;
    let (a, rest) = number(rest, most_a)?;
    let rest = literal(rest, ",")?;
    let (b, rest) = number(rest, most_others)?;
    let rest = literal(rest, ",")?;
    let (c, rest) = number(rest, most_others)?;
    let rest = literal(rest, "]")?;
    Ok((a, b, c, rest))
}

/// Whether a comma stands behind an item of an array, and not the bracket; and what stands behind that.
pub(crate) fn behind_item(bytes: &[u8]) -> Result<(bool, &[u8]), TextFault>
    ensures { IfOk result (λ r. bytes.now ≡ (if r.0 then 44 else 93) ∷ r.1.now) }
{
    let Some((first, rest)) = bytes.split_first() else {
        return Err(TextFault::Refused);
    };
    if *first == b',' {
        return Ok((true, rest));
    }
    if *first == b']' {
        return Ok((false, rest));
    }
    Err(TextFault::Refused)
}
