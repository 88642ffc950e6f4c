//! Parts of instructions at the front of bytes that are in the layout of written texts.

ghost use Rattle.std.specs.Prelude.{◌≡◌, ◌≤◌, ◌++◌, ◌∷◌, IfOk, IfSome, IsTrue};
ghost use Rattle.serde_json.specs.Data.{Data, string};
ghost use Rattle.zac_gates.specs.Angle.{is_angle};
ghost use Rattle.zair_form.specs.Ranges.{IsId, IsNumber, BeamFits, CaughtFits, DroppedFits, GateFits, PairFits, ReadFits};
ghost use Rattle.zair_text.specs.Values.{number_value, trap_value, beam_value, caught_value, dropped_value, pair_value, read_value, gate_value};
ghost use Rattle.zair_read.specs.Compact.{BeginsWith, BeginsWithAll};

use crate::compact::{after, behind_item, literal, number, three, two};
use crate::fault::TextFault;
use crate::number::NUMBER;
use std::alloc::Global;
use zac_arch::TrapId;
use zac_gates::{Angle, Angles, List};
use zair_form::{Beam, Caught, Dropped, OneGate, PairOf, ReadOf};

/// What has a place in the layout of written texts.
pub(crate) trait Part: Drop {
    /// Its value.
    ghost value_of: { Self → Data };

    /// It is in range.
    ghost in_range: { Self → Type 0 };

    /// Reads the one at the front of the bytes, and tells what stands behind it.
    fn part(alloc: Global, bytes: &[u8]) -> Result<(Self, &[u8]), TextFault>
        ensures { IfOk result (λ r. BeginsWith (value_of r.0) bytes.now r.1.now × in_range r.0) };
}

impl Part for u8 {
    ghost value_of = { number_value };

    ghost in_range = { IsId };

    fn part(_alloc: Global, bytes: &[u8]) -> Result<(u8, &[u8]), TextFault> {
        let (id, rest) = number(bytes, 255)?;
        Ok((id as u8, rest))
    }
}

impl Part for TrapId {
    ghost value_of = { trap_value };

    ghost in_range = { λ trap. IsNumber trap.0 };

    fn part(_alloc: Global, bytes: &[u8]) -> Result<(TrapId, &[u8]), TextFault> {
        let (trap, rest) = number(bytes, NUMBER)?;
        Ok((TrapId(trap as u32), rest))
    }
}

impl Part for Beam {
    ghost value_of = { beam_value };

    ghost in_range = { BeamFits };

    fn part(_alloc: Global, bytes: &[u8]) -> Result<(Beam, &[u8]), TextFault> {
        let (id, at, rest) = two(bytes, 255, 1_000_000)?;
        let id = id as u8;
        let at = at as u32;
        Ok((Beam { id, at }, rest))
    }
}

impl Part for Caught {
    ghost value_of = { caught_value };

    ghost in_range = { CaughtFits };

    fn part(_alloc: Global, bytes: &[u8]) -> Result<(Caught, &[u8]), TextFault> {
        let (q, row, column, rest) = three(bytes, NUMBER, 255)?;
        let q = q as u32;
        let row = row as u8;
        let column = column as u8;
        Ok((Caught { q, row, column }, rest))
    }
}

impl Part for Dropped {
    ghost value_of = { dropped_value };

    ghost in_range = { DroppedFits };

    fn part(_alloc: Global, bytes: &[u8]) -> Result<(Dropped, &[u8]), TextFault> {
        let (q, trap, rest) = two(bytes, NUMBER, NUMBER)?;
        let q = q as u32;
        let trap = TrapId(trap as u32);
        Ok((Dropped { q, trap }, rest))
    }
}

impl Part for PairOf {
    ghost value_of = { pair_value };

    ghost in_range = { PairFits };

    fn part(_alloc: Global, bytes: &[u8]) -> Result<(PairOf, &[u8]), TextFault> {
        let (op, a, b, rest) = three(bytes, NUMBER, NUMBER)?;
        let op = op as u32;
        let a = a as u32;
        let b = b as u32;
        Ok((PairOf { op, a, b }, rest))
    }
}

impl Part for ReadOf {
    ghost value_of = { read_value };

    ghost in_range = { ReadFits };

    fn part(_alloc: Global, bytes: &[u8]) -> Result<(ReadOf, &[u8]), TextFault> {
        let (op, q, bit, rest) = three(bytes, NUMBER, NUMBER)?;
        let op = op as u32;
        let q = q as u32;
        let bit = bit as u32;
        Ok((ReadOf { op, q, bit }, rest))
    }
}

// What stands before the first quotation mark, and what stands behind it.
fn to_quote(bytes: &[u8]) -> Option<(&[u8], &[u8])>
    ensures { IfSome result (λ p. bytes.now ≡ p.0.now ++ 34 ∷ p.1.now) }
{
    let place = bytes.iter().position(|b| *b == b'"')?;
    Some((&bytes[..place], &bytes[place + 1..]))
}

impl Part for Angle {
    ghost value_of = { string };

    ghost in_range = { λ angle. IsTrue (is_angle angle) };

    fn part(alloc: Global, bytes: &[u8]) -> Result<(Angle, &[u8]), TextFault> {
        let rest = literal(bytes, "\"")?;
        let Some((front, behind)) = to_quote(rest) else {
            return Err(TextFault::Refused);
        };
        let text = Vec::from_slice(alloc, front)?;
        match Angle::new(List::of(text)) {
            Ok(angle) => Ok((angle, behind)),
            Err(_) => Err(TextFault::Refused),
        }
    }
}

impl Part for OneGate {
    ghost value_of = { gate_value };

    ghost in_range = { GateFits };

    fn part(alloc: Global, bytes: &[u8]) -> Result<(OneGate, &[u8]), TextFault> {
        let rest = literal(bytes, "{\"op\":")?;
        let (op, rest) = number(rest, NUMBER)?;
        let rest = literal(rest, ",\"q\":")?;
        let (q, rest) = number(rest, NUMBER)?;
        let rest = literal(rest, ",\"u\":[")?;
        let (theta, rest) = Angle::part(alloc, rest)?;
        let rest = literal(rest, ",")?;
        let (phi, rest) = Angle::part(alloc, rest)?;
        let rest = literal(rest, ",")?;
        let (lambda, rest) = Angle::part(alloc, rest)?;
        let rest = literal(rest, "]}")?;
        let op = op as u32;
        let q = q as u32;
        let angles = Angles { theta, phi, lambda };
        Ok((OneGate { op, q, angles }, rest))
    }
}

/// Reads the array at the front of the bytes, and tells what stands behind it.
pub(crate) fn parts<T: Part>(alloc: Global, bytes: &[u8]) -> Result<(List<T>, &[u8]), TextFault>
    ensures { IfOk result (λ r. BeginsWithAll T.value_of T.in_range r.0 bytes.now r.1.now) }
{
    let mut items = Vec::new(alloc);
    if let Some(rest) = after(bytes, "[]") {
        return Ok((List::of(items), rest));
    }
    let mut rest = literal(bytes, "[")?;
    'items: loop {
        let (item, later) = T::part(alloc, rest)?;
        items.push(item)?;
        let (is_more, behind) = behind_item(later)?;
        if !is_more {
            items.shrink_to_fit();
            return Ok((List::of(items), behind));
        }
        rest = behind;
    }
}
