//! The values of the first and the last line of a text.

ghost use Rattle.std.specs.Prelude.{◌≡◌, option_map, is_some};
ghost use Rattle.serde_json.specs.View.{view, members_view};
ghost use Rattle.zair_read.specs.Told.{header_parts, is_header, first_counts, later_counts, told_totals};

use crate::fields::{Fields, is_word};
use crate::instr::TIME;
use crate::number::NUMBER;
use serde_json::Value;
use zair_text::Totals;

// The version of a first line, which is 1.
fn header_parts(value: &Value) -> Option<u64>
    ensures { result ≡ header_parts (view value.now) }
{
    let mut fields = Fields::of(value)?;
    let kind = fields.take("type")?;
    let version = fields.number("version", 1)?;
    if is_word("zair", kind) && version == 1 && fields.is_end() {
        Some(version)
    } else {
        None
    }
}

/// Whether a value is that of the first line.
pub(crate) fn is_header(value: &Value) -> bool
    ensures { result ≡ is_header (view value.now) }
{
    header_parts(value).is_some()
}

// The first four counts.
fn first_counts(fields: &mut Fields<'_>) -> Option<(u32, u32, u32, u32)>
    ensures { option_map (λ p. (p.0, p.1, p.2, p.3, members_view fields.new.left)) result ≡ first_counts (members_view fields.old.left) }
{
    let gates = fields.number("gates", NUMBER)?;
    let jobs = fields.number("jobs", NUMBER)?;
    let kept = fields.number("kept", NUMBER)?;
    let moved = fields.number("moved", NUMBER)?;
    Some((gates as u32, jobs as u32, kept as u32, moved as u32))
}

// The next four counts.
fn later_counts(fields: &mut Fields<'_>) -> Option<(u32, u32, u32, u32)>
    ensures { option_map (λ p. (p.0, p.1, p.2, p.3, members_view fields.new.left)) result ≡ later_counts (members_view fields.old.left) }
{
    let pairs = fields.number("pairs", NUMBER)?;
    let pulses = fields.number("pulses", NUMBER)?;
    let qubits = fields.number("qubits", NUMBER)?;
    let reads = fields.number("reads", NUMBER)?;
    Some((pairs as u32, pulses as u32, qubits as u32, reads as u32))
}

/// The totals that the value of a last line tells.
pub(crate) fn totals_in(value: &Value) -> Option<Totals>
    ensures { result ≡ told_totals (view value.now) }
{
    let mut fields = Fields::of(value)?;
    let (gates, jobs, kept, moved) = first_counts(&mut fields)?;
    let (pairs, pulses, qubits, reads) = later_counts(&mut fields)?;
    let time = fields.number("time", TIME)?;
    if fields.ends_with("type", "end") {
        Some(Totals {
            gates,
            jobs,
            kept,
            moved,
            pairs,
            pulses,
            qubits,
            reads,
            time,
        })
    } else {
        None
    }
}
