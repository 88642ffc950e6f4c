//! Instructions from bytes in the layout of written texts.

ghost use Rattle.std.specs.Prelude.{◌≡◌, ◌≤◌, ◌++◌, ◌∷◌, map, IfOk, OnOk, codes};
ghost use Rattle.std.specs.List.{AllByRecursion};
ghost use Rattle.serde_json.specs.Written.{compact_text};
ghost use Rattle.zair_text.specs.Values.{array_of};
ghost use Rattle.zair_read.specs.Compact.{behind_times, IsBehindTimes};
ghost use Rattle.zair_read.specs.Texts.{IsInstrText};

use crate::compact::{after, literal, number};
use crate::fault::TextFault;
use crate::instr::TIME;
use crate::job::steps;
use crate::part::{Part, parts};
use std::alloc::Global;
use zac_gates::List;
use zair_form::{Act, Instr};

// The begin and the end of an instruction.
fn times(bytes: &[u8]) -> Result<(u64, u64, &[u8]), TextFault>
    ensures { IfOk result (λ r. (bytes.now ≡ behind_times r.0 r.1 r.2.now) × (r.0 ≤ r.1) × (r.1 ≤ 4000000000000000000)) }
{
    let rest = literal(bytes, "\"begin\":")?;
    let (begin, rest) = number(rest, TIME)?;
    let rest = literal(rest, ",\"end\":")?;
    let (end, rest) = number(rest, TIME)?;
    let rest = literal(rest, ",")?;
    if begin <= end {
        Ok((begin, end, rest))
    } else {
        Err(TextFault::Refused)
    }
}

// Reads a text that is all of the bytes.
fn last(bytes: &[u8], text: &str) -> Result<(), TextFault>
    ensures { OnOk result (bytes.now ≡ text.now) }
{
    let rest = literal(bytes, text)?;
    if rest.is_empty() {
        Ok(())
    } else {
        Err(TextFault::Refused)
    }
}

// Reads the array between two texts, of which the later one is the last of the bytes.
fn parts_between<T: Part>(
    alloc: Global,
    bytes: &[u8],
    key: &str,
    kind: &str,
) -> Result<List<T>, TextFault>
    ensures { IfOk result (λ items. (bytes.now ≡ key.now ++ (compact_text (array_of (map T.value_of items)) ++ kind.now))
        × AllByRecursion T.in_range items) }
{
    let rest = literal(bytes, key)?;
    let (items, rest) = parts(alloc, rest)?;
    last(rest, kind)?;
    Ok(items)
}

// Reads what an instruction does that is no job.
fn act(alloc: Global, bytes: &[u8]) -> Result<Act, TextFault>
    ensures { IfOk result (λ act. IsBehindTimes act bytes.now) }
{
    match bytes {
        [_, b'g', ..] => {
            let ones = parts_between(alloc, bytes, "\"gates\":", ",\"type\":\"1qGate\"}")?;
            Ok(Act::Gates { ones })
        }
        [_, b'h', ..] => {
            let homes = parts_between(alloc, bytes, "\"homes\":", ",\"type\":\"init\"}")?;
            Ok(Act::Init { homes })
        }
        [_, b'p', ..] => {
            let pairs = parts_between(alloc, bytes, "\"pairs\":", ",\"type\":\"rydberg\"}")?;
            Ok(Act::Rydberg { pairs })
        }
        _ => {
            let reads = parts_between(alloc, bytes, "\"reads\":", ",\"type\":\"readout\"}")?;
            Ok(Act::Readout { reads })
        }
    }
}

// Reads an instruction that is no job.
fn timed(alloc: Global, bytes: &[u8]) -> Result<Instr, TextFault>
    ensures { IfOk result (IsInstrText bytes.now) }
{
    let rest = literal(bytes, "{")?;
    let (begin, end, rest) = times(rest)?;
    let act = act(alloc, rest)?;
    Ok(Instr { begin, end, act })
}

// Takes what stands behind the key of the AOD.
fn job(alloc: Global, bytes: &[u8]) -> Result<Instr, TextFault>
    ensures { IfOk result (IsInstrText (codes "{\"aod\":" ++ bytes.now)) }
{
    let (aod, rest) = number(bytes, 255)?;
    let aod = aod as u8;
    let rest = literal(rest, ",")?;
    let (begin, end, rest) = times(rest)?;
    let rest = literal(rest, "\"steps\":")?;
    let (steps, rest) = steps(alloc, aod, rest)?;
    last(rest, ",\"type\":\"rearrangeJob\"}")?;
    let act = Act::Job { aod, steps };
    Ok(Instr { begin, end, act })
}

/// Reads an instruction from bytes in the layout that texts are written in.
///
/// What it answers is the bytes' instruction. It refuses bytes in another layout too.
pub(crate) fn written_instr(alloc: Global, bytes: &[u8]) -> Result<Instr, TextFault>
    ensures { IfOk result (IsInstrText bytes.now) }
{
    match after(bytes, "{\"aod\":") {
        Some(rest) => job(alloc, rest),
        None => timed(alloc, bytes),
    }
}
