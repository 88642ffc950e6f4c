//! Lines of a text.

ghost use Rattle.std.specs.Prelude.{◌≡◌, ◌≤◌, ◌++◌, ◌∷◌, [], codes, decimal, false, IfOk, OnOk, IsTrue};
ghost use Rattle.serde_json.specs.Data.{depth};
ghost use Rattle.serde_json.specs.Read.{max_depth};
ghost use Rattle.serde_json.specs.View.{view};
ghost use Rattle.serde_json.specs.Written.{has_float};
ghost use Rattle.zair_form.specs.Steps.{has_own_steps};
ghost use Rattle.zair_text.specs.Values.{instr_value, header_value, end_value};
ghost use Rattle.zair_text.specs.Ranges.{HasSmallNumbers};
ghost use Rattle.zair_text.specs.Lines.{line, instr_line, totals_line, ReadsBack};

use crate::counts::Totals;
use crate::value::{AddJson, end_json, header_json};
use serde_json::Value;
use std::alloc::Global;
use zac_gates::{Bytes, List, Memory};
use zair_form::Instr;

/// The bytes for which a line has room from the start.
const SHORT_LINE: usize = 256;

// The line of a value.
fn line_from(alloc: Global, value: &Value) -> Result<Bytes, Memory>
    requires no_float { has_float (view value.now) ≡ false }
    requires shallow { depth (view value.now) ≤ max_depth }
    ensures line { IfOk result (λ bytes. bytes ≡ line (view value.now)) }
    ensures reads_back { IfOk result (ReadsBack (view value.now)) }
{
    let mut bytes = value.to_vec(alloc)?;
    bytes.push(b'\n')?;
    Ok(List::of(bytes))
}

// Adds the line of an instruction, whose numbers are small.
pub(crate) fn add_line(instr: &Instr, out: &mut Vec<u8>) -> Result<(), Memory>
    ensures line { OnOk result (out.new.items ≡ out.old.items ++ instr_line instr.now) }
    ensures small { OnOk result (HasSmallNumbers (instr_value instr.now)) }
{
    instr.add_to(out)?;
    out.push(b'\n')?;
    Ok(())
}

/// The line of an instruction: its JSON object, written compactly with the keys in byte order, and a line feed.
///
/// What stands before the line feed, which is the only one, reads as the instruction's value.
pub fn line_of(alloc: Global, instr: &Instr) -> Result<Bytes, Memory>
    requires { IsTrue (has_own_steps instr.now.act) }
    ensures line { IfOk result (λ bytes. bytes ≡ instr_line instr.now) }
    ensures reads_back { IfOk result (ReadsBack (instr_value instr.now)) }
{
    let mut bytes = Vec::with_capacity(alloc, SHORT_LINE)?;
    add_line(instr, &mut bytes)?;
    Ok(List::of(bytes))
}

/// The first line of a text: `{"type":"zair","version":1}` and a line feed.
pub fn header_line(alloc: Global) -> Result<Bytes, Memory>
    ensures line { IfOk result (λ bytes. bytes ≡ line header_value) }
    ensures bytes { IfOk result
        (λ bytes. bytes ≡ codes "{\"type\":\"zair\",\"version\":1}" ++ 10 ∷ []) }
    ensures reads_back { IfOk result (ReadsBack header_value) }
{
    let value = header_json(alloc)?;
    line_from(alloc, &value)
}

/// The last line of a text: the totals of the program's tally in the byte order of their names, as the values of
/// these keys, then `"type":"end"`, and a line feed.
pub fn end_line(alloc: Global, totals: Totals) -> Result<Bytes, Memory>
    ensures line { IfOk result (λ bytes. bytes ≡ totals_line totals) }
    ensures bytes { IfOk result (λ bytes. bytes
        ≡ (codes "{\"gates\":" ++ decimal totals.gates ++ codes ",\"jobs\":" ++ decimal totals.jobs ++ codes ",\"kept\":" ++ decimal totals.kept
        ++ codes ",\"moved\":" ++ decimal totals.moved ++ codes ",\"pairs\":" ++ decimal totals.pairs ++ codes ",\"pulses\":" ++ decimal totals.pulses
        ++ codes ",\"qubits\":" ++ decimal totals.qubits ++ codes ",\"reads\":" ++ decimal totals.reads ++ codes ",\"time\":" ++ decimal totals.time
        ++ codes ",\"type\":\"end\"}") ++ 10 ∷ []) }
    ensures reads_back { IfOk result (ReadsBack (end_value totals)) }
{
    let value = end_json(alloc, &totals)?;
    line_from(alloc, &value)
}
