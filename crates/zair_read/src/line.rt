//! From lines to instructions.

ghost use Rattle.std.specs.Prelude.{◌≡◌, IfOk, IsErrOf, MatchBool};
ghost use Rattle.serde_json.specs.Data.{Data};
ghost use Rattle.serde_json.specs.View.{view};
ghost use Rattle.zair_form.specs.declared.program.Instr.{Instr};
ghost use Rattle.zair_text.specs.Values.{header_value};
ghost use Rattle.zair_read.specs.Texts.{IsTextOf, IsInstrText};
ghost use Rattle.zair_read.specs.Kinds.{IsKind, IsKindIn};

use crate::direct::written_instr;
use crate::ends::{is_header, totals_in};
use crate::fault::TextFault;
use crate::instr::instr_in;
use serde_json::Value;
use std::alloc::Global;
use zac_memory::Memory;
use zair_form::Instr;
use zair_text::Totals;

/// What a line behind the first one is.
#[derive(Drop)]
pub(crate) enum Kind {
    /// The line of an instruction.
    Instr(Instr),
    /// The line of totals.
    End(Totals),
    /// Neither.
    Neither,
}

// The value of a text.
fn value_of(alloc: Global, bytes: &[u8]) -> Result<Value, TextFault>
    ensures value { IfOk result (λ v. IsTextOf (view v) bytes.now) }
    ensures refused { IsErrOf result TextFault.Refused → (d : Data) → ¬ IsTextOf d bytes.now }
{
    match Value::from_slice(alloc, bytes) {
        Ok(value) => Ok(value),
        Err(e) => {
            if e.is_memory() {
                Err(TextFault::Memory)
            } else {
                Err(TextFault::Refused)
            }
        }
    }
}

// The instruction of a line in whatever layout.
fn any_instr(alloc: Global, bytes: &[u8]) -> Result<Instr, TextFault>
    ensures instr { IfOk result (IsInstrText bytes.now) }
    ensures refused { IsErrOf result TextFault.Refused → (i : Instr) → ¬ IsInstrText bytes.now i }
{
    let value = value_of(alloc, bytes)?;
    instr_in(alloc, &value)
}

/// The instruction of a line.
///
/// It is answered exactly where `serde_json` reads the bytes as the JSON value of an instruction whose numbers and angles are
/// in the ranges of the text form, and whose steps, if it is a job, are of its own AOD: the keys may come in any order and with
/// blanks, of a key that comes twice the last value counts, and a number has no sign, no point and no exponent. Else the
/// bytes are refused. It reads in time linear in the bytes, and fastest what `zair_text` writes, since that becomes no JSON value.
pub fn read_line(alloc: Global, bytes: &[u8]) -> Result<Instr, TextFault>
    ensures instr { IfOk result (IsInstrText bytes.now) }
    ensures refused { IsErrOf result TextFault.Refused → (i : Instr) → ¬ IsInstrText bytes.now i }
{
    match written_instr(alloc, bytes) {
        Ok(instr) => Ok(instr),
        Err(TextFault::Refused) => any_instr(alloc, bytes),
        Err(TextFault::Memory) => Err(TextFault::Memory),
    }
}

/// Whether a text is that of the first line.
pub(crate) fn is_header_text(alloc: Global, bytes: &[u8]) -> Result<bool, Memory>
    ensures { IfOk result (λ b. MatchBool b (IsTextOf header_value bytes.now) (¬ IsTextOf header_value bytes.now)) }
{
    match value_of(alloc, bytes) {
        Ok(value) => Ok(is_header(&value)),
        Err(TextFault::Refused) => Ok(false),
        Err(TextFault::Memory) => Err(Memory),
    }
}

// What a value is.
fn kind_in(alloc: Global, value: &Value) -> Result<Kind, Memory>
    ensures { IfOk result (IsKindIn (view value.now)) }
{
    match instr_in(alloc, value) {
        Ok(instr) => Ok(Kind::Instr(instr)),
        Err(TextFault::Refused) => match totals_in(value) {
            Some(totals) => Ok(Kind::End(totals)),
            None => Ok(Kind::Neither),
        },
        Err(TextFault::Memory) => Err(Memory),
    }
}

// What a line behind the first one is, in whatever layout.
fn any_kind(alloc: Global, bytes: &[u8]) -> Result<Kind, Memory>
    ensures { IfOk result (IsKind bytes.now) }
{
    match value_of(alloc, bytes) {
        Ok(value) => kind_in(alloc, &value),
        Err(TextFault::Refused) => Ok(Kind::Neither),
        Err(TextFault::Memory) => Err(Memory),
    }
}

/// What a line behind the first one is.
pub(crate) fn kind_of(alloc: Global, bytes: &[u8]) -> Result<Kind, Memory>
    ensures { IfOk result (IsKind bytes.now) }
{
    match written_instr(alloc, bytes) {
        Ok(instr) => Ok(Kind::Instr(instr)),
        Err(TextFault::Refused) => any_kind(alloc, bytes),
        Err(TextFault::Memory) => Err(Memory),
    }
}
