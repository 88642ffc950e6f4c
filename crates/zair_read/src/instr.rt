//! The values of instructions.

ghost use Rattle.std.specs.Prelude.{◌≡◌, option_map};
ghost use Rattle.serde_json.specs.View.{view, members_view};
ghost use Rattle.zair_read.specs.Told.{Tells, times_fields, timed_parts, job_parts, told_init, told_gates, told_rydberg, told_readout, told_job, told_instr};

use crate::fault::TextFault;
use crate::fields::Fields;
use crate::item::list_in;
use crate::step::steps_in;
use serde_json::Value;
use std::alloc::Global;
use zair_form::{Act, Instr};

/// The greatest time, in nanoseconds.
pub(crate) const TIME: u64 = 4_000_000_000_000_000_000;

// The begin and the end of an instruction.
fn times_fields(fields: &mut Fields<'_>) -> Option<(u64, u64)>
    ensures { option_map (λ p. (p.0, p.1, members_view fields.new.left)) result ≡ times_fields (members_view fields.old.left) }
{
    let begin = fields.number("begin", TIME)?;
    let end = fields.number("end", TIME)?;
    if begin <= end {
        Some((begin, end))
    } else {
        None
    }
}

// The begin, the end and the value of the list of an instruction of this kind.
fn timed_parts<'a>(key: &str, word: &str, value: &'a Value) -> Option<(u64, u64, &'a Value)>
    ensures { option_map (λ p. (p.0, p.1, view p.2.now)) result ≡ timed_parts key.now word.now (view value.now) }
{
    let mut fields = Fields::of(value)?;
    let (begin, end) = times_fields(&mut fields)?;
    let values = fields.take(key)?;
    if fields.ends_with("type", word) {
        Some((begin, end, values))
    } else {
        None
    }
}

// The AOD, the begin, the end and the value of the steps of a job.
fn job_parts(value: &Value) -> Option<(u8, u64, u64, &Value)>
    ensures { option_map (λ p. (p.0, p.1, p.2, view p.3.now)) result ≡ job_parts (view value.now) }
{
    let mut fields = Fields::of(value)?;
    let aod = fields.number("aod", 255)?;
    let (begin, end) = times_fields(&mut fields)?;
    let steps = fields.take("steps")?;
    if fields.ends_with("type", "rearrangeJob") {
        Some((aod as u8, begin, end, steps))
    } else {
        None
    }
}

fn init_in(alloc: Global, begin: u64, end: u64, values: &Value) -> Result<Instr, TextFault>
    ensures { Tells result (told_init (begin, end, view values.now)) }
{
    let homes = list_in(alloc, values)?;
    let act = Act::Init { homes };
    Ok(Instr { begin, end, act })
}

fn gates_in(alloc: Global, begin: u64, end: u64, values: &Value) -> Result<Instr, TextFault>
    ensures { Tells result (told_gates (begin, end, view values.now)) }
{
    let ones = list_in(alloc, values)?;
    let act = Act::Gates { ones };
    Ok(Instr { begin, end, act })
}

fn rydberg_in(alloc: Global, begin: u64, end: u64, values: &Value) -> Result<Instr, TextFault>
    ensures { Tells result (told_rydberg (begin, end, view values.now)) }
{
    let pairs = list_in(alloc, values)?;
    let act = Act::Rydberg { pairs };
    Ok(Instr { begin, end, act })
}

fn readout_in(alloc: Global, begin: u64, end: u64, values: &Value) -> Result<Instr, TextFault>
    ensures { Tells result (told_readout (begin, end, view values.now)) }
{
    let reads = list_in(alloc, values)?;
    let act = Act::Readout { reads };
    Ok(Instr { begin, end, act })
}

fn job_in(alloc: Global, aod: u8, begin: u64, end: u64, values: &Value) -> Result<Instr, TextFault>
    ensures { Tells result (told_job (aod, begin, end, view values.now)) }
{
    let steps = steps_in(alloc, aod, values)?;
    let act = Act::Job { aod, steps };
    Ok(Instr { begin, end, act })
}

/// Reads an instruction.
pub(crate) fn instr_in(alloc: Global, value: &Value) -> Result<Instr, TextFault>
    ensures { Tells result (told_instr (view value.now)) }
{
    if let Some((begin, end, values)) = timed_parts("homes", "init", value) {
        return init_in(alloc, begin, end, values);
    }
    if let Some((begin, end, values)) = timed_parts("gates", "1qGate", value) {
        return gates_in(alloc, begin, end, values);
    }
    if let Some((begin, end, values)) = timed_parts("pairs", "rydberg", value) {
        return rydberg_in(alloc, begin, end, values);
    }
    if let Some((aod, begin, end, values)) = job_parts(value) {
        return job_in(alloc, aod, begin, end, values);
    }
    match timed_parts("reads", "readout", value) {
        Some((begin, end, values)) => readout_in(alloc, begin, end, values),
        None => Err(TextFault::Refused),
    }
}
