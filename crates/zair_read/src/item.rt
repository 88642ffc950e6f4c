//! Values of arrays.

ghost use Rattle.std.specs.Prelude.{◌≡◌, Option};
ghost use Rattle.serde_json.specs.Data.{Data};
ghost use Rattle.serde_json.specs.View.{view};
ghost use Rattle.zair_read.specs.Told.{Tells, told_id, told_beam, told_caught, told_dropped, told_pair, told_read, told_trap, told_gate, told_list};

use crate::fault::TextFault;
use crate::gate::gate_in;
use crate::number::{id_in, number_in, position_in, three_in, two_in, values_in};
use serde_json::Value;
use std::alloc::Global;
use zac_arch::TrapId;
use zac_gates::List;
use zair_form::{Beam, Caught, Dropped, OneGate, PairOf, ReadOf};

fn trap_in(value: &Value) -> Option<TrapId>
    ensures { result ≡ told_trap (view value.now) }
{
    let number = number_in(value)?;
    Some(TrapId(number))
}

fn beam_in(value: &Value) -> Option<Beam>
    ensures { result ≡ told_beam (view value.now) }
{
    let (id, at) = two_in(value)?;
    let id = id_in(id)?;
    let at = position_in(at)?;
    Some(Beam { id, at })
}

fn caught_in(value: &Value) -> Option<Caught>
    ensures { result ≡ told_caught (view value.now) }
{
    let (q, row, column) = three_in(value)?;
    let q = number_in(q)?;
    let row = id_in(row)?;
    let column = id_in(column)?;
    Some(Caught { q, row, column })
}

fn dropped_in(value: &Value) -> Option<Dropped>
    ensures { result ≡ told_dropped (view value.now) }
{
    let (q, trap) = two_in(value)?;
    let q = number_in(q)?;
    let trap = trap_in(trap)?;
    Some(Dropped { q, trap })
}

fn pair_in(value: &Value) -> Option<PairOf>
    ensures { result ≡ told_pair (view value.now) }
{
    let (op, a, b) = three_in(value)?;
    let op = number_in(op)?;
    let a = number_in(a)?;
    let b = number_in(b)?;
    Some(PairOf { op, a, b })
}

fn read_in(value: &Value) -> Option<ReadOf>
    ensures { result ≡ told_read (view value.now) }
{
    let (op, q, bit) = three_in(value)?;
    let op = number_in(op)?;
    let q = number_in(q)?;
    let bit = number_in(bit)?;
    Some(ReadOf { op, q, bit })
}

// An answer, or a refusal.
fn or_refused<T: Drop>(answer: Option<T>) -> Result<T, TextFault>
    ensures { Tells result answer }
{
    match answer {
        Some(item) => Ok(item),
        None => Err(TextFault::Refused),
    }
}

/// What is read from a JSON value.
pub(crate) trait FromJson: Drop {
    /// What a value tells.
    ghost told: { Data → Option Self };

    /// Reads it.
    fn from_json(alloc: Global, value: &Value) -> Result<Self, TextFault>
        ensures { Tells result (told (view value.now)) };
}

impl FromJson for u8 {
    ghost told = { told_id };

    fn from_json(_alloc: Global, value: &Value) -> Result<u8, TextFault> {
        or_refused(id_in(value))
    }
}

impl FromJson for TrapId {
    ghost told = { told_trap };

    fn from_json(_alloc: Global, value: &Value) -> Result<TrapId, TextFault> {
        or_refused(trap_in(value))
    }
}

impl FromJson for Beam {
    ghost told = { told_beam };

    fn from_json(_alloc: Global, value: &Value) -> Result<Beam, TextFault> {
        or_refused(beam_in(value))
    }
}

impl FromJson for Caught {
    ghost told = { told_caught };

    fn from_json(_alloc: Global, value: &Value) -> Result<Caught, TextFault> {
        or_refused(caught_in(value))
    }
}

impl FromJson for Dropped {
    ghost told = { told_dropped };

    fn from_json(_alloc: Global, value: &Value) -> Result<Dropped, TextFault> {
        or_refused(dropped_in(value))
    }
}

impl FromJson for PairOf {
    ghost told = { told_pair };

    fn from_json(_alloc: Global, value: &Value) -> Result<PairOf, TextFault> {
        or_refused(pair_in(value))
    }
}

impl FromJson for ReadOf {
    ghost told = { told_read };

    fn from_json(_alloc: Global, value: &Value) -> Result<ReadOf, TextFault> {
        or_refused(read_in(value))
    }
}

impl FromJson for OneGate {
    ghost told = { told_gate };

    fn from_json(alloc: Global, value: &Value) -> Result<OneGate, TextFault> {
        gate_in(alloc, value)
    }
}

/// Reads the values of an array.
pub(crate) fn list_in<T: FromJson>(alloc: Global, value: &Value) -> Result<List<T>, TextFault>
    ensures { Tells result (told_list T.told (view value.now)) }
{
    let Some(values) = values_in(value) else {
        return Err(TextFault::Refused);
    };
    let mut items = Vec::with_capacity(alloc, values.len())?;
    for value in values {
        items.push(T::from_json(alloc, value)?)?;
    }
    Ok(List::of(items))
}
