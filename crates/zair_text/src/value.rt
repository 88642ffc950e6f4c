//! The compact JSON texts of instructions and their parts, added to bytes; and the values of the first and the last line.

ghost use Rattle.std.specs.Prelude.{◌≡◌, ◌++◌, ◌∷◌, [], map, codes, decimal, IfOk, OnOk};
ghost use Rattle.serde_json.specs.Data.{Data, null, string};
ghost use Rattle.serde_json.specs.View.{view};
ghost use Rattle.zair_form.specs.declared.program.Act.TheVariants.{Job};
ghost use Rattle.zair_text.specs.Values.{array_of, numbers, number_value, trap_value, beam_value, caught_value, dropped_value, pair_value, read_value, gate_value, activate_value, move_value, deactivate_value, step_value, timed_value, act_value, instr_value, header_value, end_value};
ghost use Rattle.zair_text.specs.Added.{IsAdded, AreLaterAdded, IsTimedAdded};

use crate::counts::Totals;
use itoa::Buffer;
use serde_json::{Value, json};
use std::alloc::{AllocError, Global};
use zac_arch::TrapId;
use zac_gates::{Angle, Memory};
use zair_form::{Act, Beam, Caught, Dropped, Instr, OneGate, PairOf, ReadOf, Step};

/// What has a JSON value.
pub(crate) trait AddJson {
    /// The value.
    ghost value_of: { Self → Data };

    /// Adds the compact text of the value.
    fn add_to(&self, out: &mut Vec<u8>) -> Result<(), Memory>
        ensures { OnOk result (IsAdded [] (value_of self.now) out.old.items out.new.items) };
}

// Adds a number in decimal digits.
fn add_digits(n: u64, out: &mut Vec<u8>) -> Result<(), Memory>
    ensures { OnOk result (out.new.items ≡ out.old.items ++ decimal n) }
{
    out.extend_from_slice(Buffer::new().format(n).as_bytes())?;
    Ok(())
}

// Adds this head, and then a number.
fn add_number(head: &[u8], n: u64, out: &mut Vec<u8>) -> Result<(), Memory>
    ensures { OnOk result (IsAdded head.now (number_value n) out.old.items out.new.items) }
{
    out.extend_from_slice(head)?;
    add_digits(n, out)
}

// Adds an array of two numbers.
fn add_two(a: u32, b: u32, out: &mut Vec<u8>) -> Result<(), Memory>
    ensures { OnOk result (IsAdded [] (numbers (a ∷ b ∷ [])) out.old.items out.new.items) }
{
    out.push(b'[')?;
    add_digits(u64::from(a), out)?;
    out.push(b',')?;
    add_digits(u64::from(b), out)?;
    out.push(b']')?;
    Ok(())
}

// Adds an array of three numbers.
fn add_three(a: u32, b: u32, c: u32, out: &mut Vec<u8>) -> Result<(), Memory>
    ensures { OnOk result (IsAdded [] (numbers (a ∷ b ∷ c ∷ [])) out.old.items out.new.items) }
{
    out.push(b'[')?;
    add_digits(u64::from(a), out)?;
    out.push(b',')?;
    add_digits(u64::from(b), out)?;
    out.push(b',')?;
    add_digits(u64::from(c), out)?;
    out.push(b']')?;
    Ok(())
}

// Adds a comma and its text for each of these items.
fn add_later<T: AddJson>(items: &[T], out: &mut Vec<u8>) -> Result<(), Memory>
    ensures { OnOk result (AreLaterAdded (map T.value_of items.now) out.old.items out.new.items) }
{
    for item in items {
        out.push(b',')?;
        item.add_to(out)?;
    }
    Ok(())
}

// Adds an array of an item and more.
fn add_some<T: AddJson>(first: &T, later: &[T], out: &mut Vec<u8>) -> Result<(), Memory>
    ensures { OnOk result (IsAdded [] (array_of (T.value_of first.now ∷ map T.value_of later.now)) out.old.items out.new.items) }
{
    out.push(b'[')?;
    first.add_to(out)?;
    add_later(later, out)?;
    out.push(b']')?;
    Ok(())
}

// Adds an array of no item.
fn add_none(out: &mut Vec<u8>) -> Result<(), Memory>
    ensures { OnOk result (IsAdded [] (array_of []) out.old.items out.new.items) }
{
    out.extend_from_slice(b"[]")?;
    Ok(())
}

// Adds an array.
fn add_items<T: AddJson>(items: &[T], out: &mut Vec<u8>) -> Result<(), Memory>
    ensures { OnOk result (IsAdded [] (array_of (map T.value_of items.now)) out.old.items out.new.items) }
{
    match items {
        [] => add_none(out),
        [first, later @ ..] => add_some(first, later, out),
    }
}

// Adds this head, and then an array.
fn add_list<T: AddJson>(head: &[u8], items: &[T], out: &mut Vec<u8>) -> Result<(), Memory>
    ensures { OnOk result (IsAdded head.now (array_of (map T.value_of items.now)) out.old.items out.new.items) }
{
    out.extend_from_slice(head)?;
    add_items(items, out)
}

impl AddJson for u8 {
    ghost value_of = { number_value };

    fn add_to(&self, out: &mut Vec<u8>) -> Result<(), Memory> {
        add_number(b"", u64::from(*self), out)
    }
}

impl AddJson for TrapId {
    ghost value_of = { trap_value };

    fn add_to(&self, out: &mut Vec<u8>) -> Result<(), Memory> {
        add_number(b"", u64::from(self.0), out)
    }
}

impl AddJson for Beam {
    ghost value_of = { beam_value };

    fn add_to(&self, out: &mut Vec<u8>) -> Result<(), Memory> {
        add_two(u32::from(self.id), self.at, out)
    }
}

impl AddJson for Caught {
    ghost value_of = { caught_value };

    fn add_to(&self, out: &mut Vec<u8>) -> Result<(), Memory> {
        add_three(self.q, u32::from(self.row), u32::from(self.column), out)
    }
}

impl AddJson for Dropped {
    ghost value_of = { dropped_value };

    fn add_to(&self, out: &mut Vec<u8>) -> Result<(), Memory> {
        add_two(self.q, self.trap.0, out)
    }
}

impl AddJson for PairOf {
    ghost value_of = { pair_value };

    fn add_to(&self, out: &mut Vec<u8>) -> Result<(), Memory> {
        add_three(self.op, self.a, self.b, out)
    }
}

impl AddJson for ReadOf {
    ghost value_of = { read_value };

    fn add_to(&self, out: &mut Vec<u8>) -> Result<(), Memory> {
        add_three(self.op, self.q, self.bit, out)
    }
}

// Adds this head, and then an angle as a string; no byte of it is escaped.
fn add_angle(head: &[u8], angle: &Angle, out: &mut Vec<u8>) -> Result<(), Memory>
    ensures { OnOk result (IsAdded head.now (string angle.now) out.old.items out.new.items) }
{
    out.extend_from_slice(head)?;
    out.push(b'"')?;
    out.extend_from_slice(angle.bytes())?;
    out.push(b'"')?;
    Ok(())
}

// Adds this head, and then the array of the three angles of a gate.
fn add_angles(head: &[u8], gate: &OneGate, out: &mut Vec<u8>) -> Result<(), Memory>
    ensures { OnOk result (IsAdded head.now (array_of (string gate.now.angles.theta ∷ string gate.now.angles.phi ∷ string gate.now.angles.lambda ∷ [])) out.old.items out.new.items) }
{
    out.extend_from_slice(head)?;
    add_angle(b"[", &gate.angles.theta, out)?;
    add_angle(b",", &gate.angles.phi, out)?;
    add_angle(b",", &gate.angles.lambda, out)?;
    out.push(b']')?;
    Ok(())
}

impl AddJson for OneGate {
    ghost value_of = { gate_value };

    fn add_to(&self, out: &mut Vec<u8>) -> Result<(), Memory> {
        add_number(b"{\"op\":", u64::from(self.op), out)?;
        add_number(b",\"q\":", u64::from(self.q), out)?;
        add_angles(b",\"u\":", self, out)?;
        out.push(b'}')?;
        Ok(())
    }
}

fn add_activate(
    rows: &[Beam],
    columns: &[Beam],
    atoms: &[Caught],
    out: &mut Vec<u8>,
) -> Result<(), Memory>
    ensures { OnOk result (IsAdded [] (activate_value rows.now columns.now atoms.now) out.old.items out.new.items) }
{
    add_list(b"{\"atoms\":", atoms, out)?;
    add_list(b",\"columns\":", columns, out)?;
    add_list(b",\"rows\":", rows, out)?;
    out.extend_from_slice(b",\"step\":\"activate\"}")?;
    Ok(())
}

fn add_move(rows: &[Beam], columns: &[Beam], out: &mut Vec<u8>) -> Result<(), Memory>
    ensures { OnOk result (IsAdded [] (move_value rows.now columns.now) out.old.items out.new.items) }
{
    add_list(b"{\"columns\":", columns, out)?;
    add_list(b",\"rows\":", rows, out)?;
    out.extend_from_slice(b",\"step\":\"move\"}")?;
    Ok(())
}

fn add_deactivate(
    rows: &[u8],
    columns: &[u8],
    atoms: &[Dropped],
    out: &mut Vec<u8>,
) -> Result<(), Memory>
    ensures { OnOk result (IsAdded [] (deactivate_value rows.now columns.now atoms.now) out.old.items out.new.items) }
{
    add_list(b"{\"atoms\":", atoms, out)?;
    add_list(b",\"columns\":", columns, out)?;
    add_list(b",\"rows\":", rows, out)?;
    out.extend_from_slice(b",\"step\":\"deactivate\"}")?;
    Ok(())
}

// Adds the value of what is no step of a job.
fn add_null(out: &mut Vec<u8>) -> Result<(), Memory>
    ensures { OnOk result (IsAdded [] null out.old.items out.new.items) }
{
    out.extend_from_slice(b"null")?;
    Ok(())
}

impl AddJson for Step {
    ghost value_of = { step_value };

    fn add_to(&self, out: &mut Vec<u8>) -> Result<(), Memory> {
        match self {
            Step::Activate {
                rows,
                columns,
                atoms,
                ..
            } => add_activate(rows.as_slice(), columns.as_slice(), atoms.as_slice(), out),
            Step::Move { rows, columns, .. } => add_move(rows.as_slice(), columns.as_slice(), out),
            Step::Deactivate {
                rows,
                columns,
                atoms,
                ..
            } => add_deactivate(rows.as_slice(), columns.as_slice(), atoms.as_slice(), out),
            Step::One { .. } | Step::Pulse { .. } | Step::Readout { .. } => add_null(out),
        }
    }
}

// Adds the times of an instruction as the first members of its object, a head, a list and a tail.
fn add_timed<T: AddJson>(
    times: (u64, u64),
    head: &[u8],
    items: &[T],
    tail: &[u8],
    out: &mut Vec<u8>,
) -> Result<(), Memory>
    ensures { OnOk result (IsTimedAdded times.0 times.1 head.now (array_of (map T.value_of items.now)) tail.now out.old.items out.new.items) }
{
    add_number(b"{\"begin\":", times.0, out)?;
    add_number(b",\"end\":", times.1, out)?;
    add_list(head, items, out)?;
    out.extend_from_slice(tail)?;
    Ok(())
}

fn add_job(times: (u64, u64), aod: u8, steps: &[Step], out: &mut Vec<u8>) -> Result<(), Memory>
    ensures { OnOk result (IsAdded [] (act_value times.0 times.1 (Job aod steps.now)) out.old.items out.new.items) }
{
    add_number(b"{\"aod\":", u64::from(aod), out)?;
    add_number(b",\"begin\":", times.0, out)?;
    add_number(b",\"end\":", times.1, out)?;
    add_list(b",\"steps\":", steps, out)?;
    out.extend_from_slice(b",\"type\":\"rearrangeJob\"}")?;
    Ok(())
}

fn add_init(times: (u64, u64), homes: &[TrapId], out: &mut Vec<u8>) -> Result<(), Memory>
    ensures { OnOk result (IsAdded [] (timed_value times.0 times.1 (codes "homes") (map trap_value homes.now) (codes "init")) out.old.items out.new.items) }
{
    add_timed(times, b",\"homes\":", homes, b",\"type\":\"init\"}", out)
}

fn add_gates(times: (u64, u64), ones: &[OneGate], out: &mut Vec<u8>) -> Result<(), Memory>
    ensures { OnOk result (IsAdded [] (timed_value times.0 times.1 (codes "gates") (map gate_value ones.now) (codes "1qGate")) out.old.items out.new.items) }
{
    add_timed(times, b",\"gates\":", ones, b",\"type\":\"1qGate\"}", out)
}

fn add_pulse(times: (u64, u64), pairs: &[PairOf], out: &mut Vec<u8>) -> Result<(), Memory>
    ensures { OnOk result (IsAdded [] (timed_value times.0 times.1 (codes "pairs") (map pair_value pairs.now) (codes "rydberg")) out.old.items out.new.items) }
{
    add_timed(times, b",\"pairs\":", pairs, b",\"type\":\"rydberg\"}", out)
}

fn add_readout(times: (u64, u64), reads: &[ReadOf], out: &mut Vec<u8>) -> Result<(), Memory>
    ensures { OnOk result (IsAdded [] (timed_value times.0 times.1 (codes "reads") (map read_value reads.now) (codes "readout")) out.old.items out.new.items) }
{
    add_timed(times, b",\"reads\":", reads, b",\"type\":\"readout\"}", out)
}

impl AddJson for Instr {
    ghost value_of = { instr_value };

    fn add_to(&self, out: &mut Vec<u8>) -> Result<(), Memory> {
        let times = (self.begin, self.end);
        match &self.act {
            Act::Init { homes } => add_init(times, homes.as_slice(), out),
            Act::Gates { ones } => add_gates(times, ones.as_slice(), out),
            Act::Rydberg { pairs } => add_pulse(times, pairs.as_slice(), out),
            Act::Job { aod, steps } => add_job(times, *aod, steps.as_slice(), out),
            Act::Readout { reads } => add_readout(times, reads.as_slice(), out),
        }
    }
}

// The value of the first line.
pub(crate) fn header_json(alloc: Global) -> Result<Value, AllocError>
    ensures { IfOk result (λ v. view v ≡ header_value) }
{
    json!(in alloc; {"type": "zair", "version": 1u8})
}

// The value of the last line.
pub(crate) fn end_json(alloc: Global, totals: &Totals) -> Result<Value, AllocError>
    ensures { IfOk result (λ v. view v ≡ end_value totals.now) }
{
    json!(in alloc; {
        "gates": totals.gates,
        "jobs": totals.jobs,
        "kept": totals.kept,
        "moved": totals.moved,
        "pairs": totals.pairs,
        "pulses": totals.pulses,
        "qubits": totals.qubits,
        "reads": totals.reads,
        "time": totals.time,
        "type": "end"
    })
}
