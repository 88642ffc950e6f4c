//! When resources are free.

ghost use Rattle.std.specs.Prelude.{◌≡◌, ◌+◌, ◌*◌, ◌<◌, ◌≤◌, All, IfOk, IsTrue, fold, length, map, max, nat_le, slice_index, slice_set, if◌then◌else◌};
ghost use Rattle.std.specs.List.{list_any};
ghost use Rattle.zac_sched.specs.Ends.{IsFirstLeast};

use std::alloc::Global;
use zac_arch::{Card, TrapId};
use zac_gates::Memory;
use zac_group::Shift;
use zair_form::{OneGate, PairOf, ReadOf};

/// The last end of each resource, over the instructions so far.
///
/// A pulse uses all traps of the entangling zones. So that it costs no work for each of them, its end is kept once, and the
/// end of a trap speaks of jobs alone.
#[derive(Drop)]
pub(crate) struct Ends {
    /// Of the laser.
    pub(crate) laser: u64,
    /// Of each AOD.
    pub(crate) aods: Vec<u64>,
    /// Of each qubit.
    pub(crate) qubits: Vec<u64>,
    /// For each trap, the last end of a job that uses it.
    pub(crate) traps: Vec<u64>,
    /// The last end of a job that uses some trap of the entangling zones.
    pub(crate) zones: u64,
    /// The end of the last pulse.
    pub(crate) pulse: u64,
}

/// The number of the AOD whose last end is least, of several the least number.
pub(crate) fn free_first(aods: &[u64]) -> u8
    requires some { 1 ≤ length aods.now }
    requires few { length aods.now ≤ 255 }
    ensures { IsFirstLeast aods.now result }
{
    let mut first = 0;
    for n in 1..aods.len() {
        if aods[n] < aods[first] {
            first = n;
        }
    }
    first as u8
}

/// The greatest of this moment and the last ends of the qubits of these gates.
pub(crate) fn after_gates(from: u64, qubits: &[u64], ones: &[OneGate]) -> u64
    requires { All (λ gate. gate.q < length qubits.now) ones.now }
    ensures { result ≡ fold max from (map (λ gate. slice_index qubits.now gate.q) ones.now) }
{
    ones.iter()
        .map(|gate| qubits[gate.q as usize])
        .fold(from, |latest, end| latest.max(end))
}

/// The greatest of this moment and the last ends of the qubits of these pairs.
pub(crate) fn after_pairs(from: u64, qubits: &[u64], pairs: &[PairOf]) -> u64
    requires { All (λ pair. (pair.a < length qubits.now) × (pair.b < length qubits.now)) pairs.now }
    ensures { result ≡ fold max from (map (λ pair. max (slice_index qubits.now pair.a) (slice_index qubits.now pair.b)) pairs.now) }
{
    pairs
        .iter()
        .map(|pair| qubits[pair.a as usize].max(qubits[pair.b as usize]))
        .fold(from, |latest, end| latest.max(end))
}

/// The greatest of this moment and the last ends of the qubits of these reads.
pub(crate) fn after_reads(from: u64, qubits: &[u64], reads: &[ReadOf]) -> u64
    requires { All (λ read. read.q < length qubits.now) reads.now }
    ensures { result ≡ fold max from (map (λ read. slice_index qubits.now read.q) reads.now) }
{
    reads
        .iter()
        .map(|read| qubits[read.q as usize])
        .fold(from, |latest, end| latest.max(end))
}

/// The greatest of this moment and the last ends of the qubits of these moves.
pub(crate) fn after_moves(from: u64, qubits: &[u64], shifts: &[Shift]) -> u64
    requires { All (λ shift. shift.q < length qubits.now) shifts.now }
    ensures { result ≡ fold max from (map (λ shift. slice_index qubits.now shift.q) shifts.now) }
{
    shifts
        .iter()
        .map(|shift| qubits[shift.q as usize])
        .fold(from, |latest, end| latest.max(end))
}

/// The greatest of this moment and the last ends of the jobs that use one of these traps.
pub(crate) fn after_jobs(from: u64, traps: &[u64], grid: &[TrapId]) -> u64
    requires { All (λ trap. trap.0 < length traps.now) grid.now }
    ensures { result ≡ fold max from (map (λ trap. slice_index traps.now trap.0) grid.now) }
{
    grid.iter()
        .map(|trap| traps[trap.0 as usize])
        .fold(from, |latest, end| latest.max(end))
}

/// Whether one of these traps is one of the entangling zones, behind so many storage traps.
pub(crate) fn meets_zones(storage: u32, grid: &[TrapId]) -> bool
    ensures { result ≡ list_any (λ trap. nat_le storage trap.0) grid.now }
{
    grid.iter().any(|trap| storage <= trap.0)
}

/// Notes the last end of the qubits of these gates.
pub(crate) fn mark_gates(qubits: &mut [u64], ones: &[OneGate], end: u64)
    requires { All (λ gate. gate.q < length qubits.old) ones.now }
    ensures { qubits.new ≡ fold (λ ends gate. slice_set ends gate.q end) qubits.old ones.now }
{
    for gate in ones {
        qubits[gate.q as usize] = end;
    }
}

/// Notes the last end of the qubits of these pairs.
pub(crate) fn mark_pairs(qubits: &mut [u64], pairs: &[PairOf], end: u64)
    requires { All (λ pair. (pair.a < length qubits.old) × (pair.b < length qubits.old)) pairs.now }
    ensures { qubits.new ≡ fold (λ ends pair. slice_set (slice_set ends pair.a end) pair.b end) qubits.old pairs.now }
{
    for pair in pairs {
        qubits[pair.a as usize] = end;
        qubits[pair.b as usize] = end;
    }
}

/// Notes the last end of the qubits of these reads.
pub(crate) fn mark_reads(qubits: &mut [u64], reads: &[ReadOf], end: u64)
    requires { All (λ read. read.q < length qubits.old) reads.now }
    ensures { qubits.new ≡ fold (λ ends read. slice_set ends read.q end) qubits.old reads.now }
{
    for read in reads {
        qubits[read.q as usize] = end;
    }
}

/// Notes the last end of the qubits of these moves.
pub(crate) fn mark_moves(qubits: &mut [u64], shifts: &[Shift], end: u64)
    requires { All (λ shift. shift.q < length qubits.old) shifts.now }
    ensures { qubits.new ≡ fold (λ ends shift. slice_set ends shift.q end) qubits.old shifts.now }
{
    for shift in shifts {
        qubits[shift.q as usize] = end;
    }
}

/// Notes the end of the last job that uses these traps.
pub(crate) fn mark_traps(traps: &mut [u64], grid: &[TrapId], end: u64)
    requires { All (λ trap. trap.0 < length traps.old) grid.now }
    ensures { traps.new ≡ fold (λ ends trap. slice_set ends trap.0 end) traps.old grid.now }
{
    for trap in grid {
        traps[trap.0 as usize] = end;
    }
}
