//! What is counted in a program.

ghost use Rattle.std.specs.Prelude.{◌≡◌, ℕ, ◌&&◌, ◌||◌, ◌==◌, ◌+◌, not, max, length, IfOk, OnOk, if◌then◌else◌};
ghost use Rattle.std.specs.List.{count_by, list_any};
ghost use Rattle.std.specs.Ordering.{nat_cmp};
ghost use Rattle.std.specs.BTreeSet.{contains};
ghost use Rattle.zair_text.specs.Tally.{told, ones_of, pairs_of, reads_of, job_steps, is_pulse, is_job, dropped_in, moved_by, is_paired, is_dropped, lets_stay, totals_of};

use std::alloc::Global;
use std::collections::BTreeSet;
use zac_gates::Memory;
use zair_form::{Act, Dropped, Instr, OneGate, PairOf, Program, ReadOf, Step};

/// The tally of a program. A count past 2^32 - 1 stands as 2^32 - 1.
#[derive(Clone, Copy, Debug, PartialEq, Eq)]
pub struct Totals {
    /// One-qubit gates.
    pub gates: u32,
    /// Rearrangement jobs.
    pub jobs: u32,
    /// Pairs, of all pulses but the first, of which a qubit was in a pair of the pulse before and stayed at its site: no
    /// deactivate between the two pulses lists it.
    pub kept: u32,
    /// Atoms that deactivates list.
    pub moved: u32,
    /// Pairs.
    pub pairs: u32,
    /// Pulses.
    pub pulses: u32,
    /// Qubits.
    pub qubits: u32,
    /// Reads.
    pub reads: u32,
    /// The greatest end of an instruction, in nanoseconds.
    pub time: u64,
}

fn ones_of(act: &Act) -> &[OneGate]
    ensures { result.now ≡ ones_of act.now }
{
    match act {
        Act::Gates { ones } => ones.as_slice(),
        Act::Init { .. } | Act::Rydberg { .. } | Act::Job { .. } | Act::Readout { .. } => &[],
    }
}

fn pairs_of(act: &Act) -> &[PairOf]
    ensures { result.now ≡ pairs_of act.now }
{
    match act {
        Act::Rydberg { pairs } => pairs.as_slice(),
        Act::Init { .. } | Act::Gates { .. } | Act::Job { .. } | Act::Readout { .. } => &[],
    }
}

fn reads_of(act: &Act) -> &[ReadOf]
    ensures { result.now ≡ reads_of act.now }
{
    match act {
        Act::Readout { reads } => reads.as_slice(),
        Act::Init { .. } | Act::Gates { .. } | Act::Rydberg { .. } | Act::Job { .. } => &[],
    }
}

fn job_steps(act: &Act) -> &[Step]
    ensures { result.now ≡ job_steps act.now }
{
    match act {
        Act::Job { steps, .. } => steps.as_slice(),
        Act::Init { .. } | Act::Gates { .. } | Act::Rydberg { .. } | Act::Readout { .. } => &[],
    }
}

fn dropped_in(step: &Step) -> &[Dropped]
    ensures { result.now ≡ dropped_in step.now }
{
    match step {
        Step::Deactivate { atoms, .. } => atoms.as_slice(),
        Step::Activate { .. } | Step::Move { .. } => &[],
        Step::One { .. } | Step::Pulse { .. } | Step::Readout { .. } => &[],
    }
}

fn is_pulse(act: &Act) -> bool
    ensures { result ≡ is_pulse act.now }
{
    matches!(act, Act::Rydberg { .. })
}

fn is_job(act: &Act) -> bool
    ensures { result ≡ is_job act.now }
{
    matches!(act, Act::Job { .. })
}

// A count and so many more.
fn more(count: u32, others: usize) -> u32
    ensures { result ≡ told (count + others) }
{
    match u32::try_from(others) {
        Ok(others) => count.saturating_add(others),
        Err(_) => u32::MAX,
    }
}

// A count, and one more if the test passes.
fn one_more_if(count: u32, test: bool) -> u32
    ensures { result ≡ told (count + (if test then 1 else 0)) }
{
    if test { count.saturating_add(1) } else { count }
}

fn moved_by(steps: &[Step]) -> u32
    ensures { result ≡ told (moved_by steps.now) }
{
    let mut count = 0;
    for step in steps {
        count = more(count, dropped_in(step).len());
    }
    count
}

// The pair has a qubit of the set.
fn is_kept(held: &BTreeSet<u32>, pair: &PairOf) -> bool
    ensures { result ≡ (contains nat_cmp held.now pair.now.a || contains nat_cmp held.now pair.now.b) }
{
    held.contains(&pair.a) || held.contains(&pair.b)
}

// How many of the pairs have a qubit of the set.
fn pairs_with(held: &BTreeSet<u32>, pairs: &[PairOf]) -> u32
    ensures { result ≡ told (count_by (λ p. contains nat_cmp held.now p.a || contains nat_cmp held.now p.b) pairs.now) }
{
    let mut count = 0;
    for pair in pairs {
        count = one_more_if(count, is_kept(held, pair));
    }
    count
}

// Makes the set that of the qubits of these pairs.
fn hold(held: &mut BTreeSet<u32>, pairs: &[PairOf]) -> Result<(), Memory>
    ensures { OnOk result ((q : ℕ) → contains nat_cmp held.new q ≡ is_paired q pairs.now) }
{
    held.clear();
    for pair in pairs {
        held.insert(pair.a)?;
        held.insert(pair.b)?;
    }
    Ok(())
}

// Takes the qubit from the set.
fn release(held: &mut BTreeSet<u32>, qubit: u32)
    ensures { (q : ℕ) → contains nat_cmp held.new q ≡ (contains nat_cmp held.old q && not (qubit == q)) }
{
    held.remove(&qubit);
}

// Takes the qubits of these atoms from the set.
fn let_go(held: &mut BTreeSet<u32>, atoms: &[Dropped])
    ensures { (q : ℕ) → contains nat_cmp held.new q ≡ (contains nat_cmp held.old q && not (list_any (λ d. d.q == q) atoms.now)) }
{
    for atom in atoms {
        release(held, atom.q);
    }
}

// Takes the qubits from the set that the steps drop.
fn let_go_all(held: &mut BTreeSet<u32>, steps: &[Step])
    ensures { (q : ℕ) → contains nat_cmp held.new q ≡ (contains nat_cmp held.old q && not (is_dropped q steps.now)) }
{
    for step in steps {
        let_go(held, dropped_in(step));
    }
}

// Brings the set of the held qubits behind an act.
fn pass(held: &mut BTreeSet<u32>, act: &Act) -> Result<(), Memory>
    ensures { OnOk result ((q : ℕ) → contains nat_cmp held.new q
        ≡ (is_paired q (pairs_of act.now) || (contains nat_cmp held.old q && lets_stay q act.now))) }
{
    match act {
        Act::Rydberg { pairs } => hold(held, pairs.as_slice()),
        Act::Job { steps, .. } => {
            let_go_all(held, steps.as_slice());
            Ok(())
        }
        Act::Init { .. } | Act::Gates { .. } | Act::Readout { .. } => Ok(()),
    }
}

impl Totals {
    // The totals of one instruction more, of whose pairs so many are kept.
    fn and(self, instr: &Instr, kept: u32) -> Totals
        ensures gates { result.gates ≡ told (self.gates + length (ones_of instr.now.act)) }
        ensures jobs { result.jobs ≡ told (self.jobs + (if is_job instr.now.act then 1 else 0)) }
        ensures kept { result.kept ≡ told (self.kept + kept) }
        ensures moved { result.moved ≡ told (self.moved + moved_by (job_steps instr.now.act)) }
        ensures pairs { result.pairs ≡ told (self.pairs + length (pairs_of instr.now.act)) }
        ensures pulses { result.pulses ≡ told (self.pulses + (if is_pulse instr.now.act then 1 else 0)) }
        ensures qubits { result.qubits ≡ self.qubits }
        ensures reads { result.reads ≡ told (self.reads + length (reads_of instr.now.act)) }
        ensures time { result.time ≡ max self.time instr.now.end }
    {
        let act = &instr.act;
        Totals {
            gates: more(self.gates, ones_of(act).len()),
            jobs: one_more_if(self.jobs, is_job(act)),
            kept: self.kept.saturating_add(kept),
            moved: self.moved.saturating_add(moved_by(job_steps(act))),
            pairs: more(self.pairs, pairs_of(act).len()),
            pulses: one_more_if(self.pulses, is_pulse(act)),
            qubits: self.qubits,
            reads: more(self.reads, reads_of(act).len()),
            time: self.time.max(instr.end),
        }
    }
}

/// The tally of a program, counted in one pass.
pub fn tally(alloc: Global, program: &Program) -> Result<Totals, Memory>
    ensures { IfOk result (λ totals. totals ≡ totals_of program.now) }
{
    let mut totals = Totals {
        gates: 0,
        jobs: 0,
        kept: 0,
        moved: 0,
        pairs: 0,
        pulses: 0,
        qubits: more(0, program.homes().len()),
        reads: 0,
        time: 0,
    };
    let mut held = BTreeSet::new(alloc);
    for instr in program.instrs() {
        let kept = pairs_with(&held, pairs_of(&instr.act));
        totals = totals.and(instr, kept);
        pass(&mut held, &instr.act)?;
    }
    Ok(totals)
}
