//! How the atoms of a pulse leave the sites.

ghost use Rattle.std.specs.BTreeSet.{contains};
ghost use Rattle.std.specs.Ordering.{nat_cmp};
ghost use Rattle.std.specs.Prelude.{◌≡◌, ℕ, ◌+◌, ◌*◌, ◌^◌, ◌<◌, ◌≤◌, ◌==◌, not, ◌&&◌, ◌||◌, [], ◌∷◌, ◌++◌, All, IfOk, OnOk, filter, length, vec_len};
ghost use Rattle.zac_plan.specs.Growth.{GrowsByReturns};
ghost use Rattle.zac_plan.specs.Plan.{is_on, leaving, stays};
ghost use Rattle.zac_plan.specs.Seats.{CanReturn, rests_in};

use crate::agenda::Agenda;
use crate::shifts::{put_all, shifts_to};
use std::alloc::Global;
use std::collections::BTreeSet;
use zac_arch::Card;
use zac_gates::{List, Memory, Op};
use zac_place::return_targets;
use zac_world::World;
use zair_form::PairOf;

/// Whether the op of this number is a pair on the qubit.
fn is_on(ops: &[Op], number: u32, q: u32) -> bool
    requires { number < length ops.now }
    ensures { result ≡ is_on ops.now q number }
{
    match &ops[number as usize] {
        Op::Two { a, b } => *a == q || *b == q,
        _ => false,
    }
}

/// Adds a qubit if the op of this number is a pair on it.
fn add_if_on(staying: &mut BTreeSet<u32>, ops: &[Op], number: u32, q: u32) -> Result<(), Memory>
    requires { number < length ops.now }
    ensures { OnOk result ((r : ℕ) → contains nat_cmp staying.new r
        ≡ ((q == r && is_on ops.now r number) || contains nat_cmp staying.old r)) }
{
    if is_on(ops, number, q) {
        staying.insert(q)?;
    }
    Ok(())
}

/// Adds the qubits that both ops of a kept pair are on.
fn add_shared(
    staying: &mut BTreeSet<u32>,
    ops: &[Op],
    first: u32,
    second: u32,
) -> Result<(), Memory>
    requires first_in { first < length ops.now }
    requires second_in { second < length ops.now }
    ensures { OnOk result ((q : ℕ) → contains nat_cmp staying.new q
        ≡ ((is_on ops.now q first && is_on ops.now q second) || contains nat_cmp staying.old q)) }
{
    if let Op::Two { a, b } = &ops[first as usize] {
        add_if_on(staying, ops, second, *a)?;
        add_if_on(staying, ops, second, *b)?;
    }
    Ok(())
}

/// The qubits that stay where they rest. The two ops of each kept pair exist.
fn staying(alloc: Global, ops: &[Op], kept: &[(u32, u32)]) -> Result<BTreeSet<u32>, Memory>
    requires kept_in { All (λ k. (k.0 < length ops.now) × (k.1 < length ops.now)) kept.now }
    ensures { IfOk result (λ staying. (q : ℕ) → contains nat_cmp staying q ≡ stays ops.now kept.now q) }
{
    let mut staying = BTreeSet::new(alloc);
    for (first, second) in kept {
        add_shared(&mut staying, ops, *first, *second)?;
    }
    Ok(staying)
}

/// Adds a qubit unless it stays.
fn add_unless(staying: &BTreeSet<u32>, q: u32, qubits: &mut Vec<u32>) -> Result<(), Memory>
    ensures added { OnOk result (qubits.new.items
        ≡ qubits.old.items ++ filter (λ r. not (contains nat_cmp staying.now r)) (q ∷ [])) }
    ensures most { OnOk result (vec_len qubits.new ≤ vec_len qubits.old + 1) }
{
    if !staying.contains(&q) {
        qubits.push(q)?;
    }
    Ok(())
}

/// The qubits of the pulse before that don't stay. The two ops of each kept pair exist. The time grows with the pairs of
/// both lists, times the logarithm of the kept ones.
fn leaving(
    alloc: Global,
    ops: &[Op],
    before: &[PairOf],
    kept: &[(u32, u32)],
) -> Result<Vec<u32>, Memory>
    requires kept_in { All (λ k. (k.0 < length ops.now) × (k.1 < length ops.now)) kept.now }
    ensures leaving { IfOk result (λ qubits. qubits.items ≡ leaving ops.now before.now kept.now) }
    ensures most { IfOk result (λ qubits. vec_len qubits ≤ 2 * length before.now) }
{
    let staying = staying(alloc, ops, kept)?;
    let mut qubits = Vec::new(alloc);
    for pair in before {
        add_unless(&staying, pair.a, &mut qubits)?;
        add_unless(&staying, pair.b, &mut qubits)?;
    }
    Ok(qubits)
}

impl<'a> Agenda<'a> {
    /// Adds the jobs that bring home what leaves the sites, and makes their moves in the world.
    pub fn add_returns(
        &mut self,
        alloc: Global,
        card: &'a Card,
        world: &mut World<'_>,
        ops: &[Op],
        before: &[PairOf],
        kept: &[(u32, u32)],
    ) -> Result<(), Memory>
        requires its_card { world.old.architecture ≡ card.now }
        requires kept_in { All (λ k. (k.0 < length ops.now) × (k.1 < length ops.now)) kept.now }
        requires can_return { CanReturn card.now ops.now (rests_in world.old) before.now kept.now }
        ensures ok { OnOk result (GrowsByReturns card.now ops.now before.now kept.now self.old self.new world.old world.new) }
    {
        let leaving = leaving(alloc, ops, before, kept)?;
        let targets = return_targets(alloc, card, world, &leaving)?;
        let shifts = shifts_to(alloc, world, &leaving, targets.as_slice())?;
        put_all(world, &shifts);
        self.add_jobs(alloc, card, List::of(shifts))
    }
}
