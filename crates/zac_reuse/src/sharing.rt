//! The places of the gates of two pulses that share a qubit.

ghost use Rattle.std.specs.Prelude.{◌≡◌, ◌≢◌, ℕ, [], ◌∷◌, ◌++◌, Some, nat_eq, length, map, IsTrue, IfOk, OnOk, MatchOption, slice_index};
ghost use Rattle.std.specs.List.{All, slice_get};
ghost use Rattle.std.specs.HashMap.{get};
ghost use Rattle.zac_stage.specs.Numbers.{is_pair};
ghost use Rattle.zac_match.specs.Choice.{EndsBelow};
ghost use Rattle.zac_reuse.specs.Sharing.{IsPulse, ArePlaces, AreShared, in_numbers};

use std::alloc::{AllocError, Global};
use std::collections::HashMap;
use zac_gates::{List, Op};
use zac_match::Edges;

/// The qubits of a pair.
fn pair_at(ops: &[Op], number: u32) -> (u32, u32)
    requires { IsTrue (is_pair (slice_get ops.now number)) }
    ensures { slice_get ops.now number ≡ Some (Op.Two result.0 result.1) }
{
    match &ops[number as usize] {
        Op::Two { a, b } => (*a, *b),
        _ => unreachable!(),
    }
}

/// Notes the place of a pair for both of its qubits.
fn note(places: &mut HashMap<u32, u32>, pair: (u32, u32), place: u32) -> Result<(), AllocError>
    ensures first { OnOk result (get nat_eq places.new pair.0 ≡ Some place) }
    ensures second { OnOk result (get nat_eq places.new pair.1 ≡ Some place) }
    ensures others { OnOk result ((q : ℕ) → q ≢ pair.0 → q ≢ pair.1 →
        get nat_eq places.new q ≡ get nat_eq places.old q) }
{
    places.insert(pair.0, place)?;
    places.insert(pair.1, place)?;
    Ok(())
}

/// For each qubit of a pulse the place of its gate.
fn places(alloc: Global, ops: &[Op], pulse: &[u32]) -> Result<HashMap<u32, u32>, AllocError>
    requires { IsPulse ops.now pulse.now }
    ensures { IfOk result (λ found. ArePlaces ops.now pulse.now (get nat_eq found) (length pulse.now)) }
{
    let mut found = HashMap::new(alloc);
    for (place, number) in pulse.iter().enumerate() {
        note(&mut found, pair_at(ops, *number), place as u32)?;
    }
    Ok(found)
}

/// Adds the edge to a place from the place that was found for a qubit, if there is one.
fn link(
    found: &HashMap<u32, u32>,
    qubit: u32,
    place: u32,
    pairs: &mut Vec<(u32, u32)>,
) -> Result<(), AllocError>
    ensures { OnOk result (MatchOption (get nat_eq found.now qubit) (pairs.new.items ≡ pairs.old.items)
        (λ i. pairs.new.items ≡ pairs.old.items ++ (i, place) ∷ [])) }
{
    if let Some(from) = found.get(&qubit) {
        pairs.push((*from, place))?;
    }
    Ok(())
}

/// The places of the gates of two pulses that share a qubit, as edges. Of a pulse no two gates share one, so a place
/// comes in two edges at most.
pub fn edges_between(
    alloc: Global,
    ops: &[Op],
    first: &[u32],
    second: &[u32],
) -> Result<Edges, AllocError>
    requires first { IsPulse ops.now first.now }
    requires second { IsPulse ops.now second.now }
    ensures left { IfOk result (λ edges. edges.left ≡ length first.now) }
    ensures right { IfOk result (λ edges. edges.right ≡ length second.now) }
    ensures shared { IfOk result (λ edges. AreShared ops.now first.now second.now edges.pairs (length second.now)) }
{
    let found = places(alloc, ops, first)?;
    let mut pairs = Vec::new(alloc);
    for (place, number) in second.iter().enumerate() {
        let (a, b) = pair_at(ops, *number);
        link(&found, a, place as u32, &mut pairs)?;
        link(&found, b, place as u32, &mut pairs)?;
    }
    Ok(Edges {
        left: first.len() as u32,
        right: second.len() as u32,
        pairs: List::of(pairs),
    })
}

/// Pairs of places as pairs of op numbers.
pub fn numbers_of(
    alloc: Global,
    first: &[u32],
    second: &[u32],
    pairs: &[(u32, u32)],
) -> Result<Vec<(u32, u32)>, AllocError>
    requires { EndsBelow (length first.now) (length second.now) pairs.now }
    ensures { IfOk result (λ numbers. numbers.items ≡ in_numbers first.now second.now pairs.now) }
{
    let mut numbers = Vec::with_capacity(alloc, pairs.len())?;
    for pair in pairs {
        numbers.push((first[pair.0 as usize], second[pair.1 as usize]))?;
    }
    Ok(numbers)
}
