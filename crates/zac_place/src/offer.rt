//! The storage traps that are weighed for leaving atoms.

ghost use Rattle.std.specs.Prelude.{◌≡◌, ◌+◌, ◌<◌, ◌≤◌, ◌++◌, ℕ, IfOk, OnOk, length, map};
ghost use Rattle.std.specs.List.{All, AllPairs, Contains};
ghost use Rattle.zac_place.specs.Offers.{AreOffered};
ghost use Rattle.zac_place.specs.Returns.{IsEntangling};
ghost use Rattle.zac_world.specs.Places.{empty_storage};

use std::alloc::Global;
use zac_arch::{Card, TrapId};
use zac_memory::Memory;
use zac_world::World;

/// Adds the numbers of traps.
fn add_numbers(numbers: &mut Vec<u32>, traps: &[TrapId]) -> Result<(), Memory>
    ensures { OnOk result (numbers.new.items ≡ numbers.old.items ++ map (λ t. t.0) traps.now) }
{
    for trap in traps {
        numbers.push(trap.0)?;
    }
    Ok(())
}

/// For each leaving qubit its nearest empty storage traps, one more than there are leaving qubits.
fn nearest_of_each(
    alloc: Global,
    card: &Card,
    world: &World<'_>,
    leaving: &[u32],
) -> Result<Vec<u32>, Memory>
    requires card { world.now.architecture ≡ card.now }
    requires leaving { All (IsEntangling world.now) leaving.now }
    requires few { length leaving.now ≤ length (empty_storage world.now) }
    ensures { IfOk result (λ offered. AreOffered world.now leaving.now offered.items) }
{
    let _rules = card.figures();
    let count = leaving.len() as u32 + 1;
    let mut offered = Vec::new(alloc);
    for q in leaving {
        let nearest = world.nearest(alloc, card, world.trap_of(*q), count)?;
        add_numbers(&mut offered, nearest.as_slice())?;
    }
    Ok(offered)
}

/// Puts numbers in order, each once.
fn put_in_order(numbers: &mut Vec<u32>)
    ensures rising { AllPairs (λ m n. m < n) numbers.new.items }
    ensures kept { (n : ℕ) → Contains numbers.old.items n → Contains numbers.new.items n }
    ensures no_other { (n : ℕ) → Contains numbers.new.items n → Contains numbers.old.items n }
{
    numbers.sort_unstable();
    numbers.dedup();
}

/// The empty storage traps that are among the nearest of some leaving qubit, by rising number. Of each qubit one more
/// trap is weighed than there are leaving qubits.
pub(crate) fn offered_traps(
    alloc: Global,
    card: &Card,
    world: &World<'_>,
    leaving: &[u32],
) -> Result<Vec<u32>, Memory>
    requires card { world.now.architecture ≡ card.now }
    requires leaving { All (IsEntangling world.now) leaving.now }
    requires few { length leaving.now ≤ length (empty_storage world.now) }
    ensures rising { IfOk result (λ offered. AllPairs (λ s t. s < t) offered.items) }
    ensures offered { IfOk result (λ offered. AreOffered world.now leaving.now offered.items) }
{
    let mut offered = nearest_of_each(alloc, card, world, leaving)?;
    put_in_order(&mut offered);
    Ok(offered)
}
