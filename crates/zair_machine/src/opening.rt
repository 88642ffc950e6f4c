//! The machine at the begin.

ghost use Rattle.std.specs.Prelude.{◌≡◌, ℕ, ◌*◌, IfOk, MatchResult, Some, length, map, replicate, slice_get};
ghost use Rattle.zac_arch.specs.Architecture.{trap_count};
ghost use Rattle.zac_arch.specs.declared.place.TrapId.{TrapId};
ghost use Rattle.zair_state.specs.Least.{IsLeastOf};
ghost use Rattle.zair_machine.specs.Machine.{IsWrongHome, TellsHome};
ghost use Rattle.zair_state.specs.State.{idle, opening};
ghost use Rattle.zair_state.specs.declared.place.Place.TheVariants.{Trap};

use crate::aod::Aod;
use crate::machine::Machine;
use std::alloc::Global;
use zac_arch::{Card, TrapId};
use zac_gates::Memory;
use zair_state::{NewFault, Place};

/// The least qubit whose home is no storage trap, or that of a qubit of smaller number.
fn first_wrong_home(alloc: Global, card: &Card, homes: &[TrapId]) -> Result<Option<u32>, Memory>
    ensures { IfOk result (IsLeastOf (IsWrongHome card.now homes.now)) }
{
    let _rules = card.figures();
    let mut taken = vec![in alloc; false; card.storage_traps() as usize]?;
    for (q, home) in homes.iter().enumerate() {
        let trap = home.0 as usize;
        if trap >= taken.len() || taken[trap] {
            return Ok(Some(q as u32));
        }
        taken[trap] = true;
    }
    Ok(None)
}

/// Each qubit at rest in its home.
fn at_rest(alloc: Global, homes: &[TrapId]) -> Result<Vec<Place>, Memory>
    ensures { IfOk result (λ places. places.items ≡ map (λ home. Trap home) homes.now) }
{
    let mut places = Vec::with_capacity(alloc, homes.len())?;
    for home in homes {
        places.push(Place::Trap(*home))?;
    }
    Ok(places)
}

/// So many AODs without a beam.
fn idle_aods(alloc: Global, count: u8) -> Result<Vec<Aod>, Memory>
    ensures { IfOk result (λ aods. aods.items ≡ replicate count idle) }
{
    let mut aods = Vec::with_capacity(alloc, count as usize)?;
    for _ in 0..count {
        aods.push(Aod::idle())?;
    }
    Ok(aods)
}

/// For each trap of a card the qubit whose home it is, if there is one.
fn index_of(alloc: Global, card: &Card, homes: &[TrapId]) -> Result<Vec<u32>, Memory>
    requires { (q : ℕ) → ¬ IsWrongHome card.now homes.now q }
    ensures len { IfOk result (λ index. length index.items ≡ trap_count card.now) }
    ensures told { IfOk result (λ index. (q : ℕ) (home : TrapId) → slice_get homes.now q ≡ Some home → slice_get index.items home.0 ≡ Some q) }
{
    let _rules = card.figures();
    let mut index = vec![in alloc; 0; card.traps() as usize]?;
    for (q, home) in homes.iter().enumerate() {
        index[home.0 as usize] = q as u32;
    }
    Ok(index)
}

/// A number for each crossing that so many AODs can have.
fn empty_crossings(alloc: Global, count: u8) -> Result<Vec<u32>, Memory>
    ensures { IfOk result (λ index. length index.items ≡ count * 65536) }
{
    Ok(vec![in alloc; 0; count as usize * 65536]?)
}

impl<'a> Machine<'a> {
    /// The machine of a card at the begin: each qubit rests in its home, the trap at the place of its number in
    /// `homes`, and no AOD has a beam. It borrows the card.
    ///
    /// `NewFault::Home` tells the least qubit whose home isn't a storage trap of the card, or is the home of a qubit
    /// of smaller number; `NewFault::Memory` that there was no memory.
    pub fn new(alloc: Global, card: &'a Card, homes: &[TrapId]) -> Result<Machine<'a>, NewFault>
        ensures { MatchResult result
            (λ m. (m ≡ record { card = card.now; state = opening card.now homes.now })
            × ((q : ℕ) → ¬ IsWrongHome card.now homes.now q))
            (TellsHome card.now homes.now) }
    {
        if let Some(q) = first_wrong_home(alloc, card, homes)? {
            return Err(NewFault::Home { q });
        }
        let in_traps = index_of(alloc, card, homes)?;
        let places = at_rest(alloc, homes)?;
        let count = card.figures().aods;
        let aods = idle_aods(alloc, count)?;
        let at_crossings = empty_crossings(alloc, count)?;
        Ok(Machine {
            card,
            places,
            aods,
            in_traps,
            at_crossings,
        })
    }
}
