//! Which trap each qubit rests in, looked up from both sides.

ghost use Rattle.std.specs.Prelude.{◌≡◌, ◌≢◌, ℕ, ◌+◌, ◌*◌, ◌<◌, ◌≤◌, Some, None, true, false, IsTrue, IfOk, MatchOption, length, map, slice_set, slice_index, slice_index_or, vec_len};
ghost use Rattle.std.specs.List.{slice_get, All, AllPairs};
ghost use Rattle.zac_arch.specs.Architecture.{trap_count};
ghost use Rattle.zac_pairing.specs.Pairing.{mate};
ghost use Rattle.zac_world.specs.Places.{is_empty, empty_storage, traps_of};
ghost use Rattle.zac_world.specs.Worlds.{cleared};

use crate::block::{Block, blocks_of};
use std::alloc::Global;
use std::marker::Model;
use zac_arch::{Card, TrapId};
use zac_flags::Flags;
use zac_gates::List;
use zac_memory::Memory;
use zac_pairing::Pairing;

/// Each qubit in a trap of its own of one card. Contracts see the card, and the list of the traps' numbers by qubit.
#[derive(Drop)]
pub struct World<'a> {
    card: &'a Card,
    pairing: Pairing,
    /// The storage zones of the card.
    pub(crate) blocks: Vec<Block>,
    /// In which traps of the card an atom rests.
    pub(crate) taken: Flags,
}

impl<'a> Model for World<'a> {
    ghost use Rattle.zac_world.specs.Places.{Places, traps_of};
    ghost use Rattle.zac_world.specs.Worlds.{IsKept};

    ghost Value = { Places };

    ghost view = { λ w. record { architecture = w.card.now; traps = traps_of w.pairing.left.items } };

    ghost invariant = { λ w. IsKept w.card.now w.pairing.left.items w.pairing.right.items w.blocks.items w.taken };
}

/// Clears the flag of a trap, if there is one.
fn clear_flag(taken: &mut Flags, trap: Option<u32>)
    requires { (t : ℕ) → trap ≡ Some t → t < length taken.old }
    ensures { taken.new ≡ cleared taken.old trap }
{
    if let Some(t) = trap {
        taken.clear(t);
    }
}

impl<'a> World<'a> {
    /// Each qubit in its home, a trap of the card of its own. The only error is that memory ran out.
    pub fn new(alloc: Global, card: &'a Card, homes: &[TrapId]) -> Result<World<'a>, Memory>
        requires in_range { All (λ h. h.0 < trap_count card.now) homes.now }
        requires distinct { AllPairs (λ g h. g.0 ≢ h.0) homes.now }
        ensures { IfOk result (λ w. w ≡ record { architecture = card.now; traps = map (λ h. h.0) homes.now }) }
    {
        let blocks = blocks_of(alloc, card)?;
        let traps = card.traps() as usize;
        let mut pairing = Pairing::none(alloc, homes.len(), traps)?;
        let mut taken = Flags::none(alloc, traps)?;
        for (q, home) in homes.iter().enumerate() {
            let _ = pairing.join(q as u32, home.0);
            taken.set(home.0);
        }
        Ok(World {
            card,
            pairing,
            blocks,
            taken,
        })
    }

    /// The trap in which a qubit rests.
    pub fn trap_of(&self, q: u32) -> TrapId
        requires { q < length self.now.traps }
        ensures rests { slice_get self.now.traps q ≡ Some result.0 }
        ensures in_card { result.0 < trap_count self.now.architecture }
    {
        TrapId(self.pairing.left[q as usize].unwrap_or(0))
    }

    /// The qubit that rests in a trap; none exactly where the trap is empty.
    pub fn atom_at(&self, t: TrapId) -> Option<u32>
        requires { t.0 < trap_count self.now.architecture }
        ensures { MatchOption result (IsTrue (is_empty self.now.traps t.0))
            (λ q. slice_get self.now.traps q ≡ Some t.0) }
    {
        self.pairing.right[t.0 as usize]
    }

    /// Puts a qubit into an empty trap. The trap in which it was is empty from then on, and all else stays.
    pub fn put(&mut self, q: u32, t: TrapId)
        requires q_in { q < length self.old.traps }
        requires t_in { t.0 < trap_count self.old.architecture }
        requires empty { IsTrue (is_empty self.old.traps t.0) }
        ensures { self.new ≡ record { architecture = self.old.architecture; traps = slice_set self.old.traps q t.0 } }
    {
        let left = self.pairing.join(q, t.0);
        clear_flag(&mut self.taken, left);
        self.taken.set(t.0);
    }

    /// The storage traps in which no atom rests, by rising number. The only error is that memory ran out.
    pub fn empty_storage(&self, alloc: Global) -> Result<List<TrapId>, Memory>
        ensures { IfOk result (λ l. map (λ t. t.0) l ≡ empty_storage self.now) }
    {
        let mut empty = Vec::new(alloc);
        for t in 0..self.card.storage_traps() {
            if self.pairing.right[t as usize].is_none() {
                empty.push(TrapId(t))?;
            }
        }
        Ok(List::of(empty))
    }
}
