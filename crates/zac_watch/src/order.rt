//! The named order of a program's steps.

ghost use Rattle.std.specs.Prelude.{◌≡◌, IfOk, map};
ghost use Rattle.zac_watch.specs.Named.{AreInNamedOrder};

use crate::slot::{Slot, put_in_order, slots_of};
use std::alloc::{AllocError, Global};
use zac_arch::Card;
use zac_gates::List;
use zac_memory::Memory;
use zair_form::Program;

/// Where the steps of these slots stand.
fn places_of(alloc: Global, slots: &[Slot]) -> Result<Vec<(u64, u64)>, AllocError>
    ensures { IfOk result (λ places. places.items ≡ map (λ s. (s.instr, s.place)) slots.now) }
{
    slots
        .iter()
        .map(|slot| (slot.instr, slot.place))
        .collect(alloc)
}

/// The steps of a program in the named order, each as the number of its instruction and its place there, both counted
/// from 0: by begin, then by instruction, then by place.
///
/// A step begins when its instruction does, and as much later as the earlier steps of the instruction take; what the
/// instruction says of its end doesn't count. The only error is that memory ran out. The work is in the size of the
/// steps and in a sort of their begins.
pub fn named_order(
    alloc: Global,
    card: &Card,
    program: &Program,
) -> Result<List<(u64, u64)>, Memory>
    ensures { IfOk result (λ places. AreInNamedOrder card.now.figures program.now places) }
{
    let mut slots = slots_of(alloc, card, program)?;
    put_in_order(&mut slots);
    Ok(List::of(places_of(alloc, slots.as_slice())?))
}
