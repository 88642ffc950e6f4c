//! The empty storage traps that are nearest to a trap.

ghost use Rattle.std.specs.Prelude.{◌≡◌, ◌<◌, ◌≤◌, All, IfOk, length, map, min, take};
ghost use Rattle.std.specs.List.{AllPairs};
ghost use Rattle.std.specs.List.Sorted.{IsPermutation};
ghost use Rattle.zac_arch.specs.Architecture.{trap_count};
ghost use Rattle.zac_world.specs.Around.{AreAround, IsBefore, IsBetween};
ghost use Rattle.zac_world.specs.Blocks.{AreBlocks, FitsField};
ghost use Rattle.zac_world.specs.Nearest.{AreNearest};
ghost use Rattle.zac_world.specs.Places.{empty_storage};

use crate::block::Block;
use crate::walk::{Candidate, Disc, empty_within};
use crate::world::World;
use std::alloc::{AllocError, Global};
use zac_arch::{Card, Point, TrapId};
use zac_gates::List;
use zac_memory::Memory;

/// No two points of the field are farther apart, in tenths of a micrometre.
const FIELD: u32 = 2_000_000;

/// Bounds of the distances of the traps of some blocks from a point: the least and the greatest one.
fn distances(blocks: &[Block], from: Point) -> (u32, u32)
    requires field { All FitsField blocks.now }
    requires x_most { from.x ≤ 1000000 }
    requires y_most { from.y ≤ 1000000 }
    ensures between { All (IsBetween from result.0 result.1) blocks.now }
    ensures least_most { result.0 ≤ FIELD }
    ensures greatest_most { result.1 ≤ FIELD }
{
    let mut least = FIELD;
    let mut greatest: u32 = 0;
    for block in blocks {
        least = least.min(block.least_distance(from));
        greatest = greatest.max(block.greatest_distance(from));
    }
    (least, greatest)
}

/// The empty storage traps within some reach of a point, which are `count` of them at least, or all.
///
/// The reach begins at the nearest trap, and what it has beyond that is doubled until there are enough empty traps.
/// So the work is in the traps that are walked over until then.
fn around(
    alloc: Global,
    world: &World,
    blocks: &[Block],
    centre: Point,
    count: usize,
) -> Result<Vec<Candidate>, Memory>
    requires blocks { AreBlocks world.now.architecture blocks.now }
    requires x_most { centre.x ≤ 1000000 }
    requires y_most { centre.y ≤ 1000000 }
    ensures { IfOk result (λ found. AreAround world.now centre count found.items) }
{
    let (least, greatest) = distances(blocks, centre);
    let mut width = 1;
    loop {
        let reach = least + width;
        let found = empty_within(alloc, world, blocks, Disc { centre, reach })?;
        if found.len() >= count || reach >= greatest {
            return Ok(found);
        }
        width *= 2;
    }
}

/// Puts candidates in the order of their distances, and those as far in the order of their numbers.
fn put_by_distance(found: &mut Vec<Candidate>)
    ensures permutes { IsPermutation found.old.items found.new.items }
    ensures order { AllPairs IsBefore found.new.items }
{
    found.sort_unstable_by_key(|candidate| (candidate.distance, candidate.trap.0));
}

/// The traps of candidates.
fn traps_of(alloc: Global, found: &[Candidate]) -> Result<Vec<TrapId>, AllocError>
    ensures { IfOk result (λ traps. traps.items ≡ map (λ c. c.trap) found.now) }
{
    found.iter().map(|candidate| candidate.trap).collect(alloc)
}

/// The traps of the first candidates, `count` of them or all.
fn first_traps(alloc: Global, found: &[Candidate], count: usize) -> Result<List<TrapId>, Memory>
    ensures { IfOk result (λ l. l ≡ map (λ c. c.trap) (take count found.now)) }
{
    let first = &found[..count.min(found.len())];
    Ok(List::of(traps_of(alloc, first)?))
}

impl<'a> World<'a> {
    /// The `count` empty storage traps that are nearest to a trap of the card, by rising distance `|dx| + |dy|` and
    /// then number; all of them where there are fewer. The only error is that memory ran out.
    ///
    /// The reach of the search begins at the nearest storage trap, and what it has beyond that is doubled until enough empty
    /// traps are found. The work is in the traps within it, and not in those of the card.
    pub fn nearest(
        &self,
        alloc: Global,
        card: &Card,
        from: TrapId,
        count: u32,
    ) -> Result<List<TrapId>, Memory>
        requires its_card { card.now ≡ self.now.architecture }
        requires from_in { from.0 < trap_count card.now }
        ensures nearest { IfOk result (λ l. AreNearest self.now from.0 count (map (λ t. t.0) l)) }
        ensures number { IfOk result (λ l. length l ≡ min count (length (empty_storage self.now))) }
    {
        let _rules = card.figures();
        let centre = card.point(from);
        let mut found = around(alloc, self, self.blocks.as_slice(), centre, count as usize)?;
        put_by_distance(&mut found);
        first_traps(alloc, found.as_slice(), count as usize)
    }
}
