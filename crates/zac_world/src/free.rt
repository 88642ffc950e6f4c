//! The nearest empty storage trap that isn't marked.

ghost use Rattle.std.specs.Prelude.{◌≡◌, ℕ, ◌+◌, ◌*◌, ◌-◌, ◌/◌, ◌<◌, ◌≤◌, ◌⊎◌, Some, None, true, false, IfSome, MatchOption};
ghost use Rattle.std.specs.List.{slice_index_or};
ghost use Rattle.zac_arch.specs.Architecture.{storage_count};
ghost use Rattle.zac_world.specs.Blocks.{AreBlocks, FitsField, IsBlock, block_distance, size_of};
ghost use Rattle.zac_world.specs.Free.{AreNoBetter, HasLimits, IsFirstFree, IsFound, IsNoWorse, IsOn, is_free, rank, rank_of};
ghost use Rattle.zac_world.specs.Nearest.{IsFree, IsNearestFree};

use crate::block::Block;
use crate::span::{count_below, within_reach};
use crate::walk::Candidate;
use crate::world::World;
use zac_arch::{Point, TrapId};
use zac_flags::Flags;

/// No trap is farther from a point of the field, in tenths of a micrometre.
const FIELD: u32 = 2_000_000;

/// On which side of a point a trap of a row stands.
#[derive(Clone, Copy)]
pub(crate) enum Side {
    /// At its left, or at the point.
    Left,
    /// At its right, or at the point.
    Right,
}

/// Some columns of a row, all on one side of a point.
#[derive(Clone, Copy)]
pub(crate) struct Columns {
    /// The first one.
    pub begin: u32,
    /// The one after the last one.
    pub end: u32,
    /// Their side.
    pub side: Side,
}

/// The trap at a row and a column of a block, with its distance.
fn candidate_at(block: Block, row: u32, column: u32, from: Point) -> Candidate
    requires field { FitsField block }
    requires few { block.first + size_of block ≤ 65536 }
    requires row_in { row < block.zone.rows }
    requires column_in { column < block.zone.columns }
    requires x_most { from.x ≤ 1000000 }
    requires y_most { from.y ≤ 1000000 }
    ensures distance { result.distance ≡ block_distance block row column from }
    ensures trap { result.trap.0 ≡ (block.first + row * block.zone.columns) + column }
    ensures limits { HasLimits result }
{
    let zone = block.zone;
    let across = from.x.abs_diff(zone.x + column * zone.dx);
    let up = from.y.abs_diff(zone.y + row * zone.dy);
    Candidate {
        distance: across + up,
        trap: TrapId(block.first + row * zone.columns + column),
    }
}

/// The nearer one; of two that are as near the one of the smaller number.
fn nearer(best: Option<Candidate>, other: Candidate) -> Option<Candidate>
    requires best { IfSome best HasLimits }
    requires other { HasLimits other }
    ensures one { (result ≡ best) ⊎ (result ≡ Some other) }
    ensures no_worse { rank_of result ≤ rank_of best }
    ensures no_worse_than_other { rank_of result ≤ rank_of (Some other) }
{
    let Some(found) = best else {
        return Some(other);
    };
    if other.distance < found.distance
        || (other.distance == found.distance && other.trap.0 < found.trap.0)
    {
        return Some(other);
    }
    Some(found)
}

/// How far a trap may be to be better than what was found.
fn reach_of(best: Option<Candidate>) -> u32
    requires { IfSome best HasLimits }
    ensures reach { rank_of best ≤ (result + 1) * 65536 }
    ensures most { result ≤ FIELD }
{
    match best {
        Some(found) => found.distance,
        None => FIELD,
    }
}

/// The best of what was found and of some columns of a row.
fn search_columns(
    world: &World,
    marks: &Flags,
    from: Point,
    block: Block,
    row: u32,
    columns: Columns,
    best: Option<Candidate>,
) -> Option<Candidate>
    requires x_most { from.x ≤ 1000000 }
    requires y_most { from.y ≤ 1000000 }
    requires block { IsBlock world.now.architecture block }
    requires row_in { row < block.zone.rows }
    requires columns_in { columns.end ≤ block.zone.columns }
    requires in_order { columns.begin ≤ columns.end }
    requires side { (i : ℕ) → columns.begin ≤ i → i < columns.end → IsOn columns.side block from i }
    requires found { IfSome best (IsFound world.now marks.now from) }
    ensures no_worse { IsNoWorse world.now marks.now from best result }
    ensures columns { (i : ℕ) → columns.begin ≤ i → i < columns.end
        → is_free world.now marks.now ((block.first + row * block.zone.columns) + i) ≡ true
        → rank_of result ≤ rank world.now from ((block.first + row * block.zone.columns) + i) }
{
    let first = block.first + row * block.zone.columns;
    match world.first_free(
        marks,
        first + columns.begin,
        first + columns.end,
        columns.side,
    ) {
        Some(t) => nearer(best, candidate_at(block, row, t - first, from)),
        None => best,
    }
}

/// The best of what was found and of a row. Of the row no more is looked at than may be better, and on each side of the
/// point no more than up to the first free trap.
fn search_row(
    world: &World,
    marks: &Flags,
    from: Point,
    block: Block,
    row: u32,
    best: Option<Candidate>,
) -> Option<Candidate>
    requires x_most { from.x ≤ 1000000 }
    requires y_most { from.y ≤ 1000000 }
    requires block { IsBlock world.now.architecture block }
    requires found { IfSome best (IsFound world.now marks.now from) }
    ensures no_worse { IsNoWorse world.now marks.now from best result }
    ensures row { row < block.zone.rows
        → AreNoBetter world.now marks.now from result (block.first + row * block.zone.columns) block.zone.columns }
{
    let zone = block.zone;
    if zone.rows <= row {
        return best;
    }
    let up = from.y.abs_diff(zone.y + row * zone.dy);
    let reach = reach_of(best);
    if reach < up {
        return best;
    }
    let (begin, end) = within_reach(zone.x, zone.dx, zone.columns, from.x, reach - up);
    let below = count_below(zone.x, zone.dx, zone.columns, from.x);
    let middle = below.max(begin).min(end);
    let left = Columns {
        begin,
        end: middle,
        side: Side::Left,
    };
    let right = Columns {
        begin: middle,
        end,
        side: Side::Right,
    };
    let best = search_columns(world, marks, from, block, row, left, best);
    search_columns(world, marks, from, block, row, right, best)
}

/// The row that is so many rows below the middle; one past the last row where there is none.
fn row_below(middle: u32, step: u32, rows: u32) -> u32
    ensures below { step < middle → result + step + 1 ≡ middle }
    ensures none { middle ≤ step → result ≡ rows }
{
    if step < middle {
        middle - step - 1
    } else {
        rows
    }
}

/// The best of what was found and of a block. Its rows are searched from the point outward, as long as they may be better.
fn search_block(
    world: &World,
    marks: &Flags,
    from: Point,
    block: Block,
    best: Option<Candidate>,
) -> Option<Candidate>
    requires x_most { from.x ≤ 1000000 }
    requires y_most { from.y ≤ 1000000 }
    requires block { IsBlock world.now.architecture block }
    requires found { IfSome best (IsFound world.now marks.now from) }
    ensures no_worse { IsNoWorse world.now marks.now from best result }
    ensures block { AreNoBetter world.now marks.now from result block.first (size_of block) }
{
    let zone = block.zone;
    let middle = count_below(zone.y, zone.dy, zone.rows, from.y);
    let mut best = best;
    for step in 0..zone.rows {
        if reach_of(best) < step * zone.dy {
            return best;
        }
        best = search_row(
            world,
            marks,
            from,
            block,
            row_below(middle, step, zone.rows),
            best,
        );
        best = search_row(world, marks, from, block, middle + step, best);
    }
    best
}

/// The best of some blocks.
fn search(world: &World, marks: &Flags, from: Point, blocks: &[Block]) -> Option<Candidate>
    requires x_most { from.x ≤ 1000000 }
    requires y_most { from.y ≤ 1000000 }
    requires blocks { AreBlocks world.now.architecture blocks.now }
    ensures found { IfSome result (IsFound world.now marks.now from) }
    ensures all { AreNoBetter world.now marks.now from result 0 (storage_count world.now.architecture) }
{
    let mut best = None;
    for block in blocks {
        best = search_block(world, marks, from, *block, best);
    }
    best
}

impl<'a> World<'a> {
    /// Of the traps from `begin` to before `end` the free one that comes first on the way outward from a point, on one
    /// side of which they all stand: the last one at its left, the first one at its right. None exactly where there is
    /// none.
    pub(crate) fn first_free(&self, marks: &Flags, begin: u32, end: u32, side: Side) -> Option<u32>
        ensures { MatchOption result
            ((t : ℕ) → begin ≤ t → t < end → is_free self.now marks.now t ≡ false)
            (IsFirstFree self.now marks.now side begin end) }
    {
        match side {
            Side::Left => self.taken.last_unset(marks, begin, end),
            Side::Right => self.taken.first_unset(marks, begin, end),
        }
    }

    /// Of the empty storage traps that aren't marked the one that is nearest to a point of the field, by distance
    /// `|dx| + |dy|` and then number; none exactly where there is none. Marks stand by trap number; a trap past their end
    /// isn't marked. It takes no memory.
    ///
    /// The work is in the rows that are no farther than the answer, in each in the traps up to the first free one on
    /// either side: one look at 64 of them that follow each other by number.
    pub fn nearest_free(&self, from: Point, marks: &Flags) -> Option<Candidate>
        requires x_most { from.x ≤ 1000000 }
        requires y_most { from.y ≤ 1000000 }
        ensures { MatchOption result
            ((t : ℕ) → ¬ IsFree self.now marks.now t)
            (IsNearestFree self.now marks.now from) }
    {
        search(self, marks, from, self.blocks.as_slice())
    }
}
