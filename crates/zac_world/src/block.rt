//! The storage zones of a card as blocks of traps.

ghost use Rattle.std.specs.Prelude.{◌≡◌, ℕ, ◌+◌, ◌*◌, ◌<◌, ◌≤◌, IfOk};
ghost use Rattle.zac_arch.specs.declared.place.Point.{Point};
ghost use Rattle.zac_world.specs.Blocks.{AreBlocks, FitsField, block_distance};

use crate::span::least_distance;
use std::alloc::Global;
use zac_arch::{Card, Point, Zone, ZoneKind};
use zac_memory::Memory;

/// A storage zone, and the number of its first trap. Its traps are numbered row by row.
#[derive(Clone, Copy)]
pub(crate) struct Block {
    /// The number of its first trap.
    pub first: u32,
    /// The zone.
    pub zone: Zone,
}

impl Block {
    /// How far a point is from the nearest trap of the block.
    pub fn least_distance(self, from: Point) -> u32
        requires field { FitsField self }
        requires x_most { from.x ≤ 1000000 }
        requires y_most { from.y ≤ 1000000 }
        ensures least { (row column : ℕ) → row < self.zone.rows → column < self.zone.columns →
            result ≤ block_distance self row column from }
        ensures most { result ≤ 2000000 }
    {
        let across = least_distance(self.zone.x, self.zone.dx, self.zone.columns, from.x);
        let up = least_distance(self.zone.y, self.zone.dy, self.zone.rows, from.y);
        across + up
    }

    /// How far a point is from the farthest trap of the block.
    pub fn greatest_distance(self, from: Point) -> u32
        requires field { FitsField self }
        requires x_most { from.x ≤ 1000000 }
        requires y_most { from.y ≤ 1000000 }
        ensures greatest { (row column : ℕ) → row < self.zone.rows → column < self.zone.columns →
            block_distance self row column from ≤ result }
        ensures most { result ≤ 2000000 }
    {
        let last_x = self.zone.x + (self.zone.columns - 1) * self.zone.dx;
        let last_y = self.zone.y + (self.zone.rows - 1) * self.zone.dy;
        let across = from.x.abs_diff(self.zone.x).max(from.x.abs_diff(last_x));
        let up = from.y.abs_diff(self.zone.y).max(from.y.abs_diff(last_y));
        across + up
    }
}

/// The storage zones of a card, in their order.
pub(crate) fn blocks_of(alloc: Global, card: &Card) -> Result<Vec<Block>, Memory>
    ensures { IfOk result (λ blocks. AreBlocks card.now blocks.items) }
{
    let _rules = card.figures();
    let mut blocks = Vec::new(alloc);
    let mut first = 0;
    for zone in card.zones() {
        match zone.kind {
            ZoneKind::Storage => {
                blocks.push(Block { first, zone: *zone })?;
                first += zone.rows * zone.columns;
            }
            ZoneKind::Entangling => {}
        }
    }
    Ok(blocks)
}
