//! The empty storage traps around a point, found row by row.

ghost use Rattle.std.specs.Prelude.{◌≡◌, ◌+◌, ◌*◌, ◌<◌, ◌++◌, IfOk, OnOk};
ghost use Rattle.zac_arch.specs.Architecture.{storage_count};
ghost use Rattle.zac_world.specs.Blocks.{AreBlocks, IsBlock, size_of};
ghost use Rattle.zac_world.specs.Walks.{FitsDisc, candidates_in};

use crate::block::Block;
use crate::span::{least_distance, within_reach};
use crate::world::World;
use std::alloc::Global;
use zac_arch::{Point, TrapId};
use zac_memory::Memory;

/// An empty storage trap, and how far it is from a point.
#[derive(Clone, Copy)]
pub struct Candidate {
    /// Its distance: `|dx| + |dy|`, in tenths of a micrometre.
    pub distance: u32,
    /// The trap.
    pub trap: TrapId,
}

/// The points whose distance `|dx| + |dy|` from a centre is at most a reach.
#[derive(Clone, Copy)]
pub(crate) struct Disc {
    /// The centre.
    pub centre: Point,
    /// The reach.
    pub reach: u32,
}

/// Adds the empty traps of a row that are within reach.
fn add_row(
    found: &mut Vec<Candidate>,
    world: &World,
    disc: Disc,
    block: Block,
    row: u32,
) -> Result<(), Memory>
    requires disc { FitsDisc disc }
    requires block { IsBlock world.now.architecture block }
    requires row_in { row < block.zone.rows }
    ensures { OnOk result (found.new.items ≡ found.old.items
        ++ candidates_in world.now disc (block.first + row * block.zone.columns) block.zone.columns) }
{
    let zone = block.zone;
    let up = disc.centre.y.abs_diff(zone.y + row * zone.dy);
    if disc.reach < up {
        return Ok(());
    }
    let first = block.first + row * zone.columns;
    let (begin, end) = within_reach(
        zone.x,
        zone.dx,
        zone.columns,
        disc.centre.x,
        disc.reach - up,
    );
    for column in begin..end {
        let trap = TrapId(first + column);
        if world.atom_at(trap).is_none() {
            let across = disc.centre.x.abs_diff(zone.x + column * zone.dx);
            found.push(Candidate {
                distance: across + up,
                trap,
            })?;
        }
    }
    Ok(())
}

/// Adds the empty traps of a block that are within reach.
fn add_block(
    found: &mut Vec<Candidate>,
    world: &World,
    disc: Disc,
    block: Block,
) -> Result<(), Memory>
    requires disc { FitsDisc disc }
    requires block { IsBlock world.now.architecture block }
    ensures { OnOk result (found.new.items ≡ found.old.items
        ++ candidates_in world.now disc block.first (size_of block)) }
{
    let zone = block.zone;
    let across = least_distance(zone.x, zone.dx, zone.columns, disc.centre.x);
    if disc.reach < across {
        return Ok(());
    }
    let (begin, end) = within_reach(
        zone.y,
        zone.dy,
        zone.rows,
        disc.centre.y,
        disc.reach - across,
    );
    for row in begin..end {
        add_row(found, world, disc, block, row)?;
    }
    Ok(())
}

/// The empty storage traps that are within reach, by rising number. The work is in the traps within reach, and in
/// the number of storage zones.
pub(crate) fn empty_within(
    alloc: Global,
    world: &World,
    blocks: &[Block],
    disc: Disc,
) -> Result<Vec<Candidate>, Memory>
    requires disc { FitsDisc disc }
    requires blocks { AreBlocks world.now.architecture blocks.now }
    ensures { IfOk result (λ found. found.items
        ≡ candidates_in world.now disc 0 (storage_count world.now.architecture)) }
{
    let mut found = Vec::new(alloc);
    for block in blocks {
        add_block(&mut found, world, disc, *block)?;
    }
    Ok(found)
}
