//! The traps of the two grids.

ghost use Rattle.std.specs.Prelude.{◌≡◌, ◌++◌, ℕ, List, IfOk, OnOk, map};
ghost use Rattle.std.specs.List.{All};
ghost use Rattle.zac_aod.specs.Jobs.{StandAt};
ghost use Rattle.zac_aod.specs.Lines.{crossings_of, source_points, target_points};
ghost use Rattle.zac_arch.specs.Architecture.{StandsAt};
ghost use Rattle.zac_arch.specs.declared.place.Point.{Point};

use crate::line::Line;
use std::alloc::Global;
use zac_arch::{Card, Point, TrapId};
use zac_memory::Memory;

/// Where lines begin.
pub(crate) fn sources(alloc: Global, lines: &[Line]) -> Result<Vec<u32>, Memory>
    ensures { IfOk result (λ places. places.items ≡ map (λ l. l.from) lines.now) }
{
    let mut places = Vec::with_capacity(alloc, lines.len())?;
    for line in lines {
        places.push(line.from)?;
    }
    Ok(places)
}

/// Where lines end.
pub(crate) fn targets(alloc: Global, lines: &[Line]) -> Result<Vec<u32>, Memory>
    ensures { IfOk result (λ places. places.items ≡ map (λ l. l.to) lines.now) }
{
    let mut places = Vec::with_capacity(alloc, lines.len())?;
    for line in lines {
        places.push(line.to)?;
    }
    Ok(places)
}

/// The trap at a point where one stands.
fn trap_at(card: &Card, point: Point) -> TrapId
    requires { (t : ℕ) × StandsAt card.now t point }
    ensures { StandsAt card.now result.0 point }
{
    match card.trap_at(point) {
        Some(trap) => trap,
        None => unreachable!(),
    }
}

/// Adds the traps of a row.
fn add_row(card: &Card, xs: &[u32], y: u32, traps: &mut Vec<TrapId>) -> Result<(), Memory>
    requires { All (λ x. (t : ℕ) × StandsAt card.now t (record { x = x; y = y })) xs.now }
    ensures { OnOk result ((points : List Point) → StandAt card.now traps.old.items points → StandAt card.now traps.new.items (points ++ map (λ x. record { x = x; y = y }) xs.now)) }
{
    for x in xs {
        traps.push(trap_at(card, Point { x: *x, y }))?;
    }
    Ok(())
}

/// Adds the traps of a grid, row after row.
pub(crate) fn add_grid(
    card: &Card,
    xs: &[u32],
    ys: &[u32],
    traps: &mut Vec<TrapId>,
) -> Result<(), Memory>
    requires { All (λ y. All (λ x. (t : ℕ) × StandsAt card.now t (record { x = x; y = y })) xs.now) ys.now }
    ensures { OnOk result ((points : List Point) → StandAt card.now traps.old.items points → StandAt card.now traps.new.items (points ++ crossings_of xs.now ys.now)) }
{
    for y in ys {
        add_row(card, xs, *y, traps)?;
    }
    Ok(())
}
