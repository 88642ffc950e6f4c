//! The atoms of a group.

ghost use Rattle.std.specs.Prelude.{◌≡◌, ◌<◌, All, IfOk, map};
ghost use Rattle.zac_aod.specs.Layout.{route_of};
ghost use Rattle.zac_arch.specs.Architecture.{trap_count};
ghost use Rattle.zac_group.specs.Moves.{HasTraps, point_at};

use crate::line::Line;
use std::alloc::Global;
use zac_arch::{Card, Point, TrapId};
use zac_group::Shift;
use zac_memory::Memory;

/// The atom of a move, with its row and its column.
#[derive(Clone, Copy)]
pub(crate) struct Route {
    /// Its qubit.
    pub(crate) q: u32,
    /// The trap to which it goes.
    pub(crate) to: TrapId,
    /// Its row.
    pub(crate) row: Line,
    /// Its column.
    pub(crate) column: Line,
}

/// Where a trap stands.
fn point_at(card: &Card, t: TrapId) -> Point
    requires { t.0 < trap_count card.now }
    ensures { result ≡ point_at card.now t }
{
    card.point(t)
}

/// The atom of a move, with its row and its column.
fn route_of(card: &Card, shift: Shift) -> Route
    requires { HasTraps card.now shift }
    ensures { result ≡ route_of card.now shift }
{
    let (from, to) = (point_at(card, shift.from), point_at(card, shift.to));
    Route {
        q: shift.q,
        to: shift.to,
        row: Line {
            from: from.y,
            to: to.y,
        },
        column: Line {
            from: from.x,
            to: to.x,
        },
    }
}

/// The atoms of moves, with their rows and columns.
pub(crate) fn routes_of(alloc: Global, card: &Card, shifts: &[Shift]) -> Result<Vec<Route>, Memory>
    requires { All (HasTraps card.now) shifts.now }
    ensures { IfOk result (λ routes. routes.items ≡ map (route_of card.now) shifts.now) }
{
    let mut routes = Vec::with_capacity(alloc, shifts.len())?;
    for shift in shifts {
        routes.push(route_of(card, *shift))?;
    }
    Ok(routes)
}

/// The rows of atoms, one after another.
pub(crate) fn rows_in(alloc: Global, routes: &[Route]) -> Result<Vec<Line>, Memory>
    ensures { IfOk result (λ lines. lines.items ≡ map (λ r. r.row) routes.now) }
{
    let mut lines = Vec::with_capacity(alloc, routes.len())?;
    for route in routes {
        lines.push(route.row)?;
    }
    Ok(lines)
}

/// The columns of atoms, one after another.
pub(crate) fn columns_in(alloc: Global, routes: &[Route]) -> Result<Vec<Line>, Memory>
    ensures { IfOk result (λ lines. lines.items ≡ map (λ r. r.column) routes.now) }
{
    let mut lines = Vec::with_capacity(alloc, routes.len())?;
    for route in routes {
        lines.push(route.column)?;
    }
    Ok(lines)
}
