//! Moves with what is asked of their traps.

ghost use Rattle.std.specs.Prelude.{◌≡◌, ◌<◌, All, IfOk};
ghost use Rattle.zac_arch.specs.Architecture.{trap_count};
ghost use Rattle.zac_group.specs.Members.{IsRoute, column, moves, row};
ghost use Rattle.zac_group.specs.Moves.{HasTraps, point_at};

use crate::shift::Shift;
use crate::tracks::Track;
use std::alloc::Global;
use zac_arch::{Card, Point, TrapId};
use zac_memory::Memory;

/// The zones between which a move goes, by number.
#[derive(Clone, Copy, Debug, PartialEq, Eq)]
pub struct Zones {
    /// The zone of its source.
    pub from: u8,
    /// The zone of its target.
    pub to: u8,
}

/// A move, with where its traps are.
#[derive(Clone, Copy, Debug)]
pub struct Route {
    /// The move.
    pub shift: Shift,
    /// Where its source stands.
    pub from: Point,
    /// Where its target stands.
    pub to: Point,
    /// The zones of its source and target.
    pub zones: Zones,
}

/// Where a trap stands.
pub fn point_at(card: &Card, t: TrapId) -> Point
    requires { t.0 < trap_count card.now }
    ensures { result ≡ point_at card.now t }
{
    card.point(t)
}

impl Route {
    /// The route of a move.
    pub fn of(card: &Card, shift: Shift) -> Route
        requires { HasTraps card.now shift }
        ensures route { IsRoute card.now result }
        ensures shift { result.shift ≡ shift }
    {
        Route {
            shift,
            from: point_at(card, shift.from),
            to: point_at(card, shift.to),
            zones: Zones {
                from: card.zone_of(shift.from),
                to: card.zone_of(shift.to),
            },
        }
    }

    /// Where its column begins and ends.
    pub fn column(self) -> Track
        ensures { result ≡ column self }
    {
        Track {
            from: self.from.x,
            to: self.to.x,
        }
    }

    /// Where its row begins and ends.
    pub fn row(self) -> Track
        ensures { result ≡ row self }
    {
        Track {
            from: self.from.y,
            to: self.to.y,
        }
    }
}

/// The routes of moves.
pub fn routes_of(alloc: Global, card: &Card, shifts: &[Shift]) -> Result<Vec<Route>, Memory>
    requires { All (HasTraps card.now) shifts.now }
    ensures routes { IfOk result (λ routes. All (IsRoute card.now) routes.items) }
    ensures shifts { IfOk result (λ routes. moves routes.items ≡ shifts.now) }
{
    let mut routes = Vec::with_capacity(alloc, shifts.len())?;
    for shift in shifts {
        routes.push(Route::of(card, *shift))?;
    }
    Ok(routes)
}
