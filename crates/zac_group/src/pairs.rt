//! Which two moves one AOD can make together.

ghost use Rattle.std.specs.Prelude.{◌≡◌, ◌<◌, ◌↔◌, IsTrue};
ghost use Rattle.zac_arch.specs.Architecture.{trap_count};
ghost use Rattle.zac_group.specs.Moves.{AreInOneZone, HasTraps, IsCompatible};
ghost use Rattle.zac_group.specs.Tracks.{KeepsOrder};

use crate::route::point_at;
use crate::shift::Shift;
use crate::tracks::Track;
use zac_arch::{Card, TrapId};

/// Whether one zone has both traps.
fn in_one_zone(card: &Card, t: TrapId, u: TrapId) -> bool
    requires first { t.0 < trap_count card.now }
    requires second { u.0 < trap_count card.now }
    ensures { IsTrue result ↔ AreInOneZone card.now t u }
{
    card.zone_of(t) == card.zone_of(u)
}

/// Whether two tracks compare at their ends as they do where they begin.
fn keeps_order(track: Track, other: Track) -> bool
    ensures { IsTrue result ↔ KeepsOrder track other }
{
    track.from.cmp(&other.from) == track.to.cmp(&other.to)
}

/// Whether one AOD can make two moves together: one zone has both sources, one zone has both targets, and on each axis
/// the order or equality of their sources is that of their targets.
///
/// The sources and targets are traps of the card.
pub fn compatible(card: &Card, a: Shift, b: Shift) -> bool
    requires first { HasTraps card.now a }
    requires second { HasTraps card.now b }
    ensures { IsTrue result ↔ IsCompatible card.now a b }
{
    let (from, to) = (point_at(card, a.from), point_at(card, a.to));
    let (other_from, other_to) = (point_at(card, b.from), point_at(card, b.to));
    let column = Track {
        from: from.x,
        to: to.x,
    };
    let other_column = Track {
        from: other_from.x,
        to: other_to.x,
    };
    let row = Track {
        from: from.y,
        to: to.y,
    };
    let other_row = Track {
        from: other_from.y,
        to: other_to.y,
    };
    in_one_zone(card, a.from, b.from)
        && in_one_zone(card, a.to, b.to)
        && keeps_order(column, other_column)
        && keeps_order(row, other_row)
}
