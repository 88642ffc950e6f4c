//! A card with storage traps above one another.

use std::alloc::Global;
use zac_arch::{Card, Zone, ZoneKind};

/// Four storage traps in a square.
const STORAGE: Zone = Zone {
    kind: ZoneKind::Storage,
    x: 0,
    y: 0,
    dx: 30,
    dy: 30,
    pair: 0,
    columns: 2,
    rows: 2,
};

/// Two sites above one another.
const ENTANGLING: Zone = Zone {
    kind: ZoneKind::Entangling,
    x: 0,
    y: 130,
    dx: 120,
    dy: 100,
    pair: 20,
    columns: 1,
    rows: 2,
};

/// The card of these two zones, with the figures of another card.
pub fn square(alloc: Global, other: &Card) -> Option<Card> {
    let zones = vec![in alloc; STORAGE, ENTANGLING].ok()?;
    Card::new(other.figures(), zones).ok()
}
