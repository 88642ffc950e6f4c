//! The card.

ghost use Rattle.std.specs.Prelude.{◌≤◌};

use crate::job::PITCH;
use std::alloc::Global;
use zac_arch::{Card, Figures, Zone, ZoneKind};

/// The figures of the standard card.
const FIGURES: Figures = Figures {
    gap: 10,
    park: 10,
    reach: 5,
    radius: 60,
    accel: 2750,
    activate: 15_000,
    deactivate: 15_000,
    one: 52_000,
    pulse: 360,
    readout: 1_000_000,
    aods: 2,
    rows: 64,
    columns: 64,
};

/// A square of storage traps, and above it the sites of the standard card.
pub fn card(alloc: Global, side: u32) -> Option<Card>
    requires { side ≤ 256 }
{
    let storage = Zone {
        kind: ZoneKind::Storage,
        x: 0,
        y: 0,
        dx: PITCH,
        dy: PITCH,
        pair: 0,
        columns: side,
        rows: side,
    };
    let entangling = Zone {
        kind: ZoneKind::Entangling,
        x: 0,
        y: side * PITCH + 70,
        dx: 120,
        dy: 100,
        pair: 20,
        columns: 20,
        rows: 7,
    };
    let zones = vec![in alloc; storage, entangling].ok()?;
    Card::new(FIGURES, zones).ok()
}
