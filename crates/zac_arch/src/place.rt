//! Points of the field, and the numbers of traps and sites.

ghost use Rattle.std.specs.Prelude.{◌↔◌, IsTrue};
ghost use Rattle.zac_arch.specs.Distances.{IsWithin};

/// The number of a trap, from 0: storage zones first, then entangling zones, each by rows from below.
#[derive(Clone, Copy, Debug, PartialEq, Eq)]
pub struct TrapId(pub u32);

/// The number of a site, from 0, over the entangling zones.
#[derive(Clone, Copy, Debug, PartialEq, Eq)]
pub struct SiteId(pub u32);

/// A point of the field, in tenths of a micrometre.
#[derive(Clone, Copy, Debug, PartialEq, Eq)]
pub struct Point {
    /// Along a row.
    pub x: u32,
    /// Along a column.
    pub y: u32,
}

/// Whether two points are at most `d` apart: `dx^2 + dy^2 <= d^2`.
pub fn within(a: Point, b: Point, d: u32) -> bool
    ensures { IsTrue result ↔ IsWithin d a b }
{
    let dx = u128::from(a.x.abs_diff(b.x));
    let dy = u128::from(a.y.abs_diff(b.y));
    let d = u128::from(d);
    dx * dx + dy * dy <= d * d
}
