//! The traps of one zone, by arithmetic on its grid.

ghost use Rattle.std.specs.Prelude.{◌≡◌, ℕ, ◌+◌, ◌-◌, ◌*◌, ◌<◌, ◌≤◌, ◌^◌, ◌↔◌, IsTrue, Some, MatchOption, length, slice_get};
ghost use Rattle.zac_arch.specs.Architecture.{traps_per_place, zone_traps, last_x, last_y, IsInWidenedBox};
ghost use Rattle.zac_arch.specs.Distances.{difference, IsFarther};
ghost use Rattle.zac_arch.specs.declared.place.Point.{Point};

use crate::card::{Zone, ZoneKind};
use crate::place::{Point, within};

/// How many traps stand at one place of a zone's grid.
fn traps_at_place(kind: ZoneKind) -> u32
    ensures { result ≡ traps_per_place kind }
{
    match kind {
        ZoneKind::Storage => 1,
        ZoneKind::Entangling => 2,
    }
}

/// How many traps a zone has.
pub(crate) fn traps_of(z: Zone) -> u32
    requires { length (zone_traps z) < 2 ^ 32 }
    ensures { result ≡ length (zone_traps z) }
{
    z.rows * z.columns * traps_at_place(z.kind)
}

/// Where a trap of a zone stands.
pub(crate) fn point_in(z: Zone, place: u32) -> Point
    requires below { place < length (zone_traps z) }
    requires x_fits { last_x z < 2 ^ 32 }
    requires y_fits { last_y z < 2 ^ 32 }
    ensures { slice_get (zone_traps z) place ≡ Some result }
{
    let width = traps_at_place(z.kind);
    let side = place % width;
    let column = place / width % z.columns;
    let row = place / width / z.columns;
    Point {
        x: z.x + column * z.dx + side * z.pair,
        y: z.y + row * z.dy,
    }
}

/// The side of a place whose trap stands `beside` further in x: 0 for the left, 1 for the right one.
fn side_at(z: Zone, beside: u32) -> Option<u32>
    ensures { MatchOption result
        ((side : ℕ) → side < traps_per_place z.kind → ¬ (beside ≡ side * z.pair))
        (λ side. (side < traps_per_place z.kind) × (beside ≡ side * z.pair)) }
{
    if beside == 0 {
        return Some(0);
    }
    match z.kind {
        ZoneKind::Storage => None,
        ZoneKind::Entangling => { if beside == z.pair { Some(1) } else { None } }
    }
}

/// The place in a zone of the trap that stands at a point.
pub(crate) fn place_at(z: Zone, p: Point) -> Option<u32>
    requires row_distance { 1 ≤ z.dy }
    requires column_distance { z.pair < z.dx }
    requires fits { length (zone_traps z) < 2 ^ 32 }
    ensures { MatchOption result
        ((place : ℕ) → ¬ (slice_get (zone_traps z) place ≡ Some p))
        (λ place. slice_get (zone_traps z) place ≡ Some p) }
{
    if p.x < z.x || p.y < z.y {
        return None;
    }
    let (right, up) = (p.x - z.x, p.y - z.y);
    let (row, column) = (up / z.dy, right / z.dx);
    if up % z.dy != 0 || z.rows <= row || z.columns <= column {
        return None;
    }
    let side = side_at(z, right % z.dx)?;
    Some((row * z.columns + column) * traps_at_place(z.kind) + side)
}

/// Whether a number lies in an interval widened by a margin on both sides, border included.
fn is_between(low: u32, high: u32, margin: u32, n: u32) -> bool
    ensures { IsTrue result ↔ ((low ≤ n + margin) × (n ≤ high + margin)) }
{
    let (margin, n) = (u64::from(margin), u64::from(n));
    u64::from(low) <= n + margin && n <= u64::from(high) + margin
}

/// Whether a pulse lights a point by a zone: an entangling zone lights the box of its traps widened by the
/// radius on all sides, border included.
pub(crate) fn is_lit_by(z: Zone, radius: u32, p: Point) -> bool
    requires x_fits { last_x z < 2 ^ 32 }
    requires y_fits { last_y z < 2 ^ 32 }
    requires column { 1 ≤ z.columns }
    requires row { 1 ≤ z.rows }
    ensures { IsTrue result ↔ ((z.kind ≡ ZoneKind.Entangling) × IsInWidenedBox radius z p) }
{
    match z.kind {
        ZoneKind::Storage => false,
        ZoneKind::Entangling => {
            let last_x = z.x + (z.columns - 1) * z.dx + z.pair;
            let last_y = z.y + (z.rows - 1) * z.dy;
            is_between(z.x, last_x, radius, p.x) && is_between(z.y, last_y, radius, p.y)
        }
    }
}

/// How far a number is from the nearest of `count` numbers, of which `first` is the least and each further one is
/// `step` greater than the one before it.
fn distance_to_nearest(first: u32, step: u32, count: u32, n: u32) -> u32
    requires rises { 1 ≤ step }
    requires some { 1 ≤ count }
    requires fits { first + (count - 1) * step < 2 ^ 32 }
    ensures reached { (i : ℕ) × (i < count) × (result ≡ difference n (first + i * step)) }
    ensures least { (i : ℕ) → i < count → result ≤ difference n (first + i * step) }
{
    if n <= first {
        return first - n;
    }
    let last = first + (count - 1) * step;
    if last <= n {
        return n - last;
    }
    let past = (n - first) % step;
    past.min(step - past)
}

/// How far an x is from the nearest column of a zone's traps.
fn distance_to_column(z: Zone, x: u32) -> u32
    requires fits { last_x z < 2 ^ 32 }
    requires column { 1 ≤ z.columns }
    requires column_distance { 1 ≤ z.dx }
    ensures reached { (column : ℕ) × (side : ℕ) × (column < z.columns) × (side < traps_per_place z.kind)
        × (result ≡ difference x (z.x + column * z.dx + side * z.pair)) }
    ensures least { (column side : ℕ) → column < z.columns → side < traps_per_place z.kind
        → result ≤ difference x (z.x + column * z.dx + side * z.pair) }
{
    let left = distance_to_nearest(z.x, z.dx, z.columns, x);
    match z.kind {
        ZoneKind::Storage => left,
        ZoneKind::Entangling => left.min(distance_to_nearest(z.x + z.pair, z.dx, z.columns, x)),
    }
}

/// Whether a point is farther than the reach from every trap of a zone.
pub(crate) fn is_off(z: Zone, reach: u32, p: Point) -> bool
    requires x_fits { last_x z < 2 ^ 32 }
    requires y_fits { last_y z < 2 ^ 32 }
    requires column { 1 ≤ z.columns }
    requires row { 1 ≤ z.rows }
    requires column_distance { 1 ≤ z.dx }
    requires row_distance { 1 ≤ z.dy }
    ensures { IsTrue result ↔ ((place : ℕ) (q : Point) → slice_get (zone_traps z) place ≡ Some q → IsFarther reach p q) }
{
    let across = distance_to_column(z, p.x);
    let up = distance_to_nearest(z.y, z.dy, z.rows, p.y);
    !within(Point { x: 0, y: 0 }, Point { x: across, y: up }, reach)
}
