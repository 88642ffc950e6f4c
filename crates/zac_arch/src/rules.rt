//! The rules of a card, as tests on any figures and zones.

ghost use Rattle.std.specs.Prelude.{◌≡◌, ℕ, ◌*◌, ◌+◌, ◌^◌, ◌<◌, MatchOption, IsTrue, not, nat_lt, nat_le, length, count_by, ◌&&◌, ◌==◌, if◌then◌else◌};
ghost use Rattle.std.specs.List.{list_all};
ghost use Rattle.zac_arch.specs.declared.card.Figures.{Figures};
ghost use Rattle.zac_arch.specs.Architecture.{is_storage, last_x, last_y};
ghost use Rattle.zac_arch.specs.Rules.{has_few_zones, parks_out_of_reach, has_room, is_spaced, blocks_pairs_alone, has_trap, are_apart, are_separate, passes_pairs, is_on_the_field, is_in, lengths_in_range, times_in_range, beams_in_range, figures_in_range, zone_in_range, stands_in_order, KeepsRules, IsLeastBroken};

use crate::card::{Figures, Zone, ZoneKind};
use crate::counts::{sites_in, storage_traps_in};

/// How many zones have this use.
fn zones_for_storage(zones: &[Zone]) -> usize
    ensures { result ≡ count_by (λ z. is_storage z.kind) zones.now }
{
    zones.iter().filter(|z| z.kind.is_for_storage()).count()
}

fn zones_for_pulses(zones: &[Zone]) -> usize
    ensures { result ≡ count_by (λ z. not (is_storage z.kind)) zones.now }
{
    zones.iter().filter(|z| !z.kind.is_for_storage()).count()
}

/// Whether there are 1 to 32 zones of each kind, at most 65,536 storage traps, and at most 1,024 sites.
fn zones_are_few(zones: &[Zone]) -> bool
    ensures { (f : Figures) → result ≡ has_few_zones (record { figures = f; zones = zones.now }) }
{
    let (storage, entangling) = (zones_for_storage(zones), zones_for_pulses(zones));
    1 <= storage
        && storage <= 32
        && 1 <= entangling
        && entangling <= 32
        && storage_traps_in(zones) <= 65_536
        && sites_in(zones) <= 1_024
}

/// Whether a parked beam is out of reach of what it is parked beside.
fn parks_clear(figures: Figures) -> bool
    ensures { result ≡ parks_out_of_reach figures }
{
    let (park, reach) = (u128::from(figures.park), u128::from(figures.reach));
    2 * (reach * reach) < park * park
}

/// Whether two neighbours so far apart leave room for a beam that is parked between them.
fn leaves_room(figures: Figures, distance: u32) -> bool
    ensures { result ≡ has_room figures distance }
{
    let (park, distance) = (u64::from(figures.park), u64::from(distance));
    park + u64::from(figures.gap) <= distance && park + u64::from(figures.reach) < distance
}

/// Whether the neighbours in a zone's grid leave room for a parked beam.
fn zone_leaves_room(figures: Figures, z: Zone) -> bool
    ensures { result ≡ is_spaced figures z }
{
    leaves_room(figures, z.dx)
        && leaves_room(figures, z.dy)
        && (z.kind.is_for_storage()
            || (leaves_room(figures, z.pair) && leaves_room(figures, z.dx.saturating_sub(z.pair))))
}

fn zones_leave_room(figures: Figures, zones: &[Zone]) -> bool
    ensures { result ≡ list_all (is_spaced figures) zones.now }
{
    zones.iter().all(|z| zone_leaves_room(figures, *z))
}

/// Whether, in an entangling zone, the two traps of a site are within the blockade radius, and those of two
/// sites aren't.
fn zone_blocks_pairs(figures: Figures, z: Zone) -> bool
    ensures { result ≡ blocks_pairs_alone figures z }
{
    let radius = figures.radius;
    z.kind.is_for_storage()
        || (z.pair <= radius && radius < z.dx.saturating_sub(z.pair) && radius < z.dy)
}

fn zones_block_pairs(figures: Figures, zones: &[Zone]) -> bool
    ensures { result ≡ list_all (blocks_pairs_alone figures) zones.now }
{
    zones.iter().all(|z| zone_blocks_pairs(figures, *z))
}

fn zone_has_trap(z: Zone) -> bool
    ensures { result ≡ has_trap z }
{
    0 < z.columns && 0 < z.rows
}

/// The greatest x of a zone's traps.
fn right_end(z: Zone) -> u128
    ensures value { result ≡ last_x z }
    ensures most { result < 2 ^ 65 }
{
    let width = if z.kind.is_for_storage() { 0 } else { z.pair };
    let steps = u128::from(z.columns.saturating_sub(1));
    u128::from(z.x) + steps * u128::from(z.dx) + u128::from(width)
}

/// The greatest y of a zone's traps.
fn top_end(z: Zone) -> u128
    ensures value { result ≡ last_y z }
    ensures most { result < 2 ^ 65 }
{
    let steps = u128::from(z.rows.saturating_sub(1));
    u128::from(z.y) + steps * u128::from(z.dy)
}

/// Whether one of two intervals ends at least `d` before the other begins.
fn intervals_apart(d: u128, from: u32, to: u128, other_from: u32, other_to: u128) -> bool
    requires distance { d < 2 ^ 65 }
    requires end { to < 2 ^ 65 }
    requires other_end { other_to < 2 ^ 65 }
    ensures { result ≡ are_apart d from to other_from other_to }
{
    to + d <= u128::from(other_from) || other_to + d <= u128::from(from)
}

/// Whether the boxes of the traps of two zones are far enough apart on x or on y.
fn zones_apart(figures: Figures, v: Zone, w: Zone) -> bool
    ensures { result ≡ are_separate figures v w }
{
    let d = u128::from(figures.park) + u128::from(figures.reach) + u128::from(figures.radius) + 1;
    !zone_has_trap(v)
        || !zone_has_trap(w)
        || intervals_apart(d, v.x, right_end(v), w.x, right_end(w))
        || intervals_apart(d, v.y, top_end(v), w.y, top_end(w))
}

fn apart_from_all(figures: Figures, v: Zone, others: &[Zone]) -> bool
    ensures { result ≡ list_all (are_separate figures v) others.now }
{
    others.iter().all(|w| zones_apart(figures, v, *w))
}

/// Whether each two zones are far enough apart.
fn all_apart(figures: Figures, zones: &[Zone]) -> bool
    ensures { result ≡ passes_pairs (are_separate figures) zones.now }
{
    match zones.split_first() {
        Some((first, others)) => apart_from_all(figures, *first, others)
            && all_apart(figures, others),
        None => true,
    }
}

/// Whether the far end of a zone's traps, and a beam parked there, is on the field.
fn zone_on_the_field(figures: Figures, z: Zone) -> bool
    ensures { result ≡ is_on_the_field figures z }
{
    let park = u128::from(figures.park);
    !zone_has_trap(z) || (right_end(z) + park <= 1_000_000 && top_end(z) + park <= 1_000_000)
}

fn zones_on_the_field(figures: Figures, zones: &[Zone]) -> bool
    ensures { result ≡ list_all (is_on_the_field figures) zones.now }
{
    zones.iter().all(|z| zone_on_the_field(figures, *z))
}

/// Whether a number is at least `low` and at most `high`.
fn in_range(low: u32, high: u32, n: u32) -> bool
    ensures { result ≡ is_in low high n }
{
    low <= n && n <= high
}

fn lengths_fit(f: Figures) -> bool
    ensures { result ≡ lengths_in_range f }
{
    in_range(1, 100_000, f.gap)
        && in_range(1, 100_000, f.park)
        && f.reach <= 100_000
        && in_range(1, 100_000, f.radius)
}

fn is_step_time(time: u32) -> bool
    ensures { result ≡ is_in 1 1000000000 time }
{
    in_range(1, 1_000_000_000, time)
}

fn times_fit(f: Figures) -> bool
    ensures { result ≡ times_in_range f }
{
    in_range(100, 1_000_000, f.accel)
        && is_step_time(f.activate)
        && is_step_time(f.deactivate)
        && is_step_time(f.one)
        && is_step_time(f.pulse)
        && is_step_time(f.readout)
}

fn beams_fit(f: Figures) -> bool
    ensures { result ≡ beams_in_range f }
{
    in_range(1, 8, u32::from(f.aods))
        && in_range(1, 64, u32::from(f.rows))
        && in_range(1, 64, u32::from(f.columns))
}

/// Whether a zone's `pair` lies in its range: in storage it is 0.
fn pair_fits(z: Zone) -> bool
    ensures { result ≡ (if is_storage z.kind then z.pair == 0 else is_in 1 1000000 z.pair) }
{
    if z.kind.is_for_storage() {
        z.pair == 0
    } else {
        in_range(1, 1_000_000, z.pair)
    }
}

/// Whether each number of a zone lies in its range.
fn zone_fits(z: Zone) -> bool
    ensures { result ≡ zone_in_range z }
{
    z.x <= 1_000_000
        && z.y <= 1_000_000
        && in_range(1, 1_000_000, z.dx)
        && in_range(1, 1_000_000, z.dy)
        && pair_fits(z)
        && in_range(1, 65_536, z.columns)
        && in_range(1, 65_536, z.rows)
}

fn figures_fit(f: Figures) -> bool
    ensures { result ≡ figures_in_range f }
{
    lengths_fit(f) && times_fit(f) && beams_fit(f)
}

fn zones_fit(zones: &[Zone]) -> bool
    ensures { result ≡ list_all zone_in_range zones.now }
{
    zones.iter().all(|z| zone_fits(*z))
}

/// Whether each number of a card lies in its range.
fn numbers_fit(figures: Figures, zones: &[Zone]) -> bool
    ensures { result ≡ (figures_in_range figures && list_all zone_in_range zones.now) }
{
    figures_fit(figures) && zones_fit(zones)
}

/// The number of the least rule that figures and zones break; none exactly where they keep all.
pub(crate) fn least_broken_rule(figures: Figures, zones: &[Zone]) -> Option<u8>
    requires { IsTrue (passes_pairs stands_in_order zones.now) }
    ensures { MatchOption result
        (KeepsRules (record { figures = figures; zones = zones.now }))
        (λ n. IsLeastBroken (record { figures = figures; zones = zones.now }) n) }
{
    if !zones_are_few(zones) {
        return Some(1);
    }
    if !parks_clear(figures) {
        return Some(2);
    }
    if !zones_leave_room(figures, zones) {
        return Some(3);
    }
    if !zones_block_pairs(figures, zones) {
        return Some(4);
    }
    if !all_apart(figures, zones) {
        return Some(5);
    }
    if !zones_on_the_field(figures, zones) {
        return Some(6);
    }
    if !numbers_fit(figures, zones) {
        return Some(7);
    }
    None
}
