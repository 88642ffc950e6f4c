//! Lists of beams and of their ids.

ghost use Rattle.std.specs.Prelude.{◌≡◌, ℕ, ◌+◌, ◌<◌, ◌≤◌, ◌⊎◌, ◌↔◌, IsTrue, IsSome, MatchOption, Some, length, slice_get, count_by, nat_le};
ghost use Rattle.std.specs.List.{Any, Contains};
ghost use Rattle.std.specs.Prelude.{insert};
ghost use Rattle.arrayvec.specs.ArrayVec.{array_vec_len};
ghost use Rattle.zair_state.specs.Result.{with_beam};
ghost use Rattle.zac_arch.specs.Distances.{difference};
ghost use Rattle.zair_form.specs.declared.step.Beam.{Beam};
ghost use Rattle.zair_state.specs.Faults.{IsTwice, ids, IsOffField, named_beam, AreNeighbours};
ghost use Rattle.zair_state.specs.Least.{IsLeastOf};
ghost use Rattle.zair_state.specs.Result.{with_beams, without_beams};
ghost use Rattle.zair_state.specs.State.{HasId};

use crate::least::{lesser_id_if, lesser_if};
use arrayvec::ArrayVec;
use zac_arch::Point;
use zair_form::{Beam, Caught};
use zair_state::Axis;

/// Whether one of the beams has this id.
pub(crate) fn has_id(beams: &[Beam], id: u8) -> bool
    ensures { IsTrue result ↔ Any (λ b. b.id ≡ id) beams.now }
{
    beams.iter().any(|b| b.id == id)
}

/// Whether a beam of either list has this id.
pub(crate) fn has_id_in_either(beams: &[Beam], others: &[Beam], id: u8) -> bool
    ensures { IsTrue result ↔ (Any (λ b. b.id ≡ id) beams.now ⊎ Any (λ b. b.id ≡ id) others.now) }
{
    has_id(beams, id) || has_id(others, id)
}

/// Whether this id is listed.
pub(crate) fn is_listed(ids: &[u8], id: u8) -> bool
    ensures { IsTrue result ↔ Contains ids.now id }
{
    ids.iter().any(|i| *i == id)
}

/// Whether one of the beams has this id, looked for from the last one on.
fn has_id_from_behind(beams: &[Beam], id: u8) -> bool
    ensures { IsTrue result ↔ Any (λ b. b.id ≡ id) beams.now }
{
    beams.iter().rev().any(|b| b.id == id)
}

/// Whether this id is listed, looked for from the last one on.
fn is_listed_from_behind(ids: &[u8], id: u8) -> bool
    ensures { IsTrue result ↔ Contains ids.now id }
{
    ids.iter().rev().any(|i| *i == id)
}

/// The least id that two of the beams have. Each is looked for among those before it from the nearest on, so that
/// the time grows with the list and not with its square: there are few ids.
pub(crate) fn least_twice(beams: &[Beam]) -> Option<u8>
    ensures { IsLeastOf (IsTwice (ids beams.now)) result }
{
    let mut least = None;
    for (k, b) in beams.iter().enumerate() {
        least = lesser_id_if(least, has_id_from_behind(&beams[..k], b.id), b.id);
    }
    least
}

/// The least id that is listed twice.
pub(crate) fn least_id_twice(ids: &[u8]) -> Option<u8>
    ensures { IsLeastOf (IsTwice ids.now) result }
{
    let mut least = None;
    for (k, id) in ids.iter().enumerate() {
        least = lesser_id_if(least, is_listed_from_behind(&ids[..k], *id), *id);
    }
    least
}

/// The least id that a beam of both lists has.
pub(crate) fn least_in_both(beams: &[Beam], others: &[Beam]) -> Option<u8>
    ensures { IsLeastOf (λ id. HasId beams.now id × HasId others.now id) result }
{
    let mut least = None;
    for b in beams {
        least = lesser_id_if(least, has_id(others, b.id), b.id);
    }
    least
}

/// The least id that a beam of the first list has, and none of the others.
pub(crate) fn least_not_in(beams: &[Beam], others: &[Beam]) -> Option<u8>
    ensures { IsLeastOf (λ id. HasId beams.now id × ¬ HasId others.now id) result }
{
    let mut least = None;
    for b in beams {
        least = lesser_id_if(least, !has_id(others, b.id), b.id);
    }
    least
}

/// The least id that is listed, and that none of the beams has.
pub(crate) fn least_id_not_in(ids: &[u8], beams: &[Beam]) -> Option<u8>
    ensures { IsLeastOf (λ id. Contains ids.now id × ¬ HasId beams.now id) result }
{
    let mut least = None;
    for id in ids {
        least = lesser_id_if(least, !has_id(beams, *id), *id);
    }
    least
}

/// The beam along an axis that a caught atom names.
fn named(axis: Axis, c: Caught) -> u8
    ensures { result ≡ named_beam axis c }
{
    match axis {
        Axis::Row => c.row,
        Axis::Column => c.column,
    }
}

/// The least id along an axis that a caught atom names, and that no beam of either list has.
pub(crate) fn least_named_in_neither(
    axis: Axis,
    atoms: &[Caught],
    beams: &[Beam],
    others: &[Beam],
) -> Option<u8>
    ensures { IsLeastOf (λ id. Any (λ c. named_beam axis c ≡ id) atoms.now × ¬ (HasId beams.now id ⊎ HasId others.now id)) result }
{
    let mut least = None;
    for c in atoms {
        let id = named(axis, *c);
        least = lesser_id_if(least, !has_id_in_either(beams, others, id), id);
    }
    least
}

/// The least id of a beam that stands past 1,000,000.
pub(crate) fn least_off_field(beams: &[Beam]) -> Option<u8>
    ensures { IsLeastOf (IsOffField beams.now) result }
{
    let mut least = None;
    for b in beams {
        least = lesser_id_if(least, 1_000_000 < b.at, b.id);
    }
    least
}

/// How many of the beams have this id or a lower one.
fn count_up_to(beams: &[Beam], id: u8) -> usize
    ensures { result ≡ count_by (λ b. nat_le b.id id) beams.now }
{
    beams.iter().filter(|b| b.id <= id).count()
}

/// The least id of a beam of the first list that, with those of both lists of lower id, passes a number.
pub(crate) fn least_too_many(most: u8, beams: &[Beam], others: &[Beam]) -> Option<u8>
    ensures { IsLeastOf (λ id. HasId beams.now id
        × (most < count_by (λ b. nat_le b.id id) beams.now + count_by (λ b. nat_le b.id id) others.now)) result }
{
    let mut least = None;
    for b in beams {
        let count = count_up_to(beams, b.id).saturating_add(count_up_to(others, b.id));
        least = lesser_id_if(least, usize::from(most) < count, b.id);
    }
    least
}

/// How far a number is from the nearest of the beams.
pub(crate) fn distance_to(beams: &[Beam], n: u32) -> Option<u32>
    ensures { IsLeastOf (λ d. Any (λ b. difference n b.at ≡ d) beams.now) result }
{
    let mut least = None;
    for b in beams {
        least = lesser_if(least, true, n.abs_diff(b.at));
    }
    least
}

/// Where the beam of this id stands.
pub(crate) fn position_of(beams: &[Beam], id: u8) -> Option<u32>
    ensures { MatchOption result (¬ HasId beams.now id) (λ at. Contains beams.now (record { id = id; at = at })) }
{
    for b in beams {
        if b.id == id {
            return Some(b.at);
        }
    }
    None
}

/// The least id of a beam that doesn't stand above the one of next lower id.
pub(crate) fn least_out_of_order(beams: &[Beam]) -> Option<u8>
    ensures { IsLeastOf (λ id. (lower : Beam) × (upper : Beam) × AreNeighbours beams.now id lower upper × (upper.at ≤ lower.at)) result }
{
    let mut least = None;
    for k in 1..beams.len() {
        let (lower, upper) = (beams[k - 1], beams[k]);
        least = lesser_id_if(least, upper.at <= lower.at, upper.id);
    }
    least
}

/// Whether a position is greater than another one, but by less than the gap.
fn is_too_near(gap: u32, lower: u32, upper: u32) -> bool
    ensures { IsTrue result ↔ ((lower < upper) × (upper < lower + gap)) }
{
    lower < upper && u64::from(upper) < u64::from(lower) + u64::from(gap)
}

/// The least id of a beam that stands above the one of next lower id by less than the gap.
pub(crate) fn least_too_near(gap: u32, beams: &[Beam]) -> Option<u8>
    ensures { IsLeastOf (λ id. (lower : Beam) × (upper : Beam) × AreNeighbours beams.now id lower upper
        × ((lower.at < upper.at) × (upper.at < lower.at + gap))) result }
{
    let mut least = None;
    for k in 1..beams.len() {
        let (lower, upper) = (beams[k - 1], beams[k]);
        least = lesser_id_if(least, is_too_near(gap, lower.at, upper.at), upper.id);
    }
    least
}

/// The place before the first beam of greater id.
fn place_for(beams: &[Beam], b: Beam) -> usize
    ensures within { result ≤ length beams.now }
    ensures place { with_beam b beams.now ≡ insert beams.now result b }
{
    for (k, c) in beams.iter().enumerate() {
        if b.id < c.id {
            return k;
        }
    }
    beams.len()
}

/// Puts a beam before the first one of greater id.
fn put_in(beams: &mut ArrayVec<Beam, 64>, b: Beam)
    requires { array_vec_len beams.old < 64 }
    ensures { beams.new.items ≡ with_beam b beams.old.items }
{
    let place = place_for(beams.as_slice(), b);
    beams.insert(place, b);
}

/// The same beams.
fn copy_of(beams: &[Beam]) -> ArrayVec<Beam, 64>
    requires { length beams.now ≤ 64 }
    ensures { result.items ≡ beams.now }
{
    let mut copy = ArrayVec::new();
    for b in beams {
        copy.push(*b);
    }
    copy
}

/// The active beams and those that are listed, by rising id.
pub(crate) fn with_all(listed: &[Beam], active: &[Beam]) -> ArrayVec<Beam, 64>
    requires { length listed.now + length active.now ≤ 64 }
    ensures { result.items ≡ with_beams listed.now active.now }
{
    let mut beams = copy_of(active);
    for k in 0..listed.len() {
        put_in(&mut beams, listed[listed.len() - 1 - k]);
    }
    beams
}

/// The active beams but those of these ids.
pub(crate) fn without_all(ids: &[u8], active: &[Beam]) -> ArrayVec<Beam, 64>
    requires { length active.now ≤ 64 }
    ensures { result.items ≡ without_beams ids.now active.now }
{
    let mut beams = ArrayVec::new();
    for b in active {
        if !is_listed(ids, b.id) {
            beams.push(*b);
        }
    }
    beams
}

/// Where the crossing of the row and the column of these ids stands.
pub(crate) fn point_of(rows: &[Beam], columns: &[Beam], row: u8, column: u8) -> Option<Point>
    ensures { MatchOption result (¬ (HasId rows.now row × HasId columns.now column))
        (λ p. Contains rows.now (record { id = row; at = p.y }) × Contains columns.now (record { id = column; at = p.x })) }
{
    let y = position_of(rows, row)?;
    let x = position_of(columns, column)?;
    Some(Point { x, y })
}
