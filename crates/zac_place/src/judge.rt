//! Which proposals of returns are proved by their prices.
//!
//! A row is a leaving atom with its proposed trap, and the fee of a target is what its row's price is above its cost. The
//! prices prove the placing least where no row pays less than its price anywhere: at another row's target, whose fee it
//! pays on top, or at the nearest empty storage trap that is no target.

ghost use Rattle.std.specs.Prelude.{◌≡◌, ◌≢◌, ◌+◌, ◌<◌, ◌≤◌, ◌⊎◌, ℕ, IfOk, IfSome, IsTrue, length, vec_len};
ghost use Rattle.std.specs.List.{All, slice_index_or};
ghost use Rattle.zac_arch.specs.Architecture.{storage_count};
ghost use Rattle.zac_place.specs.Judged.{AreMarked, AreRows, HasRoom, IsBeforeFree, IsBounded, IsJudged, IsProved, IsRow, apart};
ghost use Rattle.zac_place.specs.Returns.{IsEntangling};

use crate::offsets::{apart, point_of};
use crate::proposal::Proposal;
use std::alloc::Global;
use zac_arch::{Card, Point, TrapId};
use zac_flags::Flags;
use zac_memory::Memory;
use zac_world::{Candidate, World};

/// Greater prices aren't judged.
const GREATEST: u32 = 1_000_000_000;

/// A leaving atom with its proposed trap.
#[derive(Clone, Copy)]
pub(crate) struct Row {
    /// Where the atom is.
    origin: Point,
    /// Its price.
    price: u32,
    /// The trap.
    target: TrapId,
    /// Where that stands.
    place: Point,
    /// What the price is above the distance of the trap.
    fee: u32,
    /// The nearest empty storage trap that no atom is to go to.
    free: Option<Candidate>,
}

/// Marks for traps, by trap number; none where one of them isn't an empty storage trap, or comes twice.
fn marks_of(
    alloc: Global,
    card: &Card,
    world: &World<'_>,
    targets: &[u32],
) -> Result<Option<Flags>, Memory>
    requires card { world.now.architecture ≡ card.now }
    ensures { IfOk result (λ some. IfSome some (λ marks. AreMarked world.now targets.now marks)) }
{
    let traps = card.storage_traps();
    let mut marks = Flags::none(alloc, traps as usize)?;
    for target in targets {
        if traps <= *target || marks.is_set(*target) {
            return Ok(None);
        }
        if world.atom_at(TrapId(*target)).is_some() {
            return Ok(None);
        }
        marks.set(*target);
    }
    Ok(Some(marks))
}

/// The row of a qubit; none where its price isn't in range, or is less than the distance of the target.
fn row_of(
    card: &Card,
    world: &World<'_>,
    marks: &Flags,
    q: u32,
    target: TrapId,
    price: i64,
) -> Option<Row>
    requires card { world.now.architecture ≡ card.now }
    requires leaving { IsEntangling world.now q }
    requires target_in { target.0 < storage_count card.now }
    ensures { IfSome result (IsRow world.now marks.now q target.0 price) }
{
    if price < 0 || i64::from(GREATEST) < price {
        return None;
    }
    let price = price as u32;
    let origin = point_of(card, world.trap_of(q));
    let place = point_of(card, target);
    let cost = apart(origin, place);
    if price < cost {
        return None;
    }
    Some(Row {
        origin,
        price,
        target,
        place,
        fee: price - cost,
        free: world.nearest_free(origin, marks),
    })
}

/// The rows of a proposal; none where there is none for some qubit.
fn rows_of(
    alloc: Global,
    card: &Card,
    world: &World<'_>,
    marks: &Flags,
    leaving: &[u32],
    proposal: &Proposal,
) -> Result<Option<Vec<Row>>, Memory>
    requires card { world.now.architecture ≡ card.now }
    requires leaving { All (IsEntangling world.now) leaving.now }
    requires targets { All (λ t. t < storage_count card.now) proposal.now.targets.items }
    requires target_each { vec_len proposal.now.targets ≡ length leaving.now }
    requires price_each { vec_len proposal.now.prices ≡ length leaving.now }
    ensures { IfOk result (λ some. IfSome some (λ rows. AreRows world.now marks.now leaving.now
        proposal.now.targets.items proposal.now.prices.items rows.items)) }
{
    let mut rows = Vec::with_capacity(alloc, leaving.len())?;
    for (k, q) in leaving.iter().enumerate() {
        let target = TrapId(proposal.targets[k]);
        match row_of(card, world, marks, *q, target, proposal.prices[k]) {
            Some(row) => rows.push(row)?,
            None => return Ok(None),
        }
    }
    Ok(Some(rows))
}

/// Whether a row's price is at most what it pays at each target, with the fee there.
fn is_bounded(row: Row, rows: &[Row]) -> bool
    requires row { HasRoom row }
    requires rows { All HasRoom rows.now }
    ensures { IsTrue result → (k : ℕ) → (d : Row) → k < length rows.now → IsBounded row (slice_index_or rows.now k d) }
{
    for other in rows {
        if apart(row.origin, other.place) + other.fee < row.price {
            return false;
        }
    }
    true
}

/// Whether a row's price is at most what it pays at the nearest trap that is left free.
fn is_below_free(row: Row) -> bool
    ensures { IsTrue result → IfSome row.free (λ c. row.price ≤ c.distance) }
{
    match row.free {
        Some(free) => row.price <= free.distance,
        None => true,
    }
}

/// Whether another row's target comes for a row before each trap that is left free, by distance and then number.
fn comes_before_free(row: Row, other: Row) -> bool
    requires row { HasRoom row }
    requires other { HasRoom other }
    ensures { IsTrue result → IsBeforeFree row other }
{
    match row.free {
        Some(free) => {
            let cost = apart(row.origin, other.place);
            cost < free.distance || (cost == free.distance && other.target.0 < free.trap.0)
        }
        None => true,
    }
}

/// Whether a row's target comes for some row before each trap that is left free.
fn comes_before_some(row: Row, rows: &[Row]) -> bool
    requires row { HasRoom row }
    requires rows { All HasRoom rows.now }
    ensures { IsTrue result → (k : ℕ) × (k < length rows.now)
        × ((d : Row) → IsBeforeFree (slice_index_or rows.now k d) row) }
{
    for other in rows {
        if comes_before_free(*other, row) {
            return true;
        }
    }
    false
}

/// Whether a row's price is at most what it pays anywhere, and its target is near to some row. The row itself is tried
/// first.
fn is_judged(row: Row, rows: &[Row]) -> bool
    requires row { HasRoom row }
    requires rows { All HasRoom rows.now }
    ensures { IsTrue result → IsJudged rows.now row }
{
    if !is_below_free(row) || !is_bounded(row, rows) {
        return false;
    }
    if comes_before_free(row, row) {
        return true;
    }
    comes_before_some(row, rows)
}

/// Whether all rows are judged well. The time is in the square of their number.
fn are_judged(rows: &[Row]) -> bool
    requires { All HasRoom rows.now }
    ensures { IsTrue result → (k : ℕ) → (d : Row) → k < length rows.now → IsJudged rows.now (slice_index_or rows.now k d) }
{
    for row in rows {
        if !is_judged(*row, rows) {
            return false;
        }
    }
    true
}

/// Whether the prices of a proposal prove it: its traps are empty storage traps, one for each leaving qubit, no other
/// choice of them costs less, and each is near. The only error is that memory ran out.
///
/// The time is in the square of the number of the qubits; of the card's traps no more is done than to unmark them.
pub(crate) fn is_proved(
    alloc: Global,
    card: &Card,
    world: &World<'_>,
    leaving: &[u32],
    proposal: &Proposal,
) -> Result<bool, Memory>
    requires card { world.now.architecture ≡ card.now }
    requires leaving { All (IsEntangling world.now) leaving.now }
    ensures { IfOk result (λ proved. IsTrue proved → IsProved world.now leaving.now
        proposal.now.targets.items proposal.now.prices.items) }
{
    if proposal.targets.len() != leaving.len() || proposal.prices.len() != leaving.len() {
        return Ok(false);
    }
    let Some(marks) = marks_of(alloc, card, world, proposal.targets.as_slice())? else {
        return Ok(false);
    };
    let Some(rows) = rows_of(alloc, card, world, &marks, leaving, proposal)? else {
        return Ok(false);
    };
    Ok(are_judged(rows.as_slice()))
}
