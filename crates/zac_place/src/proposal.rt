//! Traps for leaving atoms, found fast.
//!
//! Nothing is promised of a proposal; who takes it up judges it by its prices.

ghost use Rattle.std.specs.Prelude.{◌≡◌};
ghost use Rattle.std.specs.List.{All};
ghost use Rattle.zac_place.specs.Returns.{IsEntangling};

use crate::offsets::point_of;
use crate::solver::{Market, Solved, Unsolved, solve};
use std::alloc::{AllocError, Global};
use std::collections::BTreeMap;
use zac_arch::{Card, Point, TrapId, ZoneKind, laws_of_traps};
use zac_flags::Flags;
use zac_memory::Memory;
use zac_world::World;

/// A trap for each leaving atom, and a price for each.
#[derive(Drop)]
pub(crate) struct Proposal {
    /// The traps, by number.
    pub(crate) targets: Vec<u32>,
    /// The prices of the atoms.
    pub(crate) prices: Vec<i64>,
}

/// The least box that holds all storage traps.
#[derive(Clone, Copy)]
struct Extent {
    low: Point,
    high: Point,
}

impl Extent {
    fn of(card: &Card) -> Extent {
        let mut low = Point {
            x: u32::MAX,
            y: u32::MAX,
        };
        let mut high = Point { x: 0, y: 0 };
        for zone in card.zones() {
            if zone.kind == ZoneKind::Storage {
                let right = zone
                    .x
                    .saturating_add(zone.columns.saturating_sub(1).saturating_mul(zone.dx));
                let top = zone
                    .y
                    .saturating_add(zone.rows.saturating_sub(1).saturating_mul(zone.dy));
                low = Point {
                    x: low.x.min(zone.x),
                    y: low.y.min(zone.y),
                };
                high = Point {
                    x: high.x.max(right),
                    y: high.y.max(top),
                };
            }
        }
        Extent { low, high }
    }

    /// The point of the box that is nearest to a point. To each trap in the box it is as much nearer as to every other.
    fn nearest(self, point: Point) -> Point {
        Point {
            x: point.x.max(self.low.x).min(self.high.x),
            y: point.y.max(self.low.y).min(self.high.y),
        }
    }
}

/// The storage traps, as leaving atoms see them.
#[derive(Drop)]
struct StorageMarket<'a> {
    card: &'a Card,
    world: &'a World<'a>,
    /// Which storage traps are taken.
    taken: Flags,
    /// The places of the classes of atoms: points of the storage's box.
    places: Vec<Point>,
    /// All of them have one y, so that the traps of a column of the card are one class.
    level: bool,
    /// The class of each x, or of each trap, of which a trap is taken.
    classes: BTreeMap<u32, usize>,
    /// Where the first trap of each class stands.
    xs: Vec<i32>,
    ys: Vec<i32>,
}

/// How far two places are apart on an axis.
fn apart(a: i32, b: i32) -> i32 {
    a.wrapping_sub(b).wrapping_abs()
}

impl Market for StorageMarket<'_> {
    fn cheapest(&self, row: usize) -> Option<(i32, u32)> {
        let place = self.places.get(row)?;
        if place.x > 1_000_000 || place.y > 1_000_000 {
            return None;
        }
        let found = self.world.nearest_free(*place, &self.taken)?;
        Some((i32::try_from(found.distance).ok()?, found.trap.0))
    }

    fn is_free(&self, column: u32) -> bool {
        (column as usize) < self.taken.count() && !self.taken.is_set(column)
    }

    fn take(&mut self, column: u32) -> Result<usize, Unsolved> {
        if column >= self.card.storage_traps() || column as usize >= self.taken.count() {
            return Err(Unsolved::GaveUp);
        }
        self.taken.set(column);
        laws_of_traps(self.card);
        let point = point_of(self.card, TrapId(column));
        let key = if self.level { point.x } else { column };
        if let Some(class) = self.classes.get(&key) {
            return Ok(*class);
        }
        let class = self.xs.len();
        self.classes.insert(key, class)?;
        self.xs.push(point.x.cast_signed())?;
        self.ys.push(point.y.cast_signed())?;
        Ok(class)
    }

    fn costs(&self, row: usize, into: &mut [i32]) {
        let Some(place) = self.places.get(row) else {
            return;
        };
        let x = place.x.cast_signed();
        let y = place.y.cast_signed();
        for (cost, (column_x, column_y)) in into
            .iter_mut()
            .zip(self.xs.iter().zip(self.ys.iter()))
        {
            *cost = apart(*column_x, x).wrapping_add(apart(*column_y, y));
        }
    }
}

/// The classes of leaving atoms: the places, and for each atom the number of its place.
#[derive(Drop)]
struct Places {
    points: Vec<Point>,
    classes: Vec<usize>,
}

/// Atoms whose nearest points of the storage's box are one point are of one class.
fn places_of(
    alloc: Global,
    card: &Card,
    world: &World<'_>,
    extent: Extent,
    leaving: &[u32],
) -> Result<Places, AllocError>
    requires card { world.now.architecture ≡ card.now }
    requires leaving { All (IsEntangling world.now) leaving.now }
{
    let mut numbers: BTreeMap<(u32, u32), usize> = BTreeMap::new(alloc);
    let mut points = Vec::new(alloc);
    let mut classes = Vec::with_capacity(alloc, leaving.len())?;
    for q in leaving {
        let point = extent.nearest(point_of(card, world.trap_of(*q)));
        let class = match numbers.get(&(point.x, point.y)) {
            Some(class) => *class,
            None => {
                let class = points.len();
                numbers.insert((point.x, point.y), class)?;
                points.push(point)?;
                class
            }
        };
        classes.push(class)?;
    }
    Ok(Places { points, classes })
}

/// The price of each atom: that of its class, and how far it is from the place of its class.
fn prices_of(
    alloc: Global,
    card: &Card,
    world: &World<'_>,
    extent: Extent,
    leaving: &[u32],
    classes: &[usize],
    solved: &Solved,
) -> Result<Vec<i64>, Unsolved>
    requires card { world.now.architecture ≡ card.now }
    requires leaving { All (IsEntangling world.now) leaving.now }
{
    let mut prices = Vec::with_capacity(alloc, leaving.len())?;
    for (q, class) in leaving.iter().zip(classes.iter()) {
        let point = point_of(card, world.trap_of(*q));
        let place = extent.nearest(point);
        let price = *solved.prices.get(*class).ok_or(Unsolved::GaveUp)?;
        let off = i64::from(point.x.abs_diff(place.x)) + i64::from(point.y.abs_diff(place.y));
        prices.push(i64::from(price) + off)?;
    }
    Ok(prices)
}

fn solved_returns(
    alloc: Global,
    card: &Card,
    world: &World<'_>,
    leaving: &[u32],
) -> Result<Proposal, Unsolved>
    requires card { world.now.architecture ≡ card.now }
    requires leaving { All (IsEntangling world.now) leaving.now }
{
    let extent = Extent::of(card);
    let Places { points, classes } = places_of(alloc, card, world, extent, leaving)?;
    let level = match points.as_slice() {
        [] => true,
        [first, rest @ ..] => rest.iter().all(|point| point.y == first.y),
    };
    let count = points.len();
    let mut market = StorageMarket {
        card,
        world,
        taken: Flags::none(alloc, card.storage_traps() as usize)?,
        places: points,
        level,
        classes: BTreeMap::new(alloc),
        xs: Vec::new(alloc),
        ys: Vec::new(alloc),
    };
    let solved = solve(alloc, &mut market, classes.as_slice(), count)?;
    let prices = prices_of(
        alloc,
        card,
        world,
        extent,
        leaving,
        classes.as_slice(),
        &solved,
    )?;
    let Solved { columns, .. } = solved;
    Ok(Proposal {
        targets: columns,
        prices,
    })
}

/// An empty storage trap for each of the leaving qubits, at little cost, and the prices that are to prove it least; none where the
/// search gave up. The card is the world's. The only error is that memory ran out.
pub(crate) fn propose_returns(
    alloc: Global,
    card: &Card,
    world: &World<'_>,
    leaving: &[u32],
) -> Result<Option<Proposal>, Memory>
    requires card { world.now.architecture ≡ card.now }
    requires leaving { All (IsEntangling world.now) leaving.now }
{
    match solved_returns(alloc, card, world, leaving) {
        Ok(proposal) => Ok(Some(proposal)),
        Err(Unsolved::GaveUp) => Ok(None),
        Err(Unsolved::Memory) => Err(Memory),
    }
}
