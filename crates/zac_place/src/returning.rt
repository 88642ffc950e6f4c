//! The ways back to storage.

ghost use Rattle.std.specs.Prelude.{◌≡◌, ◌≢◌, ◌<◌, ◌≤◌, ℕ, IfOk, IfSome, Some, length, map, vec_len};
ghost use Rattle.std.specs.List.{All, AllPairs, Contains, slice_get};
ghost use Rattle.zac_arch.specs.Architecture.{storage_count, trap_count};
ghost use Rattle.zac_assign.specs.Assignment.{cost_at};
ghost use Rattle.zac_world.specs.Nearest.{trap_distance};
ghost use Rattle.zac_world.specs.Places.{empty_storage};
ghost use Rattle.zac_place.specs.Judged.{IsProved};
ghost use Rattle.zac_place.specs.Offers.{AreOffered, price_of};
ghost use Rattle.zac_place.specs.Placing.{IsPlacing, ProvesPlacing, IsLeastPlacing};
ghost use Rattle.zac_place.specs.Returns.{AreNear, IsEntangling, return_cost};
ghost use Rattle.zac_place.specs.Tables.{Tabulates};

use crate::judge::is_proved;
use crate::laws::prices_bound_every_placing;
use crate::offer::offered_traps;
use crate::offsets::distance;
use crate::placed::{Placed, place};
use crate::proposal::{Proposal, propose_returns};
use std::alloc::Global;
use zac_arch::{Card, TrapId};
use zac_assign::Costs;
use zac_gates::List;
use zac_memory::Memory;
use zac_world::World;

/// Sets the costs of a leaving atom that rests in this trap.
fn set_row(costs: &mut Costs, card: &Card, offered: &[u32], row: u32, from: TrapId)
    requires traps { All (λ t. t < storage_count card.now) offered.now }
    requires few { length offered.now ≤ storage_count card.now }
    requires from_in { from.0 < trap_count card.now }
    requires row_in { row < costs.old.rows }
    requires columns_are { costs.old.columns ≡ length offered.now }
    ensures rows { costs.new.rows ≡ costs.old.rows }
    ensures columns { costs.new.columns ≡ costs.old.columns }
    ensures row { (k t : ℕ) → slice_get offered.now k ≡ Some t →
        cost_at costs.new row k ≡ trap_distance card.now from.0 t }
    ensures others { (r k : ℕ) → r ≢ row → k < length offered.now → cost_at costs.new r k ≡ cost_at costs.old r k }
{
    let _rules = card.figures();
    for (column, trap) in offered.iter().enumerate() {
        costs.set(row, column as u32, distance(card, from, TrapId(*trap)));
    }
}

/// What each leaving atom pays at each offered trap.
fn return_costs(
    alloc: Global,
    card: &Card,
    world: &World<'_>,
    leaving: &[u32],
    offered: &[u32],
) -> Result<Costs, Memory>
    requires card { world.now.architecture ≡ card.now }
    requires leaving { All (IsEntangling world.now) leaving.now }
    requires few { length leaving.now ≤ storage_count card.now }
    requires traps { All (λ t. t < storage_count card.now) offered.now }
    requires some { length offered.now ≤ storage_count card.now }
    ensures { IfOk result (λ costs.
        Tabulates (return_cost world.now leaving.now) offered.now (length leaving.now) costs) }
{
    let _rules = card.figures();
    let mut costs = Costs::new(alloc, leaving.len() as u32, offered.len() as u32)?;
    for (row, q) in leaving.iter().enumerate() {
        set_row(&mut costs, card, offered, row as u32, world.trap_of(*q));
    }
    Ok(costs)
}

/// The prices of all empty storage traps, by rising number: those of the offered ones, and 0 of the others.
fn spread(
    alloc: Global,
    card: &Card,
    world: &World<'_>,
    offered: &[u32],
    prices: &[i64],
) -> Result<Vec<i64>, Memory>
    requires card { world.now.architecture ≡ card.now }
    requires rising { AllPairs (λ s t. s < t) offered.now }
    requires empty { All (Contains (empty_storage world.now)) offered.now }
    requires priced { length prices.now ≡ length offered.now }
    ensures { IfOk result (λ spread. spread.items
        ≡ map (price_of offered.now prices.now) (empty_storage world.now)) }
{
    let _rules = card.figures();
    let mut spread = Vec::new(alloc);
    let mut next = 0;
    for t in 0..card.storage_traps() {
        if world.atom_at(TrapId(t)).is_none() {
            if next < offered.len() && offered[next] == t {
                spread.push(prices[next])?;
                next += 1;
            } else {
                spread.push(0)?;
            }
        }
    }
    Ok(spread)
}

/// A placing among the traps that are weighed.
#[derive(Drop)]
struct Weighed {
    /// The traps that are weighed, by rising number.
    offered: Vec<u32>,
    /// The placing, with prices of the weighed traps.
    placed: Placed,
}

/// The placing over a table of all leaving atoms and all traps that are weighed.
fn placed_by_table(
    alloc: Global,
    card: &Card,
    world: &World<'_>,
    leaving: &[u32],
) -> Result<Weighed, Memory>
    requires card { world.now.architecture ≡ card.now }
    requires leaving { All (IsEntangling world.now) leaving.now }
    requires few { length leaving.now ≤ length (empty_storage world.now) }
    ensures rising { IfOk result (λ weighed. AllPairs (λ s t. s < t) weighed.offered.items) }
    ensures offered { IfOk result (λ weighed. AreOffered world.now leaving.now weighed.offered.items) }
    ensures placing { IfOk result (λ weighed.
        IsPlacing weighed.offered.items (length leaving.now) weighed.placed.targets) }
    ensures prices { IfOk result (λ weighed. ProvesPlacing (return_cost world.now leaving.now) weighed.offered.items
        (length leaving.now) weighed.placed.targets weighed.placed.row_price weighed.placed.column_price) }
{
    let _rules = card.figures();
    let offered = offered_traps(alloc, card, world, leaving)?;
    let costs = return_costs(alloc, card, world, leaving, offered.as_slice())?;
    let placed = place(alloc, offered.as_slice(), &costs)?;
    Ok(Weighed { offered, placed })
}

/// An empty storage trap for each of the leaving qubits, by trap number in the order of the argument, so that the
/// distances are least in all. The card is the world's; the qubits rest in entangling traps, and are no more than the empty
/// storage traps. Prices stand over all empty storage traps, by rising number. The only error is that memory ran out.
///
/// Each target is one of the nearest empty storage traps of some leaving qubit, of which one more than leaving qubits are
/// weighed. That is enough: of a qubit's nearest traps one at least is free in the end, its price is 0, and each trap that
/// isn't weighed is no nearer to the qubit than that one.
pub fn returns(
    alloc: Global,
    card: &Card,
    world: &World<'_>,
    leaving: &[u32],
) -> Result<Placed, Memory>
    requires card { world.now.architecture ≡ card.now }
    requires leaving { All (IsEntangling world.now) leaving.now }
    requires few { length leaving.now ≤ length (empty_storage world.now) }
    ensures placing { IfOk result (λ placed.
        IsPlacing (empty_storage world.now) (length leaving.now) placed.targets) }
    ensures prices { IfOk result (λ placed. ProvesPlacing (return_cost world.now leaving.now)
        (empty_storage world.now) (length leaving.now) placed.targets placed.row_price placed.column_price) }
    ensures least { IfOk result (λ placed. IsLeastPlacing (return_cost world.now leaving.now)
        (empty_storage world.now) (length leaving.now) placed.targets) }
    ensures near { IfOk result (λ placed. AreNear world.now leaving.now placed.targets) }
{
    prices_bound_every_placing();
    let Weighed { offered, placed } = placed_by_table(alloc, card, world, leaving)?;
    let Placed {
        targets,
        row_price,
        column_price,
    } = placed;
    let spread = spread(
        alloc,
        card,
        world,
        offered.as_slice(),
        column_price.as_slice(),
    )?;
    Ok(Placed {
        targets,
        row_price,
        column_price: List::of(spread),
    })
}

/// The targets of a proposal that its prices prove; none where there is no such one.
fn proved_targets(
    alloc: Global,
    card: &Card,
    world: &World<'_>,
    leaving: &[u32],
) -> Result<Option<List<u32>>, Memory>
    requires card { world.now.architecture ≡ card.now }
    requires leaving { All (IsEntangling world.now) leaving.now }
    ensures placing { IfOk result (λ some. IfSome some (λ targets.
        IsPlacing (empty_storage world.now) (length leaving.now) targets)) }
    ensures least { IfOk result (λ some. IfSome some (λ targets.
        IsLeastPlacing (return_cost world.now leaving.now) (empty_storage world.now) (length leaving.now) targets)) }
    ensures near { IfOk result (λ some. IfSome some (λ targets. AreNear world.now leaving.now targets)) }
{
    prices_bound_every_placing();
    let Some(proposal) = propose_returns(alloc, card, world, leaving)? else {
        return Ok(None);
    };
    if !is_proved(alloc, card, world, leaving, &proposal)? {
        return Ok(None);
    }
    let Proposal { targets, prices: _ } = proposal;
    Ok(Some(List::of(targets)))
}

/// The targets of the placing over a table.
fn table_targets(
    alloc: Global,
    card: &Card,
    world: &World<'_>,
    leaving: &[u32],
) -> Result<List<u32>, Memory>
    requires card { world.now.architecture ≡ card.now }
    requires leaving { All (IsEntangling world.now) leaving.now }
    requires few { length leaving.now ≤ length (empty_storage world.now) }
    ensures placing { IfOk result (λ targets.
        IsPlacing (empty_storage world.now) (length leaving.now) targets) }
    ensures least { IfOk result (λ targets. IsLeastPlacing (return_cost world.now leaving.now)
        (empty_storage world.now) (length leaving.now) targets) }
    ensures near { IfOk result (λ targets. AreNear world.now leaving.now targets) }
{
    prices_bound_every_placing();
    let Weighed { offered: _, placed } = placed_by_table(alloc, card, world, leaving)?;
    Ok(placed.targets)
}

/// The targets that [`returns`] answers, or others at the same cost: an empty storage trap for each of the leaving qubits,
/// by trap number in the order of the argument, so that the distances are least in all, each near to some qubit. The
/// requirements and the error are those of [`returns`].
///
/// A proposal is judged by its prices, in a time in the square of the number of the qubits; only where it isn't proved is
/// the table of [`returns`] made. Of the card's traps no more is done than to unmark them.
pub fn return_targets(
    alloc: Global,
    card: &Card,
    world: &World<'_>,
    leaving: &[u32],
) -> Result<List<u32>, Memory>
    requires card { world.now.architecture ≡ card.now }
    requires leaving { All (IsEntangling world.now) leaving.now }
    requires few { length leaving.now ≤ length (empty_storage world.now) }
    ensures placing { IfOk result (λ targets.
        IsPlacing (empty_storage world.now) (length leaving.now) targets) }
    ensures least { IfOk result (λ targets. IsLeastPlacing (return_cost world.now leaving.now)
        (empty_storage world.now) (length leaving.now) targets) }
    ensures near { IfOk result (λ targets. AreNear world.now leaving.now targets) }
{
    if let Some(targets) = proved_targets(alloc, card, world, leaving)? {
        return Ok(targets);
    }
    table_targets(alloc, card, world, leaving)
}
