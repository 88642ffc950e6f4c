//! The sites of new gates.

ghost use Rattle.std.specs.Prelude.{◌≡◌, ◌≢◌, ◌<◌, ◌≤◌, ℕ, IfOk, length, map};
ghost use Rattle.std.specs.List.{All, AllPairs, slice_get};
ghost use Rattle.zac_arch.specs.Architecture.{site_count, trap_count};
ghost use Rattle.zac_assign.specs.Assignment.{cost_at};
ghost use Rattle.zac_place.specs.Placing.{IsLeastPlacing, IsPlacing, ProvesPlacing};
ghost use Rattle.zac_place.specs.Sites.{AreStored, site_cost, site_distance};
ghost use Rattle.zac_place.specs.Tables.{Tabulates, site_number};

use crate::ends::ends;
use crate::laws::prices_bound_every_placing;
use crate::offsets::distance;
use crate::placed::{Placed, place};
use std::alloc::Global;
use zac_arch::{Card, SiteId, TrapId};
use zac_assign::Costs;
use zac_memory::Memory;
use zac_world::World;

/// The numbers of sites.
fn numbers_of(alloc: Global, sites: &[SiteId]) -> Result<Vec<u32>, Memory>
    ensures { IfOk result (λ numbers. numbers.items ≡ map site_number sites.now) }
{
    let mut numbers = Vec::with_capacity(alloc, sites.len())?;
    for site in sites {
        numbers.push(site.0)?;
    }
    Ok(numbers)
}

/// How far traps are from those of a site, added: the first from the left trap, the second from the right one.
fn site_distance(card: &Card, ends: (TrapId, TrapId), site: SiteId) -> u32
    requires site_in { site.0 < site_count card.now }
    requires left_in { ends.0.0 < trap_count card.now }
    requires right_in { ends.1.0 < trap_count card.now }
    ensures distance { result ≡ site_distance card.now ends.0.0 ends.1.0 site.0 }
    ensures most { result ≤ 4000000 }
{
    let (left, right) = card.site_traps(site);
    distance(card, ends.0, left) + distance(card, ends.1, right)
}

/// Sets the costs of a gate whose atoms rest in these traps, that of the left qubit first.
fn set_row(costs: &mut Costs, card: &Card, free: &[SiteId], row: u32, ends: (TrapId, TrapId))
    requires sites { All (λ s. s.0 < site_count card.now) free.now }
    requires few { length free.now ≤ site_count card.now }
    requires left_in { ends.0.0 < trap_count card.now }
    requires right_in { ends.1.0 < trap_count card.now }
    requires row_in { row < costs.old.rows }
    requires columns_are { costs.old.columns ≡ length free.now }
    ensures rows { costs.new.rows ≡ costs.old.rows }
    ensures columns { costs.new.columns ≡ costs.old.columns }
    ensures row { (k site : ℕ) → slice_get (map site_number free.now) k ≡ Some site →
        cost_at costs.new row k ≡ site_distance card.now ends.0.0 ends.1.0 site }
    ensures others { (r k : ℕ) → r ≢ row → k < length free.now → cost_at costs.new r k ≡ cost_at costs.old r k }
{
    // Its contract says that the card keeps all rules.
    let _rules = card.figures();
    for (column, site) in free.iter().enumerate() {
        costs.set(row, column as u32, site_distance(card, ends, *site));
    }
}

/// What each gate pays at each free site.
fn site_costs(
    alloc: Global,
    card: &Card,
    world: &World<'_>,
    free: &[SiteId],
    gates: &[(u32, u32)],
) -> Result<Costs, Memory>
    requires card { world.now.architecture ≡ card.now }
    requires sites { All (λ s. s.0 < site_count card.now) free.now }
    requires some { length free.now ≤ site_count card.now }
    requires stored { All (AreStored world.now) gates.now }
    requires few { length gates.now ≤ length free.now }
    ensures { IfOk result (λ costs.
        Tabulates (site_cost world.now gates.now) (map site_number free.now) (length gates.now) costs) }
{
    // Its contract says that the card keeps all rules.
    let _rules = card.figures();
    let mut costs = Costs::new(alloc, gates.len() as u32, free.len() as u32)?;
    for (row, gate) in gates.iter().enumerate() {
        set_row(&mut costs, card, free, row as u32, ends(card, world, *gate));
    }
    Ok(costs)
}

/// A free site for each of the gates, by site number in the order of the gates, so that the distances of their atoms are
/// least in all. Of a gate's two qubits, the one whose trap has the smaller x goes to the left trap of the site, on equal
/// x the one whose trap has the smaller number. The card is the world's; the sites rise; the qubits rest in storage, and
/// the gates are no more than the sites. Prices stand over the free sites. The only error is that memory ran out.
pub fn gate_sites(
    alloc: Global,
    card: &Card,
    world: &World<'_>,
    free: &[SiteId],
    gates: &[(u32, u32)],
) -> Result<Placed, Memory>
    requires card { world.now.architecture ≡ card.now }
    requires rising { AllPairs (λ s t. s.0 < t.0) free.now }
    requires sites { All (λ s. s.0 < site_count card.now) free.now }
    requires stored { All (AreStored world.now) gates.now }
    requires few { length gates.now ≤ length free.now }
    ensures placing { IfOk result (λ placed.
        IsPlacing (map (λ s. s.0) free.now) (length gates.now) placed.targets) }
    ensures prices { IfOk result (λ placed. ProvesPlacing (site_cost world.now gates.now)
        (map (λ s. s.0) free.now) (length gates.now) placed.targets placed.row_price placed.column_price) }
    ensures least { IfOk result (λ placed. IsLeastPlacing (site_cost world.now gates.now)
        (map (λ s. s.0) free.now) (length gates.now) placed.targets) }
{
    prices_bound_every_placing();
    let offered = numbers_of(alloc, free)?;
    let costs = site_costs(alloc, card, world, free, gates)?;
    place(alloc, offered.as_slice(), &costs)
}
