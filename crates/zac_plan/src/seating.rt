//! How the atoms of a pulse come together at the sites.

ghost use Rattle.std.specs.Prelude.{◌≡◌, ◌+◌, ◌*◌, ◌^◌, ◌<◌, ◌≤◌, ◌++◌, All, IfOk, IsTrue, OnOk, length, map};
ghost use Rattle.std.specs.List.{flat_map};
ghost use Rattle.std.specs.Option.{option_to_list};
ghost use Rattle.zac_arch.specs.Architecture.{site_count, storage_count, trap_count};
ghost use Rattle.zac_place.specs.Sites.{comes_before, left_qubit, right_qubit};
ghost use Rattle.zac_plan.specs.Growth.{GrowsByArrivals};
ghost use Rattle.zac_plan.specs.Plan.{completing, ends_of, free_sites, held_gates, is_at_site, is_free, is_held, new_gates, other_trap, shift_to, to_sites};
ghost use Rattle.zac_plan.specs.Seats.{CanArrive, HasQubitsBelow, rests_in};

use crate::agenda::Agenda;
use crate::shifts::put_all;
use std::alloc::Global;
use zac_arch::{Card, SiteId, TrapId};
use zac_gates::{List, Memory};
use zac_group::Shift;
use zac_place::gate_sites;
use zac_world::World;
use zair_form::PairOf;

/// Whether a qubit rests at a site.
fn is_at_site(card: &Card, world: &World<'_>, q: u32) -> bool
    requires below { q < length world.now.traps }
    ensures { result ≡ is_at_site card.now (rests_in world.now) q }
{
    card.storage_traps() <= world.trap_of(q).0
}

/// Whether an atom of a gate has stayed at a site.
fn is_held(card: &Card, world: &World<'_>, pair: &PairOf) -> bool
    requires below { HasQubitsBelow (length world.now.traps) pair.now }
    ensures { result ≡ is_held card.now (rests_in world.now) pair.now }
{
    is_at_site(card, world, pair.a) || is_at_site(card, world, pair.b)
}

/// The gates of a pulse of which no atom has stayed at a site.
fn new_gates(
    alloc: Global,
    card: &Card,
    world: &World<'_>,
    pairs: &[PairOf],
) -> Result<Vec<PairOf>, Memory>
    requires its_card { world.now.architecture ≡ card.now }
    requires below { All (HasQubitsBelow (length world.now.traps)) pairs.now }
    ensures new { IfOk result (λ new. new.items ≡ new_gates card.now (rests_in world.now) pairs.now) }
{
    let mut new = Vec::with_capacity(alloc, pairs.len())?;
    for pair in pairs {
        if !is_held(card, world, pair) {
            new.push(*pair)?;
        }
    }
    Ok(new)
}

/// The two qubits of each pair.
fn ends_of(alloc: Global, pairs: &[PairOf]) -> Result<Vec<(u32, u32)>, Memory>
    ensures ends { IfOk result (λ ends. ends.items ≡ ends_of pairs.now) }
{
    Ok(pairs.iter().map(|pair| (pair.a, pair.b)).collect(alloc)?)
}

/// Whether no atom rests at a site.
fn is_free(card: &Card, world: &World<'_>, site: SiteId) -> bool
    requires its_card { world.now.architecture ≡ card.now }
    requires in_card { site.0 < site_count card.now }
    ensures { result ≡ is_free card.now (rests_in world.now) site.0 }
{
    let (left, right) = card.site_traps(site);
    world.atom_at(left).is_none() && world.atom_at(right).is_none()
}

/// The sites at which no atom rests, by rising number.
fn free_sites(alloc: Global, card: &Card, world: &World<'_>) -> Result<Vec<SiteId>, Memory>
    requires its_card { world.now.architecture ≡ card.now }
    ensures free { IfOk result (λ free. map (λ s. s.0) free.items ≡ free_sites card.now (rests_in world.now)) }
{
    let sites = card.sites();
    let mut free = Vec::with_capacity(alloc, sites as usize)?;
    for site in 0..sites {
        if is_free(card, world, SiteId(site)) {
            free.push(SiteId(site))?;
        }
    }
    Ok(free)
}

/// The move of a qubit from where it rests to a trap.
fn shift_to(world: &World<'_>, q: u32, to: TrapId) -> Shift
    requires below { q < length world.now.traps }
    ensures { result ≡ shift_to (rests_in world.now) q to }
{
    Shift {
        q,
        from: world.trap_of(q),
        to,
    }
}

/// The other trap of the site that an entangling trap belongs to.
fn other_trap(card: &Card, t: TrapId) -> TrapId
    requires entangling { storage_count card.now ≤ t.0 }
    requires in_card { t.0 < trap_count card.now }
    ensures { result ≡ other_trap card.now t }
{
    let (left, right) = card.site_traps(card.site_of(t).unwrap());
    if t == left { right } else { left }
}

/// The move that completes a held gate; none where both of its atoms rest at the site.
fn complete(card: &Card, world: &World<'_>, pair: &PairOf) -> Option<Shift>
    requires its_card { world.now.architecture ≡ card.now }
    requires below { HasQubitsBelow (length world.now.traps) pair.now }
    requires held { IsTrue (is_held card.now (rests_in world.now) pair.now) }
    ensures { option_to_list result ≡ completing card.now (rests_in world.now) pair.now }
{
    let (stayed, other) = if is_at_site(card, world, pair.a) {
        (pair.a, pair.b)
    } else {
        (pair.b, pair.a)
    };
    let shift = shift_to(world, other, other_trap(card, world.trap_of(stayed)));
    (shift.from != shift.to).then_some(shift)
}

/// The moves that complete the held gates of a pulse.
fn complete_held(
    alloc: Global,
    card: &Card,
    world: &World<'_>,
    pairs: &[PairOf],
) -> Result<Vec<Shift>, Memory>
    requires its_card { world.now.architecture ≡ card.now }
    requires below { All (HasQubitsBelow (length world.now.traps)) pairs.now }
    ensures shifts { IfOk result (λ shifts. shifts.items
        ≡ flat_map (completing card.now (rests_in world.now)) (held_gates card.now (rests_in world.now) pairs.now)) }
{
    let mut shifts = Vec::new(alloc);
    for pair in pairs {
        if is_held(card, world, pair) {
            shifts.extend(complete(card, world, pair))?;
        }
    }
    Ok(shifts)
}

/// Whether a trap comes before another: it stands at a smaller x, or at the same x and has the smaller number.
fn comes_before(card: &Card, t: TrapId, u: TrapId) -> bool
    requires first { t.0 < trap_count card.now }
    requires second { u.0 < trap_count card.now }
    ensures { result ≡ comes_before card.now t.0 u.0 }
{
    let first = card.point(t).x;
    let second = card.point(u).x;
    first < second || (first == second && t.0 < u.0)
}

/// The qubit of a new gate that goes to the left trap of a site, and the one that goes to the right trap.
fn sides(card: &Card, world: &World<'_>, pair: &PairOf) -> (u32, u32)
    requires its_card { world.now.architecture ≡ card.now }
    requires below { HasQubitsBelow (length world.now.traps) pair.now }
    ensures left { result.0 ≡ left_qubit world.now (pair.now.a, pair.now.b) }
    ensures right { result.1 ≡ right_qubit world.now (pair.now.a, pair.now.b) }
    ensures left_below { result.0 < length world.now.traps }
    ensures right_below { result.1 < length world.now.traps }
{
    if comes_before(card, world.trap_of(pair.a), world.trap_of(pair.b)) {
        (pair.a, pair.b)
    } else {
        (pair.b, pair.a)
    }
}

/// Adds the moves that bring new gates to these sites.
fn to_sites(
    card: &Card,
    world: &World<'_>,
    new: &[PairOf],
    sites: &[u32],
    shifts: &mut Vec<Shift>,
) -> Result<(), Memory>
    requires its_card { world.now.architecture ≡ card.now }
    requires below { All (HasQubitsBelow (length world.now.traps)) new.now }
    requires each { length sites.now ≡ length new.now }
    requires sites { All (λ s. s < site_count card.now) sites.now }
    ensures added { OnOk result (shifts.new.items ≡ shifts.old.items ++ to_sites card.now (rests_in world.now) new.now sites.now) }
{
    shifts.reserve(2 * new.len())?;
    for (pair, site) in new.iter().zip(sites.iter()) {
        let (left, right) = card.site_traps(SiteId(*site));
        let (first, second) = sides(card, world, pair);
        shifts.push(shift_to(world, first, left))?;
        shifts.push(shift_to(world, second, right))?;
    }
    Ok(())
}

impl<'a> Agenda<'a> {
    /// Adds the jobs that bring the atoms of a pulse together, and makes their moves in the world: gates of which an atom
    /// has stayed at a site are completed there, and the others go to free sites.
    pub fn add_arrivals(
        &mut self,
        alloc: Global,
        card: &'a Card,
        world: &mut World<'_>,
        pairs: &[PairOf],
    ) -> Result<(), Memory>
        requires its_card { world.old.architecture ≡ card.now }
        requires can_arrive { CanArrive card.now (rests_in world.old) pairs.now }
        ensures ok { OnOk result (GrowsByArrivals card.now pairs.now self.old self.new world.old world.new) }
    {
        let new = new_gates(alloc, card, world, pairs)?;
        let free = free_sites(alloc, card, world)?;
        let placed = gate_sites(alloc, card, world, &free, &ends_of(alloc, &new)?)?;
        let mut shifts = complete_held(alloc, card, world, pairs)?;
        to_sites(card, world, &new, placed.targets.as_slice(), &mut shifts)?;
        put_all(world, &shifts);
        self.add_jobs(alloc, card, List::of(shifts))
    }
}
