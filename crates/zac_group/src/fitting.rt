//! First fit: each move goes into the first group that it fits.

ghost use Rattle.std.specs.Prelude.{◌≡◌, ℕ, ◌+◌, ◌<◌, ◌≤◌, All, IfOk, OnOk, length, take, vec_len};
ghost use Rattle.zac_group.specs.FirstFit.{Fits};
ghost use Rattle.zac_group.specs.Fitting.{AddsTo, IsFitting, shifts_at};
ghost use Rattle.zac_group.specs.Members.{IsMembers, IsRoute, moves};

use crate::members::Members;
use crate::route::Route;
use std::alloc::Global;
use zac_arch::Card;
use zac_memory::Memory;

/// The number of the first group that a move fits, or that of a new group.
fn first_that_fits(card: &Card, groups: &[Members], route: Route) -> usize
    requires members { All (IsMembers card.now) groups.now }
    requires route { IsRoute card.now route }
    ensures within { result ≤ length groups.now }
    ensures passed { (n : ℕ) → n < result → ¬ Fits card.now (shifts_at groups.now n) route.shift }
    ensures fits { Fits card.now (shifts_at groups.now result) route.shift }
{
    for (number, group) in groups.iter().enumerate() {
        if group.fits(card, route) {
            return number;
        }
    }
    // An AOD has a row and a column at least.
    let _figures = card.figures();
    groups.len()
}

/// Adds a move to the group of a number, which may be a new one.
fn add_to(
    alloc: Global,
    card: &Card,
    groups: &mut Vec<Members>,
    number: usize,
    route: Route,
) -> Result<(), Memory>
    requires within { number ≤ vec_len groups.old }
    requires members { All (IsMembers card.now) groups.old.items }
    requires route { IsRoute card.now route }
    requires fits { Fits card.now (shifts_at groups.old.items number) route.shift }
    ensures members { OnOk result (All (IsMembers card.now) groups.new.items) }
    ensures adds { OnOk result (AddsTo groups.old.items groups.new.items number route.shift) }
{
    if number < groups.len() {
        let group = &mut groups[number];
        group.add(card, route)?;
    } else {
        groups.push(Members::of(alloc, card, route)?)?;
    }
    Ok(())
}

/// The groups of moves by first fit, each with its moves in the order in which they are taken.
pub fn first_fit(alloc: Global, card: &Card, ordered: &[Route]) -> Result<Vec<Members>, Memory>
    requires { All (IsRoute card.now) ordered.now }
    ensures { IfOk result (λ groups. IsFitting card.now (moves ordered.now) groups.items) }
{
    let mut groups = Vec::new(alloc);
    for route in ordered {
        let number = first_that_fits(card, groups.as_slice(), *route);
        add_to(alloc, card, &mut groups, number, *route)?;
    }
    Ok(groups)
}
