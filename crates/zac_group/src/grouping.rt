//! Groups of moves, and how they are made.

ghost use Rattle.std.specs.Prelude.{◌≡◌, ℕ, ◌<◌, All, IfOk, length};
ghost use Rattle.std.specs.List.{AllPairs};
ghost use Rattle.std.specs.List.Sorted.{IsPermutation};
ghost use Rattle.zac_group.specs.FirstFit.{IsGrouping, IsTakenBefore};
ghost use Rattle.zac_group.specs.Fitting.{shifts_at};
ghost use Rattle.zac_group.specs.Groups.{IsGroup, IsPhase};
ghost use Rattle.zac_group.specs.Made.{AreMadeOf};
ghost use Rattle.zac_group.specs.Members.{IsMembers, IsRoute, moves};
ghost use Rattle.zac_group.specs.Turns.{IsBySource};

use crate::fitting::first_fit;
use crate::members::Members;
use crate::route::{Route, routes_of};
use crate::shift::Shift;
use crate::turns::{put_by_source, put_in_turn};
use std::alloc::Global;
use std::marker::Model;
use zac_arch::{Card, laws_of_traps};
use zac_gates::List;
use zac_memory::Memory;

/// Moves that one AOD makes together, on their card.
///
/// There is at least one. Their qubits, sources and targets are distinct, each goes between a storage and an entangling
/// zone, any two are compatible, and they have no more distinct source y values than the card's rows and no more
/// distinct source x values than its columns.
#[derive(Drop)]
pub struct Group<'a> {
    card: &'a Card,
    shifts: Vec<Shift>,
}

impl<'a> Model for Group<'a> {
    ghost use Rattle.zac_group.specs.Groups.{MoveGroup, IsGroup};

    ghost Value = { MoveGroup };

    ghost view = { λ g. record { card = g.card.now; shifts = g.shifts.items } };

    ghost invariant = { λ g. IsGroup (record { card = g.card.now; shifts = g.shifts.items }) };
}

impl Group<'_> {
    /// The moves, by source y, then source x.
    pub fn shifts(&self) -> &[Shift]
        ensures shifts { result.now ≡ self.now.shifts }
        ensures group { IsGroup self.now }
    {
        let _ = &self.card;
        self.shifts.as_slice()
    }
}

/// The moves of routes.
fn shifts_of(alloc: Global, routes: &[Route]) -> Result<Vec<Shift>, Memory>
    ensures { IfOk result (λ shifts. shifts.items ≡ moves routes.now) }
{
    let mut shifts = Vec::with_capacity(alloc, routes.len())?;
    for route in routes {
        shifts.push(route.shift)?;
    }
    Ok(shifts)
}

/// The moves of a group in the order of their sources.
fn in_order(alloc: Global, routes: &[Route]) -> Result<Vec<Route>, Memory>
    ensures permutes { IfOk result (λ ordered. IsPermutation routes.now ordered.items) }
    ensures order { IfOk result (λ ordered. AllPairs IsBySource ordered.items) }
{
    let mut ordered = Vec::from_slice(alloc, routes)?;
    put_by_source(&mut ordered)?;
    Ok(ordered)
}

/// The group of these moves.
fn group_of<'a>(alloc: Global, card: &'a Card, members: &Members) -> Result<Group<'a>, Memory>
    requires members { IsMembers card.now members.now }
    requires phase { IsPhase card.now (moves members.now.routes.items) }
    ensures card { IfOk result (λ g. g.card ≡ card.now) }
    ensures shifts { IfOk result (λ g. IsPermutation (moves members.now.routes.items) g.shifts) }
    ensures group { IfOk result (λ g. IsGroup g) }
{
    laws_of_traps(card);
    let routes = in_order(alloc, members.routes.as_slice())?;
    let shifts = shifts_of(alloc, routes.as_slice())?;
    Ok(Group { card, shifts })
}

/// The groups of all these moves.
fn groups_of<'a>(
    alloc: Global,
    card: &'a Card,
    fitted: &[Members],
) -> Result<Vec<Group<'a>>, Memory>
    requires members { All (IsMembers card.now) fitted.now }
    requires phases { (n : ℕ) → n < length fitted.now → IsPhase card.now (shifts_at fitted.now n) }
    ensures { IfOk result (λ groups. AreMadeOf card.now fitted.now (length fitted.now) groups.items) }
{
    let mut groups = Vec::with_capacity(alloc, fitted.len())?;
    for members in fitted {
        groups.push(group_of(alloc, card, members)?)?;
    }
    Ok(groups)
}

/// The routes of the moves of a phase, in the order in which they are taken.
fn taken_routes(alloc: Global, card: &Card, shifts: &[Shift]) -> Result<Vec<Route>, Memory>
    requires { IsPhase card.now shifts.now }
    ensures routes { IfOk result (λ routes. All (IsRoute card.now) routes.items) }
    ensures permutes { IfOk result (λ routes. IsPermutation shifts.now (moves routes.items)) }
    ensures order { IfOk result (λ routes. AllPairs (IsTakenBefore card.now) (moves routes.items)) }
{
    laws_of_traps(card);
    let mut routes = routes_of(alloc, card, shifts)?;
    put_in_turn(&mut routes)?;
    Ok(routes)
}

/// The groups of the moves of a phase by first fit: the moves are taken by falling distance `|dx| + |dy|`, then qubit
/// number, and each goes into the first group whose moves are all compatible with it and which with it has no more
/// distinct source y values than the card's rows and source x values than its columns; else it begins a new group.
///
/// The qubits, the sources and the targets are distinct, and each move goes between a storage and an entangling zone.
/// The only error is that memory ran out.
pub fn groups<'a>(
    alloc: Global,
    card: &'a Card,
    shifts: List<Shift>,
) -> Result<List<Group<'a>>, Memory>
    requires phase { IsPhase card.now shifts }
    ensures grouping { IfOk result (λ groups. IsGrouping card.now shifts groups) }
{
    let routes = taken_routes(alloc, card, shifts.as_slice())?;
    let fitted = first_fit(alloc, card, routes.as_slice())?;
    let groups = groups_of(alloc, card, fitted.as_slice())?;
    Ok(List::of(groups))
}
