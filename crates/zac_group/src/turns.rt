//! The orders of routes.

ghost use Rattle.std.specs.Prelude.{◌≡◌, OnOk};
ghost use Rattle.std.specs.List.{AllPairs};
ghost use Rattle.std.specs.List.Sorted.{IsPermutation};
ghost use Rattle.zac_group.specs.Turns.{IsBySource, IsInTurn, length_of};

use crate::route::Route;
use std::cmp::Reverse;
use zac_memory::Memory;

impl Route {
    /// How far it goes in x and in y, added, in tenths of a micrometre.
    fn length(&self) -> u64
        ensures { result ≡ length_of self.now }
    {
        u64::from(self.from.x.abs_diff(self.to.x)) + u64::from(self.from.y.abs_diff(self.to.y))
    }
}

/// Puts routes in the order in which they are taken: the longest first, and of those as long the smaller qubit.
pub fn put_in_turn(routes: &mut Vec<Route>) -> Result<(), Memory>
    ensures permutes { IsPermutation routes.old.items routes.new.items }
    ensures turn { OnOk result (AllPairs IsInTurn routes.new.items) }
{
    routes.sort_by_key(|route| (Reverse(route.length()), route.shift.q))?;
    Ok(())
}

/// Puts routes in the order of their sources: the lowest row first, and each row from the left.
pub fn put_by_source(routes: &mut Vec<Route>) -> Result<(), Memory>
    ensures permutes { IsPermutation routes.old.items routes.new.items }
    ensures order { OnOk result (AllPairs IsBySource routes.new.items) }
{
    routes.sort_by_key(|route| (route.from.y, route.from.x))?;
    Ok(())
}
