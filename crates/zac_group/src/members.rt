//! The moves of a group while groups are made.

ghost use Rattle.std.specs.Prelude.{◌≡◌, ◌++◌, ◌↔◌, [], ◌∷◌, IfOk, IsTrue, OnOk};
ghost use Rattle.zac_group.specs.FirstFit.{Fits};
ghost use Rattle.zac_group.specs.Members.{IsMembers, IsRoute, column, moves, row};
ghost use Rattle.zac_group.specs.Tracks.{Takes};

use crate::route::{Route, Zones};
use crate::tracks::{Track, join, takes};
use std::alloc::Global;
use zac_arch::Card;
use zac_memory::Memory;

/// The moves of a group, with the tracks of its columns and rows, which rise: a move is tested by its neighbours among
/// them alone.
#[derive(Drop)]
pub struct Members {
    /// The moves, in the order in which they came.
    pub routes: Vec<Route>,
    /// The zones of each of them.
    pub zones: Zones,
    /// Where the columns of beams begin and end.
    pub columns: Vec<Track>,
    /// Where the rows of beams begin and end.
    pub rows: Vec<Track>,
}

impl Members {
    /// The group of one move.
    pub fn of(alloc: Global, card: &Card, route: Route) -> Result<Members, Memory>
        requires { IsRoute card.now route }
        ensures members { IfOk result (IsMembers card.now) }
        ensures moves { IfOk result (λ m. moves m.routes.items ≡ route.shift ∷ []) }
    {
        // An AOD has a row and a column at least.
        let _figures = card.figures();
        Ok(Members {
            routes: Vec::from_slice(alloc, &[route])?,
            zones: route.zones,
            columns: Vec::from_slice(alloc, &[route.column()])?,
            rows: Vec::from_slice(alloc, &[route.row()])?,
        })
    }

    /// Whether a move has the zones of these.
    fn has_zones_of(&self, route: Route) -> bool
        ensures { IsTrue result ↔ (self.now.zones ≡ route.zones) }
    {
        self.zones == route.zones
    }

    /// Whether the column of a move goes with those of these, and an AOD of the card has enough of them.
    fn takes_column(&self, card: &Card, route: Route) -> bool
        requires { IsMembers card.now self.now }
        ensures { IsTrue result ↔ Takes self.now.columns.items (column route) card.now.figures.columns }
    {
        let most = usize::from(card.figures().columns);
        takes(self.columns.as_slice(), route.column(), most)
    }

    /// Whether the row of a move goes with those of these, and an AOD of the card has enough of them.
    fn takes_row(&self, card: &Card, route: Route) -> bool
        requires { IsMembers card.now self.now }
        ensures { IsTrue result ↔ Takes self.now.rows.items (row route) card.now.figures.rows }
    {
        let most = usize::from(card.figures().rows);
        takes(self.rows.as_slice(), route.row(), most)
    }

    /// Whether a move is compatible with all of these, and an AOD of the card has beams enough for them and it.
    pub fn fits(&self, card: &Card, route: Route) -> bool
        requires members { IsMembers card.now self.now }
        requires route { IsRoute card.now route }
        ensures { IsTrue result ↔ Fits card.now (moves self.now.routes.items) route.shift }
    {
        if !self.has_zones_of(route) {
            return false;
        }
        if !self.takes_column(card, route) {
            return false;
        }
        self.takes_row(card, route)
    }

    /// Adds a move that fits.
    pub fn add(&mut self, card: &Card, route: Route) -> Result<(), Memory>
        requires members { IsMembers card.now self.old }
        requires route { IsRoute card.now route }
        requires fits { Fits card.now (moves self.old.routes.items) route.shift }
        ensures members { OnOk result (IsMembers card.now self.new) }
        ensures moves { OnOk result (moves self.new.routes.items ≡ moves self.old.routes.items ++ route.shift ∷ []) }
    {
        let _ = &card;
        join(&mut self.columns, route.column())?;
        join(&mut self.rows, route.row())?;
        self.routes.push(route)?;
        Ok(())
    }
}
