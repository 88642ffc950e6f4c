//! What is wrong with the atoms that a step lists.

ghost use Rattle.std.specs.Prelude.{◌≡◌, ◌<◌, ◌⊎◌, ◌↔◌, IsTrue, length};
ghost use Rattle.std.specs.List.{AllPairs, All, Any, Contains};
ghost use Rattle.zac_arch.specs.Architecture.{StandsAt};
ghost use Rattle.zac_arch.specs.declared.place.TrapId.{TrapId};
ghost use Rattle.zair_form.specs.declared.step.Beam.{Beam};
ghost use Rattle.zair_form.specs.declared.step.Caught.{Caught};
ghost use Rattle.zair_machine.specs.Crossings.{AreByRisingId, IsWrongPick};
ghost use Rattle.zair_state.specs.Legal.{Picks};
ghost use Rattle.zair_state.specs.Least.{IsLeastOf};
ghost use Rattle.zair_state.specs.State.{IsAt, IsFreeOfOthers};

use crate::beams::point_of;
use crate::counts::is_shared;
use crate::crossings::is_new;
use crate::least::lesser_if;
use crate::machine::Machine;
use zac_arch::{Point, TrapId, laws_of_traps};
use zair_form::{Beam, Caught};
use zair_state::Place;

/// Rows and columns.
#[derive(Clone, Copy)]
pub(crate) struct Listed<'b> {
    pub(crate) rows: &'b [Beam],
    pub(crate) columns: &'b [Beam],
}

impl<'a> Machine<'a> {
    /// Whether a trap stands at a point.
    pub(crate) fn stands_at(&self, t: TrapId, p: Point) -> bool
        ensures { IsTrue result ↔ StandsAt self.now.card t.0 p }
    {
        laws_of_traps(self.card());
        match self.trap_at(p) {
            Some(trap) => trap.0 == t.0,
            None => false,
        }
    }

    /// Whether a qubit rests in the trap that stands at a point.
    fn rests_at(&self, q: u32, p: Point) -> bool
        requires { q < length self.now.state.places }
        ensures { IsTrue result ↔ ((trap : TrapId) × IsAt self.now.state q (Place.Trap trap) × StandsAt self.now.card trap.0 p) }
    {
        match self.place(q) {
            Place::Trap(home) => self.stands_at(home, p),
            Place::Held { .. } => false,
        }
    }

    /// Whether an atom can be caught where a crossing stands: the crossing is new, the atom rests in the trap there, and
    /// no other AOD is near.
    fn picks_at(&self, aod: u8, rows: &[Beam], columns: &[Beam], c: Caught, p: Point) -> bool
        requires { c.q < length self.now.state.places }
        ensures { IsTrue result ↔ ((Any (λ b. b.id ≡ c.row) rows.now ⊎ Any (λ b. b.id ≡ c.column) columns.now)
            × ((trap : TrapId) × IsAt self.now.state c.q (Place.Trap trap) × StandsAt self.now.card trap.0 p)
            × IsFreeOfOthers self.now.card self.now.state aod p) }
    {
        if !is_new(rows, columns, c.row, c.column) {
            return false;
        }
        if !self.rests_at(c.q, p) {
            return false;
        }
        self.is_free(aod, p)
    }

    /// Whether an atom can be caught as it is listed, with the new beams and those after the step.
    fn picks(&self, aod: u8, new: &Listed<'_>, after: &Listed<'_>, c: Caught) -> bool
        requires known { c.q < length self.now.state.places }
        requires rows_rising { AllPairs (λ b d. b.id < d.id) after.now.rows.now }
        requires columns_rising { AllPairs (λ b d. b.id < d.id) after.now.columns.now }
        ensures { IsTrue result ↔ Picks self.now.card self.now.state aod new.now.rows.now new.now.columns.now after.now.rows.now after.now.columns.now c }
    {
        match point_of(after.rows, after.columns, c.row, c.column) {
            Some(p) => self.picks_at(aod, new.rows, new.columns, c, p),
            None => false,
        }
    }

    /// Whether a listed atom can't be caught, or more than one is counted at its crossing.
    fn is_wrong_pick(
        &self,
        aod: u8,
        new: &Listed<'_>,
        after: &Listed<'_>,
        c: Caught,
        counts: &[u8],
    ) -> bool
        requires known { c.q < length self.now.state.places }
        requires rows_rising { AreByRisingId after.now.rows.now }
        requires columns_rising { AreByRisingId after.now.columns.now }
        requires room { length counts.now ≡ 4096 }
        ensures { IsTrue result ↔ IsWrongPick self.now.card self.now.state aod new.now.rows.now new.now.columns.now after.now.rows.now after.now.columns.now counts.now c }
    {
        if !self.picks(aod, new, after, c) {
            return true;
        }
        is_shared(after.rows, after.columns, counts, c)
    }

    /// The least qubit of a listed atom that can't be caught, or at whose crossing more than one is counted.
    pub(crate) fn least_wrong_pick(
        &self,
        aod: u8,
        new: &Listed<'_>,
        after: &Listed<'_>,
        atoms: &[Caught],
        counts: &[u8],
    ) -> Option<u32>
        requires known { All (λ c. c.q < length self.now.state.places) atoms.now }
        requires rows_rising { AreByRisingId after.now.rows.now }
        requires columns_rising { AreByRisingId after.now.columns.now }
        requires room { length counts.now ≡ 4096 }
        ensures { IsLeastOf (λ q. Any (λ c. (c.q ≡ q)
            × IsWrongPick self.now.card self.now.state aod new.now.rows.now new.now.columns.now after.now.rows.now after.now.columns.now counts.now c) atoms.now) result }
    {
        let mut least = None;
        for c in atoms {
            least = lesser_if(least, self.is_wrong_pick(aod, new, after, *c, counts), c.q);
        }
        least
    }
}
