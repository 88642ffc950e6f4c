//! The machine: a state that steps change.

ghost use Rattle.std.specs.Prelude.{◌≡◌, ℕ, ◌+◌, ◌*◌, ◌<◌, ◌↔◌, ◌≢◌, IsTrue, IfErr, MatchOption, OnOk, Some, length, slice_get};
ghost use Rattle.zac_arch.specs.Architecture.{StandsAt, IsLit};
ghost use Rattle.zac_arch.specs.Distances.{IsFarther};
ghost use Rattle.zair_state.specs.Faults.{active};
ghost use Rattle.zair_state.specs.FirstFault.{IsFirstFault};
ghost use Rattle.zair_machine.specs.Crossings.{crossing_number};
ghost use Rattle.zair_state.specs.Least.{IsLeastOf};
ghost use Rattle.zair_state.specs.Legal.{IsLegal};
ghost use Rattle.zair_state.specs.Result.{after};
ghost use Rattle.zair_state.specs.declared.place.Place.TheVariants.{Trap, Held};
ghost use Rattle.zair_state.specs.State.{IsAt, EachCrossing, crossing, IsFreeOfOthers, IsClear, beams_of};

use crate::aod::Aod;
use crate::beams::distance_to;
use std::marker::Model;
use zac_arch::{Card, Point, TrapId, within};
use zair_form::{Beam, Step};
use zair_state::{Axis, MachineFault, Place};

/// A machine with a card, which it borrows, and a state. Contracts see both.
///
/// Its state is sound: each atom is alone at its place, the beams of each AOD stand in order, and each crossing keeps
/// out of reach of the others and of every trap, but where it holds an atom over an empty one.
#[derive(Drop)]
pub struct Machine<'a> {
    pub(crate) card: &'a Card,
    pub(crate) places: Vec<Place>,
    pub(crate) aods: Vec<Aod>,
    /// For each trap with an atom the qubit; of another trap any number.
    pub(crate) in_traps: Vec<u32>,
    /// For each crossing with an atom, at the place of its number, the qubit; of another crossing any number.
    pub(crate) at_crossings: Vec<u32>,
}

impl<'a> Model for Machine<'a> {
    ghost use Rattle.zair_machine.specs.Machine.{Running, IsKept};

    ghost Value = { Running };

    ghost view = { λ m. record { card = m.card.now; state = record { places = m.places.items; aods = m.aods.items } } };

    ghost invariant = { λ m. IsKept m.card.now (record { places = m.places.items; aods = m.aods.items })
        m.in_traps.items m.at_crossings.items };
}

/// The number of the crossing of an AOD's row and column of these ids.
pub(crate) fn crossing_number(aod: u8, row: u8, column: u8) -> usize
    ensures number { result ≡ crossing_number aod row column }
    ensures below { result < aod * 65536 + 65536 }
    ensures ids { (row < 256) × (column < 256) }
{
    usize::from(aod) * 65536 + (usize::from(row) * 256 + usize::from(column))
}

/// The number at a place of a list.
fn number_at(numbers: &[u32], place: usize) -> Option<u32>
    ensures { result ≡ slice_get numbers.now place }
{
    numbers.get(place).copied()
}

/// Whether a point is farther than the reach from every crossing of an AOD: farther than that of the nearest row and
/// the nearest column.
fn is_far_from(aod: &Aod, reach: u32, p: Point) -> bool
    ensures { IsTrue result ↔ EachCrossing aod.now.rows aod.now.columns (λ row column. IsFarther reach p (crossing row column)) }
{
    match (
        distance_to(aod.columns(), p.x),
        distance_to(aod.rows(), p.y),
    ) {
        (Some(across), Some(up)) => !within(
            Point { x: 0, y: 0 },
            Point { x: across, y: up },
            reach,
        ),
        _ => true,
    }
}

impl<'a> Machine<'a> {
    /// The place of a qubit.
    pub fn place(&self, q: u32) -> Place
        requires { q < length self.now.state.places }
        ensures { IsAt self.now.state q result }
    {
        self.places[q as usize]
    }

    /// The active rows of an AOD, by rising id.
    pub fn rows(&self, aod: u8) -> &[Beam]
        requires { aod < length self.now.state.aods }
        ensures { result.now ≡ (beams_of self.now.state aod).rows }
    {
        self.aods[aod as usize].rows()
    }

    /// The active columns of an AOD, by rising id.
    pub fn columns(&self, aod: u8) -> &[Beam]
        requires { aod < length self.now.state.aods }
        ensures { result.now ≡ (beams_of self.now.state aod).columns }
    {
        self.aods[aod as usize].columns()
    }

    /// Does a step, if it is legal: the state is then the one after the step. Else the first fault is told, and the
    /// machine stays as it was. It takes no memory.
    ///
    /// Positions of beams are in tenths of a micrometre. The faults, in the order in which they are looked for:
    ///
    /// - `Unknown`: an AOD, a qubit or a trap that the machine doesn't have, the least number.
    /// - `Busy`: a beam that is listed twice, or is switched on and active.
    /// - `NotActive`: a beam that is moved or switched off and isn't active, an active beam that a move leaves out, or
    ///   one that a caught atom names and that isn't active after the step.
    /// - `Limit`: a beam with which the AOD has more rows or columns than the card allows, or past 1,000,000.
    /// - `Order`: a beam that doesn't stand above the one of next lower id.
    /// - `Gap`: a beam that stands above the one of next lower id by less than the card's gap.
    /// - `Touch`: a crossing of the AOD within reach of a trap, or of a crossing of another AOD; but for one that holds
    ///   or catches an atom exactly on a trap.
    /// - `PickWrong`: an atom that can't be caught as the step says, or is listed twice.
    /// - `DropWrong`: an atom that can't be dropped as the step says, is listed twice, or is left without beams.
    /// - `TrapFull`: a held atom that is moved onto a trap with an atom.
    /// - `PairWrong`: a pair that is listed twice, or isn't in range, or is in range and isn't listed.
    /// - `LitAlone`: an atom that a pulse lights and that is in no listed pair.
    /// - `NotAtRest`: an atom of a gate or a readout that is held.
    /// - `Crossing`: a crossing that a pulse lights.
    ///
    /// Of several things that break one condition the least is told: rows before columns, by id; crossings by AOD, then
    /// row, then column; qubits and pairs by number.
    pub fn step(&mut self, step: &Step) -> Result<(), MachineFault>
        ensures ok { OnOk result (IsLegal self.old.card self.old.state step.now
            × (self.new ≡ record { card = self.old.card; state = after self.old.state step.now })) }
        ensures err { IfErr result (λ fault. IsFirstFault self.old.card self.old.state step.now fault × (self.new ≡ self.old)) }
    {
        match self.first_fault(step) {
            Some(fault) => Err(fault),
            None => {
                self.apply(step);
                Ok(())
            }
        }
    }

    /// The active beams of an AOD along an axis, by rising id; none where the machine has no such AOD.
    pub(crate) fn active(&self, aod: u8, axis: Axis) -> &[Beam]
        ensures { result.now ≡ active self.now.state aod axis }
    {
        if self.aods.len() <= aod as usize {
            return &[];
        }
        match axis {
            Axis::Row => self.aods[aod as usize].rows(),
            Axis::Column => self.aods[aod as usize].columns(),
        }
    }

    /// The card.
    pub(crate) fn card(&self) -> &Card
        ensures { result.now ≡ self.now.card }
    {
        self.card
    }

    /// The trap that stands at a point.
    pub(crate) fn trap_at(&self, p: Point) -> Option<TrapId>
        ensures { MatchOption result ((t : ℕ) → ¬ StandsAt self.now.card t p) (λ t. StandsAt self.now.card t.0 p) }
    {
        self.card.trap_at(p)
    }

    /// Whether a pulse lights a point.
    pub(crate) fn lit(&self, p: Point) -> bool
        ensures { IsTrue result ↔ IsLit self.now.card p }
    {
        self.card.lit(p)
    }

    /// The distance within which a crossing touches a trap or another crossing.
    pub(crate) fn reach(&self) -> u32
        ensures { result ≡ self.now.card.figures.reach }
    {
        self.card.figures().reach
    }

    /// Whether a point is farther than the reach from every crossing of every other AOD.
    pub(crate) fn is_free(&self, aod: u8, p: Point) -> bool
        ensures { IsTrue result ↔ IsFreeOfOthers self.now.card self.now.state aod p }
    {
        let reach = self.reach();
        for k in 0..self.aods() {
            if !self.is_out_of_reach(k, aod, reach, p) {
                return false;
            }
        }
        true
    }

    /// Whether an AOD is this one, or a point is farther than the reach from all its crossings.
    fn is_out_of_reach(&self, k: usize, aod: u8, reach: u32, p: Point) -> bool
        requires { k < length self.now.state.aods }
        ensures { IsTrue result ↔ (k ≢ aod → EachCrossing (beams_of self.now.state k).rows (beams_of self.now.state k).columns
            (λ row column. IsFarther reach p (crossing row column))) }
    {
        k == aod as usize || is_far_from(&self.aods[k], reach, p)
    }

    /// Whether a point is free of other AODs, and farther than the reach from every trap.
    pub(crate) fn is_clear(&self, aod: u8, p: Point) -> bool
        ensures { IsTrue result ↔ IsClear self.now.card self.now.state aod p }
    {
        if !self.card().is_off_traps(p) {
            return false;
        }
        self.is_free(aod, p)
    }

    /// Whether a qubit is at a place.
    fn is_at(&self, q: u32, place: Place) -> bool
        ensures { IsTrue result ↔ IsAt self.now.state q place }
    {
        let _ = &self.card;
        (q as usize) < self.places.len() && self.places[q as usize] == place
    }

    /// The number that the index of traps has for a trap. It is the qubit there, if there is one.
    fn noted_in(&self, t: TrapId) -> Option<u32>
        ensures { (q : ℕ) → IsAt self.now.state q (Trap t) → result ≡ Some q }
    {
        let _ = &self.card;
        number_at(self.in_traps.as_slice(), t.0 as usize)
    }

    /// The number that the index of crossings has for a crossing. It is the qubit there, if there is one.
    fn noted_at(&self, aod: u8, row: u8, column: u8) -> Option<u32>
        ensures { (q : ℕ) → IsAt self.now.state q (Held aod row column) → result ≡ Some q }
    {
        let _ = &self.card;
        number_at(
            self.at_crossings.as_slice(),
            crossing_number(aod, row, column),
        )
    }

    /// The number that an index has for a place. It is the qubit there, if there is one.
    fn noted(&self, place: Place) -> Option<u32>
        ensures { (q : ℕ) → IsAt self.now.state q place → result ≡ Some q }
    {
        match place {
            Place::Trap(t) => self.noted_in(t),
            Place::Held { aod, row, column } => self.noted_at(aod, row, column),
        }
    }

    /// The qubit at a place.
    pub(crate) fn atom_at(&self, place: Place) -> Option<u32>
        ensures { MatchOption result ((q : ℕ) → ¬ IsAt self.now.state q place) (λ q. IsAt self.now.state q place) }
    {
        match self.noted(place) {
            None => None,
            Some(q) => { if self.is_at(q, place) { Some(q) } else { None } }
        }
    }

    /// The qubit whose atom a crossing of an AOD holds, where a test is passed.
    pub(crate) fn held_if(&self, test: bool, aod: u8, row: u8, column: u8) -> Option<u32>
        ensures { IsLeastOf (λ q. IsTrue test × IsAt self.now.state q (Held aod row column)) result }
    {
        let _sound = self.most_beams();
        if !test {
            return None;
        }
        self.atom_at(Place::Held { aod, row, column })
    }
}
