//! Each condition of a step in turn.

ghost use Rattle.std.specs.Prelude.{◌≡◌, ◌<◌, ◌⊎◌, ℕ, MatchOption};
ghost use Rattle.std.specs.List.{AllPairs};
ghost use Rattle.zac_arch.specs.declared.place.TrapId.{TrapId};
ghost use Rattle.zair_machine.specs.Crossings.{AreByRisingId};
ghost use Rattle.zair_state.specs.Faults.{beams_after, IsPickWrong, IsDropWrong, IsLitAlone, IsTrapFull};
ghost use Rattle.zair_state.specs.Least.{IsLeastOf};
ghost use Rattle.zair_state.specs.FirstFault.{Breaks, IsFirstFault, AreMetBefore, Tells};
ghost use Rattle.zair_state.specs.Legal.{IsLegal};

use crate::counts::{MOST_CROSSINGS, count_caught};
use crate::least::lesser;
use crate::machine::Machine;
use crate::picks::Listed;
use zac_arch::TrapId;
use zair_form::{Beam, Step};
use zair_state::{Axis, MachineFault, faults_tell_legal_steps};

impl<'a> Machine<'a> {
    /// The least unknown number, as a fault.
    fn tell_unknown(&self, step: &Step) -> Option<MachineFault>
        ensures { Tells self.now.card self.now.state step.now 0 result }
    {
        match self.unknown(step) {
            Some(number) => Some(MachineFault::Unknown { number }),
            None => None,
        }
    }

    /// The first busy beam, as a fault.
    fn tell_busy(&self, step: &Step) -> Option<MachineFault>
        ensures { Tells self.now.card self.now.state step.now 1 result }
    {
        match self.busy(step) {
            Some(beam) => Some(MachineFault::Busy { beam }),
            None => None,
        }
    }

    /// The first beam that isn't active, as a fault.
    fn tell_not_active(&self, step: &Step) -> Option<MachineFault>
        ensures { Tells self.now.card self.now.state step.now 2 result }
    {
        match self.not_active(step) {
            Some(beam) => Some(MachineFault::NotActive { beam }),
            None => None,
        }
    }

    /// The first beam past a limit, as a fault.
    fn tell_limit(&self, step: &Step) -> Option<MachineFault>
        ensures { Tells self.now.card self.now.state step.now 3 result }
    {
        match self.past_limit(step) {
            Some(beam) => Some(MachineFault::Limit { beam }),
            None => None,
        }
    }

    /// The first fault of a step's numbers and listed beams.
    fn tell_beams(&self, step: &Step) -> Option<MachineFault>
        ensures { MatchOption result (AreMetBefore self.now.card self.now.state step.now 4) (IsFirstFault self.now.card self.now.state step.now) }
    {
        if let Some(fault) = self.tell_unknown(step) {
            return Some(fault);
        }
        if let Some(fault) = self.tell_busy(step) {
            return Some(fault);
        }
        if let Some(fault) = self.tell_not_active(step) {
            return Some(fault);
        }
        self.tell_limit(step)
    }

    /// The first beam out of order, as a fault.
    fn tell_order(&self, step: &Step, rows: &[Beam], columns: &[Beam]) -> Option<MachineFault>
        requires rows_after { rows.now ≡ beams_after self.now.state step.now Axis.Row }
        requires columns_after { columns.now ≡ beams_after self.now.state step.now Axis.Column }
        ensures { Tells self.now.card self.now.state step.now 4 result }
    {
        match self.out_of_order(step, rows, columns) {
            Some(beam) => Some(MachineFault::Order { beam }),
            None => None,
        }
    }

    /// The first beam too near, as a fault.
    fn tell_gap(&self, step: &Step, rows: &[Beam], columns: &[Beam]) -> Option<MachineFault>
        requires rows_after { rows.now ≡ beams_after self.now.state step.now Axis.Row }
        requires columns_after { columns.now ≡ beams_after self.now.state step.now Axis.Column }
        ensures { Tells self.now.card self.now.state step.now 5 result }
    {
        match self.too_near(step, rows, columns) {
            Some(beam) => Some(MachineFault::Gap { beam }),
            None => None,
        }
    }

    /// The first crossing that touches, as a fault.
    fn tell_touch(&self, step: &Step, rows: &[Beam], columns: &[Beam]) -> Option<MachineFault>
        requires rows_after { rows.now ≡ beams_after self.now.state step.now Axis.Row }
        requires columns_after { columns.now ≡ beams_after self.now.state step.now Axis.Column }
        requires rows_rising { AreByRisingId rows.now }
        requires columns_rising { AreByRisingId columns.now }
        ensures { Tells self.now.card self.now.state step.now 6 result }
    {
        match self.touch(step, rows, columns) {
            Some((row, column)) => Some(MachineFault::Touch { row, column }),
            None => None,
        }
    }

    /// The least qubit that can't be caught as a step says.
    fn wrong_pick(&self, step: &Step, rows: &[Beam], columns: &[Beam]) -> Option<u32>
        requires met { AreMetBefore self.now.card self.now.state step.now 6 }
        requires rows_after { rows.now ≡ beams_after self.now.state step.now Axis.Row }
        requires columns_after { columns.now ≡ beams_after self.now.state step.now Axis.Column }
        requires rows_rising { AreByRisingId rows.now }
        requires columns_rising { AreByRisingId columns.now }
        ensures { IsLeastOf (IsPickWrong self.now.card self.now.state step.now) result }
    {
        let _least = self.gap();
        let after = Listed { rows, columns };
        match step {
            Step::Activate {
                aod,
                rows,
                columns,
                atoms,
            } => {
                let new = Listed {
                    rows: rows.as_slice(),
                    columns: columns.as_slice(),
                };
                let atoms = atoms.as_slice();
                let mut counts = [0u8; MOST_CROSSINGS];
                count_caught(after.rows, after.columns, atoms, &mut counts);
                self.least_wrong_pick(*aod, &new, &after, atoms, &counts)
            }
            _ => None,
        }
    }

    /// The least qubit that can't be dropped as a step says.
    fn wrong_drop(&self, step: &Step) -> Option<u32>
        requires met { AreMetBefore self.now.card self.now.state step.now 1 }
        ensures { IsLeastOf (IsDropWrong self.now.card self.now.state step.now) result }
    {
        match step {
            Step::Deactivate {
                aod,
                rows,
                columns,
                atoms,
            } => {
                let (rows, columns, atoms) = (
                    rows.as_slice(),
                    columns.as_slice(),
                    atoms.as_slice(),
                );
                let _sound = self.most_beams();
                let mut counts = [0u8; MOST_CROSSINGS];
                self.count_dropped(*aod, atoms, &mut counts);
                lesser(
                    self.least_left_behind(*aod, rows, columns, &counts),
                    self.least_wrong_drop(*aod, rows, columns, atoms, &counts),
                )
            }
            _ => None,
        }
    }

    /// The least qubit that a pulse lights alone.
    fn lit_alone(&self, step: &Step) -> Option<u32>
        requires met { AreMetBefore self.now.card self.now.state step.now 11 }
        ensures { IsLeastOf (IsLitAlone self.now.card self.now.state step.now) result }
    {
        match step {
            Step::Pulse { .. } => {
                let _sound = self.most_beams();
                self.site_laws();
                self.least_alone_at_site()
            }
            _ => None,
        }
    }

    /// The least qubit that is lit alone, as a fault.
    fn tell_lit_alone(&self, step: &Step) -> Option<MachineFault>
        requires met { AreMetBefore self.now.card self.now.state step.now 11 }
        ensures { Tells self.now.card self.now.state step.now 11 result }
    {
        match self.lit_alone(step) {
            Some(q) => Some(MachineFault::LitAlone { q }),
            None => None,
        }
    }

    /// The least qubit that can't be dropped, as a fault.
    fn tell_drop(&self, step: &Step) -> Option<MachineFault>
        requires met { AreMetBefore self.now.card self.now.state step.now 1 }
        ensures { Tells self.now.card self.now.state step.now 8 result }
    {
        match self.wrong_drop(step) {
            Some(q) => Some(MachineFault::DropWrong { q }),
            None => None,
        }
    }

    /// The least qubit that can't be caught, as a fault.
    fn tell_pick(&self, step: &Step, rows: &[Beam], columns: &[Beam]) -> Option<MachineFault>
        requires met { AreMetBefore self.now.card self.now.state step.now 6 }
        requires rows_after { rows.now ≡ beams_after self.now.state step.now Axis.Row }
        requires columns_after { columns.now ≡ beams_after self.now.state step.now Axis.Column }
        requires rows_rising { AreByRisingId rows.now }
        requires columns_rising { AreByRisingId columns.now }
        ensures { Tells self.now.card self.now.state step.now 7 result }
    {
        match self.wrong_pick(step, rows, columns) {
            Some(q) => Some(MachineFault::PickWrong { q }),
            None => None,
        }
    }

    /// The first fault of a step's beams and crossings, once its numbers and listed beams are right.
    fn tell_crossings(&self, step: &Step, rows: &[Beam], columns: &[Beam]) -> Option<MachineFault>
        requires met { AreMetBefore self.now.card self.now.state step.now 4 }
        requires rows_after { rows.now ≡ beams_after self.now.state step.now Axis.Row }
        requires columns_after { columns.now ≡ beams_after self.now.state step.now Axis.Column }
        requires rows_rising { AreByRisingId rows.now }
        requires columns_rising { AreByRisingId columns.now }
        ensures { MatchOption result (AreMetBefore self.now.card self.now.state step.now 8) (IsFirstFault self.now.card self.now.state step.now) }
    {
        if let Some(fault) = self.tell_order(step, rows, columns) {
            return Some(fault);
        }
        if let Some(fault) = self.tell_gap(step, rows, columns) {
            return Some(fault);
        }
        if let Some(fault) = self.tell_touch(step, rows, columns) {
            return Some(fault);
        }
        self.tell_pick(step, rows, columns)
    }

    /// The first wrong pair, as a fault.
    fn tell_pair(&self, step: &Step) -> Option<MachineFault>
        requires met { AreMetBefore self.now.card self.now.state step.now 1 }
        ensures { Tells self.now.card self.now.state step.now 10 result }
    {
        match self.pair_wrong(step) {
            Some((a, b)) => Some(MachineFault::PairWrong { a, b }),
            None => None,
        }
    }

    /// The least qubit whose atom a step takes exactly onto a trap that holds an atom, and that trap.
    fn trap_full(&self, step: &Step, rows: &[Beam], columns: &[Beam]) -> Option<(u32, TrapId)>
        requires rows_after { rows.now ≡ beams_after self.now.state step.now Axis.Row }
        requires columns_after { columns.now ≡ beams_after self.now.state step.now Axis.Column }
        requires rows_rising { AllPairs (λ b c. b.id < c.id) rows.now }
        requires columns_rising { AllPairs (λ b c. b.id < c.id) columns.now }
        ensures { MatchOption result ((q : ℕ) (t : TrapId) → ¬ IsTrapFull self.now.card self.now.state step.now q t)
            (λ f. IsTrapFull self.now.card self.now.state step.now f.0 f.1
            × ((q : ℕ) (t : TrapId) → IsTrapFull self.now.card self.now.state step.now q t → (f.0 < q) ⊎ ((f.0 ≡ q) × (t ≡ f.1)))) }
    {
        match step {
            Step::Move { aod, .. } => self.least_full(*aod, rows, columns),
            _ => None,
        }
    }

    /// The least qubit that is taken onto a full trap, as a fault.
    fn tell_full(&self, step: &Step, rows: &[Beam], columns: &[Beam]) -> Option<MachineFault>
        requires rows_after { rows.now ≡ beams_after self.now.state step.now Axis.Row }
        requires columns_after { columns.now ≡ beams_after self.now.state step.now Axis.Column }
        requires rows_rising { AllPairs (λ b c. b.id < c.id) rows.now }
        requires columns_rising { AllPairs (λ b c. b.id < c.id) columns.now }
        ensures { Tells self.now.card self.now.state step.now 9 result }
    {
        match self.trap_full(step, rows, columns) {
            Some((q, trap)) => Some(MachineFault::TrapFull { q, trap }),
            None => None,
        }
    }

    /// The least qubit that isn't at rest, or the first lit crossing, as a fault.
    fn tell_rest(&self, step: &Step) -> Option<MachineFault>
        requires met { AreMetBefore self.now.card self.now.state step.now 1 }
        ensures { Tells self.now.card self.now.state step.now 12 result }
    {
        match self.not_at_rest(step) {
            Some(q) => Some(MachineFault::NotAtRest { q }),
            None => match self.crossing_lit(step) {
                Some((aod, row, column)) => Some(MachineFault::Crossing { aod, row, column }),
                None => None,
            },
        }
    }

    /// The first fault of a step's atoms, once its beams, its crossings and the atoms that it catches are right.
    fn tell_atoms(&self, step: &Step, rows: &[Beam], columns: &[Beam]) -> Option<MachineFault>
        requires met { AreMetBefore self.now.card self.now.state step.now 8 }
        requires rows_after { rows.now ≡ beams_after self.now.state step.now Axis.Row }
        requires columns_after { columns.now ≡ beams_after self.now.state step.now Axis.Column }
        requires rows_rising { AllPairs (λ b c. b.id < c.id) rows.now }
        requires columns_rising { AllPairs (λ b c. b.id < c.id) columns.now }
        ensures { MatchOption result (AreMetBefore self.now.card self.now.state step.now 13) (IsFirstFault self.now.card self.now.state step.now) }
    {
        if let Some(fault) = self.tell_drop(step) {
            return Some(fault);
        }
        if let Some(fault) = self.tell_full(step, rows, columns) {
            return Some(fault);
        }
        if let Some(fault) = self.tell_pair(step) {
            return Some(fault);
        }
        if let Some(fault) = self.tell_lit_alone(step) {
            return Some(fault);
        }
        self.tell_rest(step)
    }

    /// The first fault of a step; none exactly where the step is legal.
    pub(crate) fn first_fault(&self, step: &Step) -> Option<MachineFault>
        ensures { MatchOption result (IsLegal self.now.card self.now.state step.now) (IsFirstFault self.now.card self.now.state step.now) }
    {
        faults_tell_legal_steps(self.card());
        if let Some(fault) = self.tell_beams(step) {
            return Some(fault);
        }
        let (rows, columns) = (
            self.beams_after(step, Axis::Row),
            self.beams_after(step, Axis::Column),
        );
        let (rows, columns) = (rows.as_slice(), columns.as_slice());
        if let Some(fault) = self.tell_crossings(step, rows, columns) {
            return Some(fault);
        }
        self.tell_atoms(step, rows, columns)
    }
}
