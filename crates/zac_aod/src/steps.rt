//! The steps of a job.

ghost use Rattle.std.specs.Prelude.{◌≡◌, ◌++◌, ◌+◌, ◌<◌, IfOk, OnOk, length, map, drop};
ghost use Rattle.zac_aod.specs.Lines.{rows_of};
ghost use Rattle.zac_aod.specs.Lowering.{catch_row, caught, drop_row, dropped, flight, loading, move_to, moves_of_row, unloading};

use crate::beams::ids;
use crate::layout::Layout;
use crate::line::number_of;
use crate::stage::Stage;
use std::alloc::Global;
use zac_gates::List;
use zac_memory::Memory;
use zair_form::{Caught, Dropped, Step};

impl Layout<'_> {
    /// The atoms of the row with this source, as they are caught.
    fn caught_in(&self, alloc: Global, row: u32) -> Result<Vec<Caught>, Memory>
        ensures { IfOk result (λ atoms. atoms.items ≡ map (caught self.now.card.now self.now.shifts.now) (moves_of_row self.now.card.now self.now.shifts.now row)) }
    {
        let number = number_of(self.rows.as_slice(), row);
        let atoms = self.atoms_of(row);
        let mut caught = Vec::with_capacity(alloc, atoms.len())?;
        for atom in atoms {
            caught.push(Caught {
                q: atom.q,
                row: number,
                column: atom.column,
            })?;
        }
        Ok(caught)
    }

    /// The atoms of the row with this source, as they are dropped.
    fn dropped_in(&self, alloc: Global, row: u32) -> Result<Vec<Dropped>, Memory>
        ensures { IfOk result (λ atoms. atoms.items ≡ map dropped (moves_of_row self.now.card.now self.now.shifts.now row)) }
    {
        let atoms = self.atoms_of(row);
        let mut dropped = Vec::with_capacity(alloc, atoms.len())?;
        for atom in atoms {
            dropped.push(Dropped {
                q: atom.q,
                trap: atom.to,
            })?;
        }
        Ok(dropped)
    }

    /// The step that loads the row with this source.
    fn catch_row(&self, alloc: Global, row: u32) -> Result<Step, Memory>
        ensures { IfOk result (λ step. step ≡ catch_row self.now.card.now self.now.shifts.now 0 row) }
    {
        Ok(Step::Activate {
            aod: 0,
            rows: List::of(self.row_in_place(alloc, Stage::Caught { turn: row })?),
            columns: List::of(self.first_columns(alloc, row)?),
            atoms: List::of(self.caught_in(alloc, row)?),
        })
    }

    /// The step that takes all active beams to their places at a stage.
    fn move_to(&self, alloc: Global, stage: Stage) -> Result<Step, Memory>
        ensures { IfOk result (λ step. step ≡ move_to self.now.card.now self.now.shifts.now 0 stage) }
    {
        Ok(Step::Move {
            aod: 0,
            rows: List::of(self.rows_at(alloc, stage)?),
            columns: List::of(self.columns_at(alloc, stage)?),
        })
    }

    /// The step that unloads the row with this source.
    fn drop_row(&self, alloc: Global, row: u32) -> Result<Step, Memory>
        ensures { IfOk result (λ step. step ≡ drop_row self.now.card.now self.now.shifts.now 0 row) }
    {
        let rows = self.row_in_place(alloc, Stage::Landed { turn: row })?;
        let columns = self.last_columns(alloc, row)?;
        Ok(Step::Deactivate {
            aod: 0,
            rows: List::of(ids(alloc, rows.as_slice())?),
            columns: List::of(ids(alloc, columns.as_slice())?),
            atoms: List::of(self.dropped_in(alloc, row)?),
        })
    }

    /// Loads the row of this number, and parks it if another is loaded after it.
    fn load_row(&self, alloc: Global, number: usize, steps: &mut Vec<Step>) -> Result<(), Memory>
        requires { number < length self.now.rows.items }
        ensures { OnOk result (steps.new.items ++ map (λ leg. leg.step) (loading self.now.card.now self.now.shifts.now 0 (drop (number + 1) (rows_of self.now.card.now self.now.shifts.now)))
            ≡ steps.old.items ++ map (λ leg. leg.step) (loading self.now.card.now self.now.shifts.now 0 (drop number (rows_of self.now.card.now self.now.shifts.now)))) }
    {
        let turn = self.rows[number].from;
        steps.push(self.catch_row(alloc, turn)?)?;
        if number + 1 < self.rows.len() {
            let next = self.rows[number + 1].from;
            steps.push(self.move_to(alloc, Stage::Parked { turn, next })?)?;
        }
        Ok(())
    }

    /// Unloads the row of this number, and takes the next one, if there is one, to its target.
    fn unload_row(&self, alloc: Global, number: usize, steps: &mut Vec<Step>) -> Result<(), Memory>
        requires { number < length self.now.rows.items }
        ensures { OnOk result (steps.new.items ++ map (λ leg. leg.step) (unloading self.now.card.now self.now.shifts.now 0 (drop (number + 1) (rows_of self.now.card.now self.now.shifts.now)))
            ≡ steps.old.items ++ map (λ leg. leg.step) (unloading self.now.card.now self.now.shifts.now 0 (drop number (rows_of self.now.card.now self.now.shifts.now)))) }
    {
        let turn = self.rows[number].from;
        steps.push(self.drop_row(alloc, turn)?)?;
        if number + 1 < self.rows.len() {
            let turn = self.rows[number + 1].from;
            steps.push(self.move_to(alloc, Stage::Landed { turn })?)?;
        }
        Ok(())
    }

    /// Loads all rows.
    pub(crate) fn load(&self, alloc: Global, steps: &mut Vec<Step>) -> Result<(), Memory>
        ensures { OnOk result (steps.new.items ≡ steps.old.items ++ map (λ leg. leg.step) (loading self.now.card.now self.now.shifts.now 0 (rows_of self.now.card.now self.now.shifts.now))) }
    {
        for number in 0..self.rows.len() {
            self.load_row(alloc, number, steps)?;
        }
        Ok(())
    }

    /// Takes all rows to the targets.
    pub(crate) fn fly(&self, alloc: Global, steps: &mut Vec<Step>) -> Result<(), Memory>
        ensures { OnOk result (steps.new.items ≡ steps.old.items ++ map (λ leg. leg.step) (flight self.now.card.now self.now.shifts.now 0 (rows_of self.now.card.now self.now.shifts.now))) }
    {
        if !self.rows.is_empty() {
            let turn = self.rows[0].from;
            steps.push(self.move_to(alloc, Stage::Landed { turn })?)?;
        }
        Ok(())
    }

    /// Unloads all rows.
    pub(crate) fn unload(&self, alloc: Global, steps: &mut Vec<Step>) -> Result<(), Memory>
        ensures { OnOk result (steps.new.items ≡ steps.old.items ++ map (λ leg. leg.step) (unloading self.now.card.now self.now.shifts.now 0 (rows_of self.now.card.now self.now.shifts.now))) }
    {
        for number in 0..self.rows.len() {
            self.unload_row(alloc, number, steps)?;
        }
        Ok(())
    }
}
