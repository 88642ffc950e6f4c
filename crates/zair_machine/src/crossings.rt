//! The beams after a step, and what is wrong with where they stand.

ghost use Rattle.std.specs.Prelude.{◌≡◌, ◌<◌, ◌≤◌, ◌⊎◌, ◌↔◌, ℕ, IsTrue, List, length};
ghost use Rattle.std.specs.List.{AllPairs, Any, Contains};
ghost use Rattle.zair_form.specs.declared.step.Beam.{Beam};
ghost use Rattle.zair_form.specs.declared.step.Step.TheVariants.{Move};
ghost use Rattle.zair_machine.specs.Crossings.{AreByRisingId, IsNamed, CountNamed};
ghost use Rattle.zair_state.specs.declared.fault.BeamId.{BeamId};
ghost use Rattle.zair_state.specs.Faults.{beams_after, IsOutOfOrder, IsTooNear, TouchesAt, IsOnTrapWithAtom, DoTouch};
ghost use Rattle.zair_state.specs.FirstFault.{AreMetBefore};
ghost use Rattle.zair_state.specs.Least.{IsLeastOf, IsFirstBeam, IsLeastPairOf};
ghost use Rattle.zair_state.specs.Invariant.{IsSound};
ghost use Rattle.zair_state.specs.State.{HasId, IsClear, crossing};

use crate::beams::{has_id, least_out_of_order, least_too_near, with_all};
use crate::busy::along;
use crate::counts::{MOST_CROSSINGS, count_named};
use crate::least::{first_beam, lesser_id_if};
use crate::machine::Machine;
use arrayvec::ArrayVec;
use zac_arch::Point;
use zair_form::{Beam, Step};
use zair_state::{Axis, BeamId, Place};

/// Whether a row or a column of these ids is among the new ones.
pub(crate) fn is_new(rows: &[Beam], columns: &[Beam], row: u8, column: u8) -> bool
    ensures { IsTrue result ↔ (Any (λ b. b.id ≡ row) rows.now ⊎ Any (λ b. b.id ≡ column) columns.now) }
{
    has_id(rows, row) || has_id(columns, column)
}

impl<'a> Machine<'a> {
    /// The beams along an axis after a step that switches beams on or moves them, by rising id.
    pub(crate) fn beams_after(&self, step: &Step, axis: Axis) -> ArrayVec<Beam, 64>
        requires { AreMetBefore self.now.card self.now.state step.now 4 }
        ensures beams { result.items ≡ beams_after self.now.state step.now axis }
        ensures rising { AllPairs (λ b c. b.id < c.id) result.items }
    {
        let _most = self.most_beams();
        match step {
            Step::Activate {
                aod,
                rows,
                columns,
                ..
            } => {
                with_all(
                    along(axis, rows.as_slice(), columns.as_slice()),
                    self.active(*aod, axis),
                )
            }
            Step::Move { rows, columns, .. } => with_all(
                along(axis, rows.as_slice(), columns.as_slice()),
                &[],
            ),
            _ => ArrayVec::new(),
        }
    }

    /// The most rows and columns of an AOD: at most 64 each.
    pub(crate) fn most_beams(&self) -> (u8, u8)
        ensures rows { self.now.card.figures.rows ≤ 64 }
        ensures columns { self.now.card.figures.columns ≤ 64 }
        ensures sound { IsSound self.now.card self.now.state }
    {
        let _ = &self.card;
        let figures = self.card().figures();
        (figures.rows, figures.columns)
    }

    /// The first beam that doesn't stand above the one of next lower id after a step.
    pub(crate) fn out_of_order(
        &self,
        step: &Step,
        rows: &[Beam],
        columns: &[Beam],
    ) -> Option<BeamId>
        requires rows_after { rows.now ≡ beams_after self.now.state step.now Axis.Row }
        requires columns_after { columns.now ≡ beams_after self.now.state step.now Axis.Column }
        ensures { IsFirstBeam (IsOutOfOrder self.now.state step.now) result }
    {
        let _ = &self.card;
        first_beam(least_out_of_order(rows), least_out_of_order(columns))
    }

    /// The first beam that stands above the one of next lower id by less than the gap after a step.
    pub(crate) fn too_near(&self, step: &Step, rows: &[Beam], columns: &[Beam]) -> Option<BeamId>
        requires rows_after { rows.now ≡ beams_after self.now.state step.now Axis.Row }
        requires columns_after { columns.now ≡ beams_after self.now.state step.now Axis.Column }
        ensures { IsFirstBeam (IsTooNear self.now.card self.now.state step.now) result }
    {
        let gap = self.gap();
        first_beam(least_too_near(gap, rows), least_too_near(gap, columns))
    }

    /// The least distance of neighbouring beams: 1 at least.
    pub(crate) fn gap(&self) -> u32
        ensures gap { result ≡ self.now.card.figures.gap }
        ensures least { 1 ≤ self.now.card.figures.gap }
    {
        self.card().figures().gap
    }

    /// Whether a crossing of the AOD holds an atom, stands exactly on a trap, and is free of others.
    fn is_on_trap_with_atom(&self, aod: u8, row: Beam, column: Beam) -> bool
        ensures { IsTrue result ↔ IsOnTrapWithAtom self.now.card self.now.state aod row column }
    {
        let p = Point {
            x: column.at,
            y: row.at,
        };
        match (
            self.trap_at(p),
            self.atom_at(Place::Held {
                aod,
                row: row.id,
                column: column.id,
            }),
        ) {
            (Some(_), Some(_)) => self.is_free(aod, p),
            _ => false,
        }
    }

    /// Whether a crossing that an activate makes is new, holds no listed atom, and isn't clear.
    fn touches_new(
        &self,
        aod: u8,
        rows: &[Beam],
        columns: &[Beam],
        named: bool,
        row: Beam,
        column: Beam,
    ) -> bool
        ensures { IsTrue result ↔ ((HasId rows.now row.id ⊎ HasId columns.now column.id) × ¬ IsTrue named
            × ¬ IsClear self.now.card self.now.state aod (crossing row column)) }
    {
        if named || !is_new(rows, columns, row.id, column.id) {
            return false;
        }
        !self.is_clear(
            aod,
            Point {
                x: column.at,
                y: row.at,
            },
        )
    }

    /// Whether a crossing that was moved isn't clear, and isn't one that holds an atom on a trap.
    fn touches_moved(
        &self,
        aod: u8,
        rows: &[Beam],
        columns: &[Beam],
        row: Beam,
        column: Beam,
    ) -> bool
        ensures { IsTrue result ↔ TouchesAt self.now.card self.now.state (Move aod rows.now columns.now) row column }
    {
        let clear = self.is_clear(
            aod,
            Point {
                x: column.at,
                y: row.at,
            },
        );
        !clear && !self.is_on_trap_with_atom(aod, row, column)
    }

    /// Whether the crossing of a row and a column after a step comes too near, where it is told whether a caught atom
    /// names it.
    fn touches(&self, step: &Step, row: Beam, column: Beam, named: bool) -> bool
        requires { IsTrue named ↔ IsNamed step.now row.id column.id }
        ensures { IsTrue result ↔ TouchesAt self.now.card self.now.state step.now row column }
    {
        match step {
            Step::Activate {
                aod,
                rows,
                columns,
                ..
            } => {
                self.touches_new(
                    *aod,
                    rows.as_slice(),
                    columns.as_slice(),
                    named,
                    row,
                    column,
                )
            }
            Step::Move { aod, rows, columns } => self.touches_moved(
                *aod,
                rows.as_slice(),
                columns.as_slice(),
                row,
                column,
            ),
            _ => false,
        }
    }

    /// The least column whose crossing with a row comes too near, where counts tell which crossings are named.
    fn touching_column(&self, step: &Step, row: Beam, columns: &[Beam], counts: &[u8]) -> Option<u8>
        requires room { length columns.now ≤ length counts.now }
        requires named { CountNamed step.now row.id columns.now counts.now }
        ensures { IsLeastOf (λ id. (column : Beam) × Contains columns.now column
            × TouchesAt self.now.card self.now.state step.now row column × (column.id ≡ id)) result }
    {
        let mut least = None;
        for j in 0..columns.len() {
            let touches = self.touches(step, row, columns[j], 0 < counts[j]);
            least = lesser_id_if(least, touches, columns[j].id);
        }
        least
    }

    /// The first crossing after a step that comes too near: by its row, and then by its column.
    pub(crate) fn touch(&self, step: &Step, rows: &[Beam], columns: &[Beam]) -> Option<(u8, u8)>
        requires rows_after { rows.now ≡ beams_after self.now.state step.now Axis.Row }
        requires columns_after { columns.now ≡ beams_after self.now.state step.now Axis.Column }
        requires rows_rising { AreByRisingId rows.now }
        requires columns_rising { AreByRisingId columns.now }
        ensures { IsLeastPairOf (DoTouch self.now.card self.now.state step.now) result }
    {
        let mut counts = [0u8; MOST_CROSSINGS];
        count_named(step, rows, columns, &mut counts);
        for i in 0..rows.len() {
            let (row, counts) = (rows[i], &counts[i * 64..]);
            if let Some(column) = self.touching_column(step, row, columns, counts) {
                return Some((row.id, column));
            }
        }
        None
    }
}
