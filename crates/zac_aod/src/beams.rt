//! The beams of a group at each stage.

ghost use Rattle.std.specs.Prelude.{◌≡◌, ◌==◌, ◌&&◌, ◌+◌, ◌<◌, ◌≤◌, ℕ, Bool, Option, not, IfOk, length, map, if◌then◌else◌};
ghost use Rattle.std.specs.List.{slice_index_or};
ghost use Rattle.zac_aod.specs.Layout.{place_over};
ghost use Rattle.zac_aod.specs.Lines.{columns_of, has_atom, rows_of};
ghost use Rattle.zac_aod.specs.Lowering.{is_used_after, is_used_before};
ghost use Rattle.zac_aod.specs.Stages.{beams_over, column_at, columns_at, is_column_active, is_in_place, place_of, row_at, rows_at};
ghost use Rattle.zac_aod.specs.declared.line.Line.{Line};

use crate::layout::Layout;
use crate::line::Line;
use crate::stage::Stage;
use std::alloc::Global;
use zac_memory::Memory;
use zair_form::Beam;

/// The place of a row or a column at a stage.
fn place_of(stage: Stage, line: Line) -> u32
    ensures { result ≡ place_of stage line }
{
    if stage.is_over_targets() {
        line.to
    } else {
        line.from
    }
}

/// The beams of the lines to which a function gives a place, by rising id: the number of the line.
fn beams_over<F: Fn(usize, Line) -> Option<u32>>(
    alloc: Global,
    lines: &[Line],
    place: F,
) -> Result<Vec<Beam>, Memory>
    requires few { length lines.now ≤ 64 }
    requires callable { (k : ℕ) → (d : Line) → k < length lines.now → F.pre place k (slice_index_or lines.now k d) }
    ensures { (active : Line → Bool) → (at : Line → ℕ)
        → ((k : ℕ) → (d : Line) → (r : Option ℕ) → k < length lines.now → F.post place k (slice_index_or lines.now k d) r → r ≡ place_over active at (slice_index_or lines.now k d))
        → IfOk result (λ beams. beams.items ≡ beams_over active at 0 lines.now) }
{
    let mut beams = Vec::with_capacity(alloc, lines.len())?;
    for (number, line) in lines.iter().enumerate() {
        if let Some(at) = place(number, *line) {
            beams.push(Beam {
                id: number as u8,
                at,
            })?;
        }
    }
    beams.shrink_to_fit();
    Ok(beams)
}

impl Layout<'_> {
    /// The beams of the columns in which a row has atoms, if a function gives them a place, by rising id: the number of the
    /// column.
    fn columns_in<F: Fn(usize, Line) -> Option<u32>>(
        &self,
        alloc: Global,
        row: u32,
        place: F,
    ) -> Result<Vec<Beam>, Memory>
        requires { (k : ℕ) → (d : Line) → k < length self.now.columns.items → F.pre place k (slice_index_or self.now.columns.items k d) }
        ensures { (test : Line → Bool) → (at : Line → ℕ)
            → ((k : ℕ) → (d : Line) → (r : Option ℕ) → k < length self.now.columns.items → F.post place k (slice_index_or self.now.columns.items k d) r → r ≡ place_over test at (slice_index_or self.now.columns.items k d))
            → IfOk result (λ beams. beams.items ≡ beams_over (λ l. has_atom self.now.card.now self.now.shifts.now row l.from && test l) at 0 (columns_of self.now.card.now self.now.shifts.now)) }
    {
        let atoms = self.atoms_of(row);
        let mut beams = Vec::with_capacity(alloc, atoms.len())?;
        for atom in atoms {
            let column = usize::from(atom.column);
            let line = self.columns[column];
            if let Some(at) = place(column, line) {
                beams.push(Beam {
                    id: atom.column,
                    at,
                })?;
            }
        }
        beams.shrink_to_fit();
        Ok(beams)
    }

    /// Whether a column, by its number, has an atom in a row before this one.
    fn is_used_before(&self, row: u32, column: usize) -> bool
        requires { column < length self.now.columns.items }
        ensures { (d : Line) → result ≡ is_used_before self.now.card.now self.now.shifts.now row (slice_index_or self.now.columns.items column d) }
    {
        self.spans[column].first < row
    }

    /// Whether a column, by its number, has an atom in a row after this one.
    fn is_used_after(&self, row: u32, column: usize) -> bool
        requires { column < length self.now.columns.items }
        ensures { (d : Line) → result ≡ is_used_after self.now.card.now self.now.shifts.now row (slice_index_or self.now.columns.items column d) }
    {
        row < self.spans[column].last
    }

    /// Whether an atom of a column, by its number, is held at a stage. The rows that are loaded are all up to one, or all
    /// from one on, so the first row or the last of the column tells.
    fn is_column_active(&self, stage: Stage, column: usize) -> bool
        requires { column < length self.now.columns.items }
        ensures { (d : Line) → result ≡ is_column_active self.now.card.now self.now.shifts.now stage (slice_index_or self.now.columns.items column d) }
    {
        let span = self.spans[column];
        stage.is_loaded(span.first) || stage.is_loaded(span.last)
    }

    /// Where a row stands at a stage.
    fn row_at(&self, stage: Stage, row: Line) -> u32
        requires at_source { row.from + self.now.park ≤ 1000000 }
        requires at_target { row.to + self.now.park ≤ 1000000 }
        ensures { result ≡ row_at self.now.card.now stage row }
    {
        let place = place_of(stage, row);
        if stage.is_in_place(row.from) {
            place
        } else {
            place + self.park
        }
    }

    /// Where a column stands at a stage, by whether it has an atom in the row in turn.
    fn column_at(&self, stage: Stage, column: Line, has_atom: bool) -> u32
        requires at_source { column.from + self.now.park ≤ 1000000 }
        requires at_target { column.to + self.now.park ≤ 1000000 }
        ensures { result ≡ place_of stage column + (if has_atom then 0 else self.now.card.now.figures.park) }
    {
        let place = place_of(stage, column);
        if has_atom { place } else { place + self.park }
    }

    /// The rows at a stage.
    pub(crate) fn rows_at(&self, alloc: Global, stage: Stage) -> Result<Vec<Beam>, Memory>
        ensures { IfOk result (λ beams. beams.items ≡ rows_at self.now.card.now self.now.shifts.now stage) }
    {
        beams_over(alloc, self.rows.as_slice(), |_, row| {
            if stage.is_loaded(row.from) {
                Some(self.row_at(stage, row))
            } else {
                None
            }
        })
    }

    /// The columns at a stage.
    pub(crate) fn columns_at(&self, alloc: Global, stage: Stage) -> Result<Vec<Beam>, Memory>
        ensures { IfOk result (λ beams. beams.items ≡ columns_at self.now.card.now self.now.shifts.now stage) }
    {
        let marks = self.marks(alloc, stage.row_in_turn())?;
        beams_over(alloc, self.columns.as_slice(), |number, column| {
            if self.is_column_active(stage, number) {
                Some(self.column_at(stage, column, marks[number]))
            } else {
                None
            }
        })
    }

    /// The row that stands exactly at its place at a stage.
    pub(crate) fn row_in_place(&self, alloc: Global, stage: Stage) -> Result<Vec<Beam>, Memory>
        ensures { IfOk result (λ beams. beams.items ≡ beams_over (λ l. is_in_place stage l.from) (place_of stage) 0 (rows_of self.now.card.now self.now.shifts.now)) }
    {
        beams_over(alloc, self.rows.as_slice(), |_, row| {
            if stage.is_in_place(row.from) {
                Some(place_of(stage, row))
            } else {
                None
            }
        })
    }

    /// The columns that have an atom in this row and in no row before, at their sources.
    pub(crate) fn first_columns(&self, alloc: Global, row: u32) -> Result<Vec<Beam>, Memory>
        ensures { IfOk result (λ beams. beams.items ≡ beams_over
            (λ l. has_atom self.now.card.now self.now.shifts.now row l.from && not (is_used_before self.now.card.now self.now.shifts.now row l))
            (λ l. l.from) 0 (columns_of self.now.card.now self.now.shifts.now)) }
    {
        self.columns_in(alloc, row, |number, column| {
            if self.is_used_before(row, number) {
                None
            } else {
                Some(column.from)
            }
        })
    }

    /// The columns that have an atom in this row and in no row after, at their targets.
    pub(crate) fn last_columns(&self, alloc: Global, row: u32) -> Result<Vec<Beam>, Memory>
        ensures { IfOk result (λ beams. beams.items ≡ beams_over
            (λ l. has_atom self.now.card.now self.now.shifts.now row l.from && not (is_used_after self.now.card.now self.now.shifts.now row l))
            (λ l. l.to) 0 (columns_of self.now.card.now self.now.shifts.now)) }
    {
        self.columns_in(alloc, row, |number, column| {
            if self.is_used_after(row, number) {
                None
            } else {
                Some(column.to)
            }
        })
    }
}

/// The ids of beams.
pub(crate) fn ids(alloc: Global, beams: &[Beam]) -> Result<Vec<u8>, Memory>
    ensures { IfOk result (λ ids. ids.items ≡ map (λ b. b.id) beams.now) }
{
    let mut ids = Vec::with_capacity(alloc, beams.len())?;
    for beam in beams {
        ids.push(beam.id)?;
    }
    Ok(ids)
}
