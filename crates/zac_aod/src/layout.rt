//! The rows, the columns and the atoms of a group, as they are read off its moves.

ghost use Rattle.std.specs.Prelude.{◌≡◌, ◌<◌, ◌≤◌, ◌+◌, ℕ, Bool, IfOk, length, map};
ghost use Rattle.std.specs.List.{All, AllPairs, slice_index_or};
ghost use Rattle.zac_aod.specs.Layout.{AreSpans, ComesBefore, atom_of};
ghost use Rattle.zac_aod.specs.Lines.{columns_of, has_atom, rows_of};
ghost use Rattle.zac_aod.specs.Lowering.{moves_of_row};
ghost use Rattle.zac_aod.specs.declared.line.Line.{Line};
ghost use Rattle.zac_group.specs.Groups.{IsGroup};

use crate::atom::{Atom, atoms_among, in_row};
use crate::laws::card_laws;
use crate::line::{Line, sorted};
use crate::route::{columns_in, routes_of, rows_in};
use crate::span::{Span, spans_of};
use std::alloc::Global;
use zac_arch::Card;
use zac_group::Shift;
use zac_memory::Memory;

/// A group of moves on a card, with the rows and columns of an AOD that makes them.
///
/// What a step asks of a row, a column or an atom is looked up here, so that a job is lowered in the time that its
/// beams and atoms take to list.
#[derive(Drop)]
pub(crate) struct Layout<'a> {
    /// The card.
    pub(crate) card: &'a Card,
    /// The moves.
    pub(crate) shifts: &'a [Shift],
    /// The atoms of the moves, row after row, each row by rising column.
    pub(crate) atoms: Vec<Atom>,
    /// The rows, from the lowest source on.
    pub(crate) rows: Vec<Line>,
    /// The columns, from the leftmost source on.
    pub(crate) columns: Vec<Line>,
    /// For each column, the rows in which it has atoms.
    pub(crate) spans: Vec<Span>,
    /// How far beams are parked, in tenths of a micrometre.
    pub(crate) park: u32,
    ghost atoms_are: { atoms.items ≡ map (atom_of card.now shifts.now) shifts.now },
    ghost in_order: { AllPairs ComesBefore atoms.items },
    ghost rows_are: { rows.items ≡ rows_of card.now shifts.now },
    ghost columns_are: { columns.items ≡ columns_of card.now shifts.now },
    ghost spans_are: { AreSpans card.now shifts.now columns.items spans.items },
    ghost few_rows: { length rows.items ≤ 64 },
    ghost few_columns: { length columns.items ≤ 64 },
    ghost park_is: { park ≡ card.now.figures.park },
    ghost rows_at_source: { All (λ l. l.from + park ≤ 1000000) rows.items },
    ghost rows_at_target: { All (λ l. l.to + park ≤ 1000000) rows.items },
    ghost columns_at_source: { All (λ l. l.from + park ≤ 1000000) columns.items },
    ghost columns_at_target: { All (λ l. l.to + park ≤ 1000000) columns.items },
}

impl<'a> Layout<'a> {
    /// The layout of a group of moves on a card.
    pub(crate) fn new(
        alloc: Global,
        card: &'a Card,
        shifts: &'a [Shift],
    ) -> Result<Layout<'a>, Memory>
        requires { IsGroup (record { card = card.now; shifts = shifts.now }) }
        ensures card { IfOk result (λ l. l.card.now ≡ card.now) }
        ensures shifts { IfOk result (λ l. l.shifts.now ≡ shifts.now) }
    {
        card_laws(card);
        let park = card.figures().park;
        let routes = routes_of(alloc, card, shifts)?;
        let rows = sorted(alloc, rows_in(alloc, routes.as_slice())?.as_slice())?;
        let columns = sorted(alloc, columns_in(alloc, routes.as_slice())?.as_slice())?;
        let atoms = atoms_among(alloc, routes.as_slice(), columns.as_slice())?;
        let spans = spans_of(alloc, atoms.as_slice(), columns.len())?;
        Ok(Layout {
            card,
            shifts,
            atoms,
            rows,
            columns,
            spans,
            park,
        })
    }
}

impl Layout<'_> {
    /// The atoms of the row with this source, by rising column.
    pub(crate) fn atoms_of(&self, row: u32) -> &[Atom]
        ensures { result.now ≡ map (atom_of self.now.card.now self.now.shifts.now) (moves_of_row self.now.card.now self.now.shifts.now row) }
    {
        in_row(self.atoms.as_slice(), row)
    }

    /// For each column, whether the row with this source has an atom in it.
    pub(crate) fn marks(&self, alloc: Global, row: u32) -> Result<Vec<bool>, Memory>
        ensures len { IfOk result (λ marks. length marks.items ≡ length self.now.columns.items) }
        ensures each { IfOk result (λ marks. (k : ℕ) → (d : Line) → (b : Bool) → k < length self.now.columns.items
            → slice_index_or marks.items k b ≡ has_atom self.now.card.now self.now.shifts.now row (slice_index_or self.now.columns.items k d).from) }
    {
        let mut marks = Vec::from_elem(alloc, false, self.columns.len())?;
        for atom in self.atoms_of(row) {
            marks[usize::from(atom.column)] = true;
        }
        Ok(marks)
    }
}
