//! The rows in which the columns of a group have atoms.

ghost use Rattle.std.specs.Prelude.{◌≡◌, ◌<◌, All, IfOk, max, min};
ghost use Rattle.zac_aod.specs.Layout.{AreCovered};

use crate::atom::Atom;
use std::alloc::Global;
use zac_memory::Memory;

/// The rows in which a column has atoms, by their places at the sources, in tenths of a micrometre.
#[derive(Clone, Copy)]
pub(crate) struct Span {
    /// The first row.
    pub(crate) first: u32,
    /// The last row.
    pub(crate) last: u32,
}

/// No row: every row widens it.
const NO_ROW: Span = Span {
    first: u32::MAX,
    last: 0,
};

impl Span {
    /// The span with one more row.
    fn with(self, row: u32) -> Span
        ensures { result ≡ record { first = min self.first row; last = max self.last row } }
    {
        Span {
            first: self.first.min(row),
            last: self.last.max(row),
        }
    }
}

/// For each of so many columns, the rows in which it has some of these atoms.
pub(crate) fn spans_of(alloc: Global, atoms: &[Atom], columns: usize) -> Result<Vec<Span>, Memory>
    requires { All (λ atom. atom.column < columns) atoms.now }
    ensures { IfOk result (λ spans. AreCovered atoms.now columns spans.items) }
{
    let mut spans = Vec::from_elem(alloc, NO_ROW, columns)?;
    for atom in atoms {
        let column = usize::from(atom.column);
        spans[column] = spans[column].with(atom.row);
    }
    Ok(spans)
}
