//! How often a step lists each crossing of an AOD.

ghost use Rattle.std.specs.Prelude.{◌≡◌, ℕ, ◌+◌, ◌*◌, ◌<◌, ◌≤◌, ◌↔◌, IsTrue, IfSome, MatchOption, Some, length, slice_get, slice_index_or};
ghost use Rattle.zair_form.specs.declared.step.Beam.{Beam};
ghost use Rattle.std.specs.List.{All};
ghost use Rattle.zair_machine.specs.Crossings.{AreByRisingId, IsCrossingOf, counted, CountsCaught, CountsDropped, IsNamed};
ghost use Rattle.zair_state.specs.declared.place.Place.TheVariants.{Held};
ghost use Rattle.zair_state.specs.State.{HasId, IsAt, beams_of};

use crate::machine::Machine;
use zair_form::{Beam, Caught, Dropped, Step};
use zair_state::{Axis, Place};

/// The most crossings of an AOD: those of 64 rows and 64 columns.
pub(crate) const MOST_CROSSINGS: usize = 4096;

/// The place of the beam of this id.
fn place_of(beams: &[Beam], id: u8) -> Option<usize>
    ensures { MatchOption result (¬ HasId beams.now id) (λ k. (b : Beam) × (slice_get beams.now k ≡ Some b) × (b.id ≡ id)) }
{
    for (k, b) in beams.iter().enumerate() {
        if b.id == id {
            return Some(k);
        }
    }
    None
}

/// The number of the crossing of the row and the column of these ids: 64 times the place of the row and that of the column.
fn crossing_of(rows: &[Beam], columns: &[Beam], row: u8, column: u8) -> Option<usize>
    requires few_rows { length rows.now ≤ 64 }
    requires few_columns { length columns.now ≤ 64 }
    ensures { MatchOption result (¬ (HasId rows.now row × HasId columns.now column))
        (λ n. (n < 4096) × IsCrossingOf rows.now columns.now row column n) }
{
    let i = place_of(rows, row)?;
    let j = place_of(columns, column)?;
    Some(i * 64 + j)
}

/// Counts one more at a place, if there is one; 2 stands for more too.
fn count(counts: &mut [u8], place: Option<usize>)
    requires { IfSome place (λ n. n < length counts.old) }
    ensures { counts.new ≡ counted place counts.old }
{
    if let Some(n) = place {
        counts[n] = counts[n].saturating_add(1).min(2);
    }
}

/// Counts how often the atoms name each crossing of the rows and columns.
pub(crate) fn count_caught(rows: &[Beam], columns: &[Beam], atoms: &[Caught], counts: &mut [u8])
    requires rows_rising { AreByRisingId rows.now }
    requires columns_rising { AreByRisingId columns.now }
    requires room { length counts.old ≡ 4096 }
    requires clean { (n : ℕ) → slice_index_or counts.old n 0 ≡ 0 }
    ensures counts { CountsCaught rows.now columns.now atoms.now counts.new }
    ensures len { length counts.new ≡ 4096 }
{
    for c in atoms {
        count(counts, crossing_of(rows, columns, c.row, c.column));
    }
}

/// Counts how often a step names each crossing of the rows and columns.
pub(crate) fn count_named(step: &Step, rows: &[Beam], columns: &[Beam], counts: &mut [u8])
    requires rows_rising { AreByRisingId rows.now }
    requires columns_rising { AreByRisingId columns.now }
    requires room { length counts.old ≡ 4096 }
    requires clean { (n : ℕ) → slice_index_or counts.old n 0 ≡ 0 }
    ensures named { (i j : ℕ) (r c : Beam) → slice_get rows.now i ≡ Some r → slice_get columns.now j ≡ Some c
        → (1 ≤ slice_index_or counts.new (i * 64 + j) 0) ↔ IsNamed step.now r.id c.id }
    ensures len { length counts.new ≡ 4096 }
{
    if let Step::Activate { atoms, .. } = step {
        count_caught(rows, columns, atoms.as_slice(), counts);
    }
}

/// Whether more than one of the counted atoms names the crossing of a caught one.
pub(crate) fn is_shared(rows: &[Beam], columns: &[Beam], counts: &[u8], c: Caught) -> bool
    requires rows_rising { AreByRisingId rows.now }
    requires columns_rising { AreByRisingId columns.now }
    requires room { length counts.now ≡ 4096 }
    ensures { IsTrue result ↔ ((n : ℕ) × IsCrossingOf rows.now columns.now c.row c.column n × (2 ≤ slice_index_or counts.now n 0)) }
{
    match crossing_of(rows, columns, c.row, c.column) {
        Some(n) => 2 <= counts[n],
        None => false,
    }
}

impl<'a> Machine<'a> {
    /// The number of the crossing of an AOD that holds the atom of a qubit.
    fn held_crossing(&self, aod: u8, q: u32) -> Option<usize>
        requires { q < length self.now.state.places }
        ensures { MatchOption result ((row column : ℕ) → ¬ IsAt self.now.state q (Held aod row column))
            (λ n. (n < 4096) × ((row : ℕ) × (column : ℕ) × IsAt self.now.state q (Held aod row column)
            × IsCrossingOf (beams_of self.now.state aod).rows (beams_of self.now.state aod).columns row column n)) }
    {
        let _sound = self.most_beams();
        match self.place(q) {
            Place::Trap(_) => None,
            Place::Held {
                aod: k,
                row,
                column,
            } => {
                if k != aod {
                    return None;
                }
                crossing_of(
                    self.active(aod, Axis::Row),
                    self.active(aod, Axis::Column),
                    row,
                    column,
                )
            }
        }
    }

    /// Counts how often the atom of each crossing of an AOD is listed.
    pub(crate) fn count_dropped(&self, aod: u8, atoms: &[Dropped], counts: &mut [u8])
        requires known { All (λ d. d.q < length self.now.state.places) atoms.now }
        requires room { length counts.old ≡ 4096 }
        requires clean { (n : ℕ) → slice_index_or counts.old n 0 ≡ 0 }
        ensures counts { CountsDropped self.now.state aod atoms.now counts.new }
        ensures len { length counts.new ≡ 4096 }
    {
        let _sound = self.most_beams();
        for d in atoms {
            count(counts, self.held_crossing(aod, d.q));
        }
    }

    /// Whether the atom of a qubit is held by an AOD and counted more than once.
    pub(crate) fn is_repeated(&self, aod: u8, counts: &[u8], q: u32) -> bool
        requires known { q < length self.now.state.places }
        requires room { length counts.now ≡ 4096 }
        ensures { IsTrue result ↔ ((row : ℕ) × (column : ℕ) × (n : ℕ) × IsAt self.now.state q (Held aod row column)
            × IsCrossingOf (beams_of self.now.state aod).rows (beams_of self.now.state aod).columns row column n
            × (2 ≤ slice_index_or counts.now n 0)) }
    {
        let _sound = self.most_beams();
        match self.held_crossing(aod, q) {
            Some(n) => 2 <= counts[n],
            None => false,
        }
    }
}
