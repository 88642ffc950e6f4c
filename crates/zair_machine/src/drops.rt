//! What is wrong with the atoms that a step drops or takes onto full traps.

ghost use Rattle.std.specs.Prelude.{◌≡◌, ◌<◌, ◌≤◌, ◌⊎◌, ◌↔◌, ℕ, IsTrue, MatchOption, Some, length, slice_get, slice_index_or};
ghost use Rattle.std.specs.List.{AllPairs, All, Any, Contains};
ghost use Rattle.zac_arch.specs.Architecture.{StandsAt};
ghost use Rattle.zac_arch.specs.declared.place.TrapId.{TrapId};
ghost use Rattle.zair_form.specs.declared.step.Beam.{Beam};
ghost use Rattle.zair_state.specs.declared.place.Place.TheVariants.{Trap, Held};
ghost use Rattle.zair_machine.specs.Crossings.{IsWrongDrop, IsLeftBehind, CarriesOntoFull};
ghost use Rattle.zair_state.specs.Legal.{Drops};
ghost use Rattle.zair_state.specs.Least.{IsLeastOf};
ghost use Rattle.zair_state.specs.State.{IsAt, beams_of, crossing};

use crate::beams::{is_listed, point_of};
use crate::least::{lesser, lesser_if};
use crate::machine::Machine;
use zac_arch::{Point, TrapId, laws_of_traps};
use zair_form::{Beam, Dropped};
use zair_state::{Axis, Place};

/// Whether a row or a column is switched off.
fn vanishes(rows: &[u8], columns: &[u8], row: u8, column: u8) -> bool
    ensures { IsTrue result ↔ (Contains rows.now row ⊎ Contains columns.now column) }
{
    is_listed(rows, row) || is_listed(columns, column)
}

/// Whether a place is a crossing of an AOD that is switched off.
fn is_left(place: Place, aod: u8, rows: &[u8], columns: &[u8]) -> bool
    ensures { IsTrue result ↔ ((row : ℕ) × (column : ℕ) × (place ≡ Held aod row column)
        × (Contains rows.now row ⊎ Contains columns.now column)) }
{
    match place {
        Place::Trap(_) => false,
        Place::Held {
            aod: k,
            row,
            column,
        } => {
            if k != aod {
                return false;
            }
            vanishes(rows, columns, row, column)
        }
    }
}

/// Whether a crossing has the count 0, and its row is switched off or its column is.
fn is_uncounted(count: u8, off: bool, columns_off: &[u8], column: u8) -> bool
    ensures { IsTrue result ↔ ((count ≡ 0) × (IsTrue off ⊎ Contains columns_off.now column)) }
{
    count == 0 && (off || is_listed(columns_off, column))
}

impl<'a> Machine<'a> {
    /// Whether a place is a crossing of active beams that stands exactly on a trap.
    fn hangs_over(&self, place: Place, trap: TrapId) -> bool
        ensures { IsTrue result ↔ ((k : ℕ) × (row : ℕ) × (column : ℕ) × (r : Beam) × (c : Beam) × (place ≡ Held k row column)
            × Contains (beams_of self.now.state k).rows r × Contains (beams_of self.now.state k).columns c
            × (r.id ≡ row) × (c.id ≡ column) × StandsAt self.now.card trap.0 (crossing r c)) }
    {
        match place {
            Place::Trap(_) => false,
            Place::Held { aod, row, column } => {
                let _sound = self.most_beams();
                match point_of(
                    self.active(aod, Axis::Row),
                    self.active(aod, Axis::Column),
                    row,
                    column,
                ) {
                    Some(p) => self.stands_at(trap, p),
                    None => false,
                }
            }
        }
    }

    /// Whether an atom can be dropped as it is listed.
    fn drops(&self, aod: u8, rows: &[u8], columns: &[u8], d: Dropped) -> bool
        requires { d.q < length self.now.state.places }
        ensures { IsTrue result ↔ Drops self.now.card self.now.state aod rows.now columns.now d }
    {
        let place = self.place(d.q);
        if !is_left(place, aod, rows, columns) {
            return false;
        }
        self.hangs_over(place, d.trap)
    }

    /// Whether a listed atom can't be dropped so, or is counted more than once.
    fn is_wrong_drop(&self, aod: u8, rows: &[u8], columns: &[u8], d: Dropped, counts: &[u8]) -> bool
        requires known { d.q < length self.now.state.places }
        requires room { length counts.now ≡ 4096 }
        ensures { IsTrue result ↔ IsWrongDrop self.now.card self.now.state aod rows.now columns.now counts.now d }
    {
        if !self.drops(aod, rows, columns, d) {
            return true;
        }
        self.is_repeated(aod, counts, d.q)
    }

    /// The least qubit of a listed atom that can't be dropped so, or is counted more than once.
    pub(crate) fn least_wrong_drop(
        &self,
        aod: u8,
        rows: &[u8],
        columns: &[u8],
        atoms: &[Dropped],
        counts: &[u8],
    ) -> Option<u32>
        requires known { All (λ d. d.q < length self.now.state.places) atoms.now }
        requires room { length counts.now ≡ 4096 }
        ensures { IsLeastOf (λ q. Any (λ d. (d.q ≡ q) × IsWrongDrop self.now.card self.now.state aod rows.now columns.now counts.now d) atoms.now) result }
    {
        let mut least = None;
        for d in atoms {
            least = lesser_if(
                least,
                self.is_wrong_drop(aod, rows, columns, *d, counts),
                d.q,
            );
        }
        least
    }

    /// The least qubit whose atom is held at a crossing of a row that is switched off, or of a column that is, and that
    /// has the count 0.
    fn left_in_row(
        &self,
        aod: u8,
        row: u8,
        off: bool,
        columns_off: &[u8],
        columns: &[Beam],
        counts: &[u8],
    ) -> Option<u32>
        requires { length columns.now ≤ length counts.now }
        ensures { IsLeastOf (λ q. (j : ℕ) × (c : Beam) × (slice_get columns.now j ≡ Some c) × IsAt self.now.state q (Held aod row c.id)
            × (IsTrue off ⊎ Contains columns_off.now c.id) × (slice_index_or counts.now j 0 ≡ 0)) result }
    {
        let mut least = None;
        for j in 0..columns.len() {
            let column = columns[j].id;
            let left = is_uncounted(counts[j], off, columns_off, column);
            least = lesser(least, self.held_if(left, aod, row, column));
        }
        least
    }

    /// The least qubit whose atom is held at a crossing that is switched off and has the count 0.
    pub(crate) fn least_left_behind(
        &self,
        aod: u8,
        rows: &[u8],
        columns: &[u8],
        counts: &[u8],
    ) -> Option<u32>
        requires room { length counts.now ≡ 4096 }
        ensures { IsLeastOf (IsLeftBehind self.now.state aod rows.now columns.now counts.now) result }
    {
        let _sound = self.most_beams();
        let (on_rows, on_columns) = (self.active(aod, Axis::Row), self.active(aod, Axis::Column));
        let mut least = None;
        for i in 0..on_rows.len() {
            let row = on_rows[i].id;
            let off = is_listed(rows, row);
            least = lesser(
                least,
                self.left_in_row(aod, row, off, columns, on_columns, &counts[i * 64..]),
            );
        }
        least
    }

    /// The trap over which a move takes the atom of a place of its AOD, where it holds an atom.
    fn full_trap(&self, aod: u8, rows: &[Beam], columns: &[Beam], place: Place) -> Option<TrapId>
        requires rows_rising { AllPairs (λ b c. b.id < c.id) rows.now }
        requires columns_rising { AllPairs (λ b c. b.id < c.id) columns.now }
        ensures { MatchOption result
            ((t : TrapId) → ¬ ((r : Beam) × (c : Beam) × Contains rows.now r × Contains columns.now c × (place ≡ Held aod r.id c.id)
            × StandsAt self.now.card t.0 (crossing r c) × ((p : ℕ) × IsAt self.now.state p (Trap t))))
            (λ t. ((r : Beam) × (c : Beam) × Contains rows.now r × Contains columns.now c × (place ≡ Held aod r.id c.id)
            × StandsAt self.now.card t.0 (crossing r c) × ((p : ℕ) × IsAt self.now.state p (Trap t)))
            × ((u : TrapId) → ((r : Beam) × (c : Beam) × Contains rows.now r × Contains columns.now c × (place ≡ Held aod r.id c.id)
            × StandsAt self.now.card u.0 (crossing r c) × ((p : ℕ) × IsAt self.now.state p (Trap u))) → u ≡ t)) }
    {
        match moved_to(aod, rows, columns, place) {
            Some(p) => self.full_trap_at(p),
            None => None,
        }
    }

    /// The trap that stands at a point, where it holds an atom.
    fn full_trap_at(&self, p: Point) -> Option<TrapId>
        ensures { MatchOption result
            ((t : TrapId) → StandsAt self.now.card t.0 p → ¬ ((q : ℕ) × IsAt self.now.state q (Trap t)))
            (λ t. StandsAt self.now.card t.0 p × ((q : ℕ) × IsAt self.now.state q (Trap t))
            × ((u : TrapId) → StandsAt self.now.card u.0 p → u ≡ t)) }
    {
        laws_of_traps(self.card());
        match self.trap_at(p) {
            None => None,
            Some(t) => match self.atom_at(Place::Trap(t)) {
                None => None,
                Some(_) => Some(t),
            },
        }
    }

    /// Whether a trap with an atom stands at a point.
    fn is_full_at(&self, p: Point) -> bool
        ensures { IsTrue result ↔ ((t : TrapId) × StandsAt self.now.card t.0 p × ((q : ℕ) × IsAt self.now.state q (Trap t))) }
    {
        self.full_trap_at(p).is_some()
    }

    /// The least qubit whose atom a move takes with a row exactly onto a trap that holds an atom.
    fn full_in_row(&self, aod: u8, row: Beam, columns: &[Beam]) -> Option<u32>
        ensures { IsLeastOf (λ q. (c : Beam) × Contains columns.now c × CarriesOntoFull self.now.card self.now.state aod row c q) result }
    {
        let mut least = None;
        for column in columns {
            let full = self.is_full_at(Point {
                x: column.at,
                y: row.at,
            });
            least = lesser(least, self.held_if(full, aod, row.id, column.id));
        }
        least
    }

    /// The least qubit whose atom a move takes exactly onto a trap that holds an atom.
    fn least_over_full(&self, aod: u8, rows: &[Beam], columns: &[Beam]) -> Option<u32>
        ensures { IsLeastOf (λ q. (r : Beam) × (c : Beam) × Contains rows.now r × Contains columns.now c
            × CarriesOntoFull self.now.card self.now.state aod r c q) result }
    {
        let mut least = None;
        for row in rows {
            least = lesser(least, self.full_in_row(aod, *row, columns));
        }
        least
    }

    /// The least qubit whose atom a move takes exactly onto a trap that holds an atom, and that trap.
    pub(crate) fn least_full(
        &self,
        aod: u8,
        rows: &[Beam],
        columns: &[Beam],
    ) -> Option<(u32, TrapId)>
        requires rows_rising { AllPairs (λ b c. b.id < c.id) rows.now }
        requires columns_rising { AllPairs (λ b c. b.id < c.id) columns.now }
        ensures { MatchOption result
            ((q : ℕ) (t : TrapId) → ¬ ((r : Beam) × (c : Beam) × Contains rows.now r × Contains columns.now c
            × IsAt self.now.state q (Held aod r.id c.id) × StandsAt self.now.card t.0 (crossing r c)
            × ((p : ℕ) × IsAt self.now.state p (Trap t))))
            (λ f. ((r : Beam) × (c : Beam) × Contains rows.now r × Contains columns.now c
            × IsAt self.now.state f.0 (Held aod r.id c.id) × StandsAt self.now.card f.1.0 (crossing r c)
            × ((p : ℕ) × IsAt self.now.state p (Trap f.1)))
            × ((q : ℕ) (t : TrapId) → ((r : Beam) × (c : Beam) × Contains rows.now r × Contains columns.now c
            × IsAt self.now.state q (Held aod r.id c.id) × StandsAt self.now.card t.0 (crossing r c)
            × ((p : ℕ) × IsAt self.now.state p (Trap t))) → (f.0 < q) ⊎ ((f.0 ≡ q) × (t ≡ f.1)))) }
    {
        match self.least_over_full(aod, rows, columns) {
            None => None,
            Some(q) => match self.full_trap(aod, rows, columns, self.place(q)) {
                None => None,
                Some(t) => Some((q, t)),
            },
        }
    }
}

/// Where a move takes the atom of a place of its AOD.
fn moved_to(aod: u8, rows: &[Beam], columns: &[Beam], place: Place) -> Option<Point>
    ensures { MatchOption result
        ((r c : Beam) → Contains rows.now r → Contains columns.now c → ¬ (place ≡ Held aod r.id c.id))
        (λ p. (r : Beam) × (c : Beam) × Contains rows.now r × Contains columns.now c × (place ≡ Held aod r.id c.id) × (p ≡ crossing r c)) }
{
    match place {
        Place::Trap(_) => None,
        Place::Held {
            aod: k,
            row,
            column,
        } => {
            if k != aod {
                return None;
            }
            point_of(rows, columns, row, column)
        }
    }
}
