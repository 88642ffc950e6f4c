//! What is wrong with a pulse, a gate or a readout.

ghost use Rattle.std.specs.Prelude.{◌≡◌, ◌<◌, ◌⊎◌, ◌↔◌, IsTrue, MatchOption, Some, length, slice_get, take, ℕ, ◌≤◌};
ghost use Rattle.std.specs.List.{All, AllPairs, Any, Contains};
ghost use Rattle.zac_arch.specs.Architecture.{StandsAt, IsLit};
ghost use Rattle.zac_arch.specs.declared.place.Point.{Point};
ghost use Rattle.zair_form.specs.declared.step.Beam.{Beam};
ghost use Rattle.zair_form.specs.declared.step.PairOf.{PairOf};
ghost use Rattle.zair_state.specs.Faults.{IsHeld, IsNotAtRest, IsPairWrong, IsCrossingLit};
ghost use Rattle.zair_state.specs.FirstFault.{AreMetBefore};
ghost use Rattle.zair_state.specs.Legal.{IsPairOf};
ghost use Rattle.zair_state.specs.Least.{IsLeastOf, IsLeastPairOf, IsLeastTripleOf};
ghost use Rattle.zair_state.specs.State.{IsAt, RestsLit, AreInRange, crossing, beams_of};

use crate::least::{earlier, lesser_id_if, lesser_if};
use crate::machine::Machine;
use crate::sites::MOST_SITES;
use zac_arch::Point;
use zair_form::{Beam, PairOf, ReadOf, Step};
use zair_state::{Axis, Place};

impl<'a> Machine<'a> {
    /// Whether the atom of a qubit is held.
    fn is_held(&self, q: u32) -> bool
        requires { q < length self.now.state.places }
        ensures { IsTrue result ↔ IsHeld self.now.state q }
    {
        match self.place(q) {
            Place::Trap(_) => false,
            Place::Held { .. } => true,
        }
    }

    /// The least qubit of a readout whose atom is held.
    fn least_held(&self, reads: &[ReadOf]) -> Option<u32>
        requires { All (λ r. r.q < length self.now.state.places) reads.now }
        ensures { IsLeastOf (λ q. Any (λ r. r.q ≡ q) reads.now × IsHeld self.now.state q) result }
    {
        let mut least = None;
        for r in reads {
            least = lesser_if(least, self.is_held(r.q), r.q);
        }
        least
    }

    /// The least column whose crossing with a row is lit.
    fn lit_column(&self, row: Beam, columns: &[Beam]) -> Option<u8>
        ensures { IsLeastOf (λ id. (column : Beam) × Contains columns.now column
            × IsLit self.now.card (crossing row column) × (column.id ≡ id)) result }
    {
        let mut least = None;
        for column in columns {
            least = lesser_id_if(
                least,
                self.lit(Point {
                    x: column.at,
                    y: row.at,
                }),
                column.id,
            );
        }
        least
    }

    /// The first lit crossing of rows and columns: by its row, and then by its column.
    fn lit_pair(&self, rows: &[Beam], columns: &[Beam]) -> Option<(u8, u8)>
        requires { AllPairs (λ b c. b.id < c.id) rows.now }
        ensures { IsLeastPairOf (λ r c. (row : Beam) × (column : Beam) × Contains rows.now row × Contains columns.now column
            × (row.id ≡ r) × (column.id ≡ c) × IsLit self.now.card (crossing row column)) result }
    {
        for row in rows {
            if let Some(column) = self.lit_column(*row, columns) {
                return Some((row.id, column));
            }
        }
        None
    }

    /// The first pair that is listed twice, or listed and not in range, or in range and not listed; the smaller qubit
    /// first. Two atoms are in range exactly where they rest at one site, so one pass over the pairs, which marks their
    /// sites, and one over the sites find it.
    fn wrong_pair(&self, pairs: &[PairOf]) -> Option<(u32, u32)>
        requires { All (λ p. (p.a < length self.now.state.places) × (p.b < length self.now.state.places)) pairs.now }
        ensures { IsLeastPairOf (λ q r. (q ≤ r) × (((i : ℕ) × (j : ℕ) × (p : PairOf) × (p' : PairOf) × (i < j)
            × (slice_get pairs.now i ≡ Some p) × (slice_get pairs.now j ≡ Some p') × IsPairOf p q r × IsPairOf p' q r)
            ⊎ ((Any (λ p. IsPairOf p q r) pairs.now × ¬ AreInRange self.now.card self.now.state q r)
            ⊎ (AreInRange self.now.card self.now.state q r × ¬ Any (λ p. IsPairOf p q r) pairs.now)))) result }
    {
        let _sound = self.most_beams();
        let _rules = self.card.figures();
        self.site_laws();
        let mut marks = [false; MOST_SITES];
        let listed = self.least_listed_wrong(pairs, &mut marks);
        earlier(listed, self.least_unlisted(&marks))
    }

    /// The first wrong pair of a step.
    pub(crate) fn pair_wrong(&self, step: &Step) -> Option<(u32, u32)>
        requires met { AreMetBefore self.now.card self.now.state step.now 1 }
        ensures { IsLeastPairOf (IsPairWrong self.now.card self.now.state step.now) result }
    {
        match step {
            Step::Pulse { pairs } => self.wrong_pair(pairs.as_slice()),
            _ => None,
        }
    }

    /// The least qubit of a gate or a readout whose atom is held.
    pub(crate) fn not_at_rest(&self, step: &Step) -> Option<u32>
        requires met { AreMetBefore self.now.card self.now.state step.now 1 }
        ensures { IsLeastOf (IsNotAtRest self.now.state step.now) result }
    {
        match step {
            Step::One { gate } => lesser_if(None, self.is_held(gate.q), gate.q),
            Step::Readout { reads } => self.least_held(reads.as_slice()),
            _ => None,
        }
    }

    /// How many AODs there are, as a number that steps use.
    fn aod_count(&self) -> u8
        ensures { result ≡ length self.now.state.aods }
    {
        let _sound = self.most_beams();
        self.card().figures().aods
    }

    /// The first lit crossing: by its AOD, then by its row, and then by its column.
    fn lit_crossing(&self) -> Option<(u8, u8, u8)>
        ensures { IsLeastTripleOf (λ k r c. (row : Beam) × (column : Beam) × Contains (beams_of self.now.state k).rows row
            × Contains (beams_of self.now.state k).columns column × (row.id ≡ r) × (column.id ≡ c)
            × IsLit self.now.card (crossing row column)) result }
    {
        let _sound = self.most_beams();
        for aod in 0..self.aod_count() {
            let (rows, columns) = (self.active(aod, Axis::Row), self.active(aod, Axis::Column));
            if let Some((row, column)) = self.lit_pair(rows, columns) {
                return Some((aod, row, column));
            }
        }
        None
    }

    /// The first lit crossing at a pulse.
    pub(crate) fn crossing_lit(&self, step: &Step) -> Option<(u8, u8, u8)>
        ensures { IsLeastTripleOf (IsCrossingLit self.now.card self.now.state step.now) result }
    {
        match step {
            Step::Pulse { .. } => self.lit_crossing(),
            _ => None,
        }
    }
}
