//! The least number that a step names and the machine doesn't have.

ghost use Rattle.std.specs.Prelude.{◌≡◌, ◌≤◌, [], ◌∷◌, map, length};
ghost use Rattle.std.specs.List.{Contains, flat_map};
ghost use Rattle.zair_form.specs.declared.step.Caught.{Caught};
ghost use Rattle.zair_form.specs.declared.step.Dropped.{Dropped};
ghost use Rattle.zair_form.specs.declared.step.PairOf.{PairOf};
ghost use Rattle.zair_form.specs.declared.step.ReadOf.{ReadOf};
ghost use Rattle.zair_state.specs.Faults.{IsUnknown};
ghost use Rattle.zair_state.specs.Least.{IsLeastOf};

use crate::least::{lesser, lesser_if};
use crate::machine::Machine;
use zair_form::{Caught, Dropped, PairOf, ReadOf, Step};

/// The least qubit of caught atoms that isn't below a number.
fn least_caught(atoms: &[Caught], qubits: u32) -> Option<u32>
    ensures { IsLeastOf (λ n. Contains (map (λ c. c.q) atoms.now) n × (qubits ≤ n)) result }
{
    let mut least = None;
    for c in atoms {
        least = lesser_if(least, qubits <= c.q, c.q);
    }
    least
}

/// The least qubit of dropped atoms that isn't below a number.
fn least_dropped(atoms: &[Dropped], qubits: u32) -> Option<u32>
    ensures { IsLeastOf (λ n. Contains (map (λ d. d.q) atoms.now) n × (qubits ≤ n)) result }
{
    let mut least = None;
    for d in atoms {
        least = lesser_if(least, qubits <= d.q, d.q);
    }
    least
}

/// The least trap of dropped atoms that isn't below a number.
fn least_trap(atoms: &[Dropped], traps: u32) -> Option<u32>
    ensures { IsLeastOf (λ n. Contains (map (λ d. d.trap.0) atoms.now) n × (traps ≤ n)) result }
{
    let mut least = None;
    for d in atoms {
        least = lesser_if(least, traps <= d.trap.0, d.trap.0);
    }
    least
}

/// The least qubit that is read and isn't below a number.
fn least_read(reads: &[ReadOf], qubits: u32) -> Option<u32>
    ensures { IsLeastOf (λ n. Contains (map (λ r. r.q) reads.now) n × (qubits ≤ n)) result }
{
    let mut least = None;
    for r in reads {
        least = lesser_if(least, qubits <= r.q, r.q);
    }
    least
}

/// The least qubit of pairs that isn't below a number.
fn least_paired(pairs: &[PairOf], qubits: u32) -> Option<u32>
    ensures { IsLeastOf (λ n. Contains (flat_map (λ p. p.a ∷ p.b ∷ []) pairs.now) n × (qubits ≤ n)) result }
{
    let mut least = None;
    for p in pairs {
        let one = lesser_if(None, qubits <= p.a, p.a);
        least = lesser(least, lesser_if(one, qubits <= p.b, p.b));
    }
    least
}

impl<'a> Machine<'a> {
    /// How many qubits there are: at most 65,536.
    pub fn qubits(&self) -> u32
        ensures { result ≡ length self.now.state.places }
    {
        let _ = &self.card;
        self.places.len() as u32
    }

    /// How many AODs there are: at most 8.
    pub(crate) fn aods(&self) -> usize
        ensures { result ≡ length self.now.state.aods }
    {
        self.aods.len()
    }

    /// The number of an AOD, where there is none of it.
    fn unknown_aod(&self, aod: u8) -> Option<u32>
        ensures { IsLeastOf (λ n. Contains (aod ∷ []) n × (length self.now.state.aods ≤ n)) result }
    {
        lesser_if(None, self.aods.len() <= aod as usize, u32::from(aod))
    }

    /// The least number that a step names and the machine doesn't have.
    pub(crate) fn unknown(&self, step: &Step) -> Option<u32>
        ensures { IsLeastOf (IsUnknown self.now.card self.now.state step.now) result }
    {
        let qubits = self.qubits();
        match step {
            Step::Activate { aod, atoms, .. } => lesser(
                self.unknown_aod(*aod),
                least_caught(atoms.as_slice(), qubits),
            ),
            Step::Move { aod, .. } => self.unknown_aod(*aod),
            Step::Deactivate { aod, atoms, .. } => {
                let dropped = atoms.as_slice();
                let named = lesser(
                    least_dropped(dropped, qubits),
                    least_trap(dropped, self.card().traps()),
                );
                lesser(self.unknown_aod(*aod), named)
            }
            Step::One { gate } => lesser_if(None, qubits <= gate.q, gate.q),
            Step::Pulse { pairs } => least_paired(pairs.as_slice(), qubits),
            Step::Readout { reads } => least_read(reads.as_slice(), qubits),
        }
    }
}
