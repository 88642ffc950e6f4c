//! What watches count.

ghost use Rattle.std.specs.Prelude.{◌≡◌};
ghost use Rattle.zac_watch.specs.Weights.{name_of, weight};

use zair_form::Step;

/// What a watch counts, and so what each step weighs for it.
#[derive(Clone, Copy, Debug, PartialEq, Eq)]
pub enum Kind {
    /// One-qubit gates: 1 for each.
    Gates,
    /// Moves: 1 for each.
    Moves,
    /// Pairs: for a pulse the number of its pairs.
    Pairs,
    /// Atoms that are caught: for an activate the number of its atoms.
    Picks,
    /// Pulses: 1 for each.
    Pulses,
    /// Reads: for a readout the number of its reads.
    Reads,
}

impl Kind {
    /// What a step weighs for this kind; 0 where it is none of what the kind counts.
    pub fn weight(self, step: &Step) -> u64
        ensures { result ≡ weight self step.now }
    {
        match (self, step) {
            (Kind::Gates, Step::One { .. }) => 1,
            (Kind::Moves, Step::Move { .. }) => 1,
            (Kind::Pairs, Step::Pulse { pairs }) => pairs.as_slice().len() as u64,
            (Kind::Picks, Step::Activate { atoms, .. }) => atoms.as_slice().len() as u64,
            (Kind::Pulses, Step::Pulse { .. }) => 1,
            (Kind::Reads, Step::Readout { reads }) => reads.as_slice().len() as u64,
            _ => 0,
        }
    }

    /// Its name, as it is printed: `gates`, `moves`, `pairs`, `picks`, `pulses` or `reads`.
    pub fn name(self) -> &'static str
        ensures { result.now ≡ name_of self }
    {
        match self {
            Kind::Gates => "gates",
            Kind::Moves => "moves",
            Kind::Pairs => "pairs",
            Kind::Picks => "picks",
            Kind::Pulses => "pulses",
            Kind::Reads => "reads",
        }
    }
}
