//! How far a job is.

ghost use Rattle.std.specs.Prelude.{◌≡◌};
ghost use Rattle.zac_aod.specs.Stages.{is_loaded, is_over_targets, is_in_place, row_in_turn};

/// A stage of a job. Rows are named by their places at the sources.
#[derive(Clone, Copy, Debug, PartialEq, Eq)]
pub(crate) enum Stage {
    /// No atom is caught yet.
    Waiting,
    /// The rows up to this one are loaded, and this one stands at its source.
    Caught {
        /// The row.
        turn: u32,
    },
    /// The rows up to the first of these are loaded and parked, and the columns stand ready for the second.
    Parked {
        /// The row that was loaded last.
        turn: u32,
        /// The row that is loaded next.
        next: u32,
    },
    /// The rows before this one are unloaded, and this one stands at its target.
    Landed {
        /// The row.
        turn: u32,
    },
    /// The rows up to this one are unloaded.
    Dropped {
        /// The row.
        turn: u32,
    },
}

impl Stage {
    /// Whether the atoms of this row are held.
    pub(crate) fn is_loaded(self, row: u32) -> bool
        ensures { result ≡ is_loaded self row }
    {
        match self {
            Stage::Waiting => false,
            Stage::Caught { turn } => row <= turn,
            Stage::Parked { turn, .. } => row <= turn,
            Stage::Landed { turn } => turn <= row,
            Stage::Dropped { turn } => turn < row,
        }
    }

    /// Whether the beams are at the targets.
    pub(crate) fn is_over_targets(self) -> bool
        ensures { result ≡ is_over_targets self }
    {
        matches!(self, Stage::Landed { .. } | Stage::Dropped { .. })
    }

    /// Whether this row stands exactly at its place.
    pub(crate) fn is_in_place(self, row: u32) -> bool
        ensures { result ≡ is_in_place self row }
    {
        match self {
            Stage::Waiting => false,
            Stage::Caught { turn } => row == turn,
            Stage::Parked { .. } => false,
            Stage::Landed { turn } => row == turn,
            Stage::Dropped { .. } => false,
        }
    }

    /// The row for which the columns stand ready; 0 before the first.
    pub(crate) fn row_in_turn(self) -> u32
        ensures { result ≡ row_in_turn self }
    {
        match self {
            Stage::Waiting => 0,
            Stage::Caught { turn } => turn,
            Stage::Parked { next, .. } => next,
            Stage::Landed { turn } => turn,
            Stage::Dropped { turn } => turn,
        }
    }
}
