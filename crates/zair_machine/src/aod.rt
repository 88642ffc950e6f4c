//! The active beams of one AOD.

use arrayvec::ArrayVec;
use std::marker::Model;
use zair_form::Beam;

/// The active beams of one AOD, its rows and its columns, each by rising id. Contracts see it as `Beams`.
#[derive(Drop)]
pub(crate) struct Aod {
    pub(crate) rows: ArrayVec<Beam, 64>,
    pub(crate) columns: ArrayVec<Beam, 64>,
}

impl Model for Aod {
    ghost use Rattle.zair_state.specs.State.{Beams};

    ghost Value = { Beams };

    ghost view = { λ a. record { rows = a.rows.items; columns = a.columns.items } };
}

impl Aod {
    ghost use Rattle.std.specs.Prelude.{◌≡◌};
    ghost use Rattle.zair_state.specs.State.{idle};

    /// An AOD without a beam.
    pub(crate) fn idle() -> Aod
        ensures { result ≡ idle }
    {
        Aod {
            rows: ArrayVec::new(),
            columns: ArrayVec::new(),
        }
    }

    /// Its rows.
    pub(crate) fn rows(&self) -> &[Beam]
        ensures { result.now ≡ self.now.rows }
    {
        self.rows.as_slice()
    }

    /// Its columns.
    pub(crate) fn columns(&self) -> &[Beam]
        ensures { result.now ≡ self.now.columns }
    {
        self.columns.as_slice()
    }
}
