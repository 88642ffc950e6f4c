//! Where atoms are.

use zac_arch::TrapId;

/// The place of an atom.
#[derive(Clone, Copy, Debug, PartialEq, Eq)]
pub enum Place {
    /// It rests in a trap.
    Trap(TrapId),
    /// It is held at the crossing of a row and a column of an AOD.
    Held { aod: u8, row: u8, column: u8 },
}
