//! What is wrong with a step.

use zac_arch::TrapId;
use zac_gates::Memory;

/// The rows or the columns of an AOD.
#[derive(Clone, Copy, Debug, PartialEq, Eq)]
pub enum Axis {
    /// Its row beams.
    Row,
    /// Its column beams.
    Column,
}

/// A beam of the AOD that a step names.
#[derive(Clone, Copy, Debug, PartialEq, Eq)]
pub struct BeamId {
    /// Whether it is a row or a column.
    pub axis: Axis,
    /// Its number among the rows, or among the columns, of its AOD.
    pub id: u8,
}

/// Why a step isn't legal: the first condition that it breaks, in the order of these variants, `NotAtRest` and
/// `Crossing` being one. Of several things that break it the least is told: rows before columns, by id;
/// crossings by AOD, then row, then column; qubits, pairs and unknown numbers by number.
#[derive(Clone, Copy, Debug, PartialEq, Eq)]
pub enum MachineFault {
    /// The step names an AOD, a qubit or a trap that the machine doesn't have.
    Unknown { number: u32 },
    /// An id is listed twice in one list of beams, or an active beam is switched on.
    Busy { beam: BeamId },
    /// A beam is moved or switched off that isn't active, a move leaves an active beam out, or a caught atom
    /// names a beam that isn't active after the step.
    NotActive { beam: BeamId },
    /// With this beam and those of lower id the AOD would have more rows or columns than the card allows, or a
    /// position passes 1,000,000.
    Limit { beam: BeamId },
    /// The beam's position isn't greater than that of the beam of next lower id.
    Order { beam: BeamId },
    /// The beam's position is greater than that of the beam of next lower id, but by less than the gap.
    Gap { beam: BeamId },
    /// A crossing of the AOD comes within reach of a trap, or of a crossing of another AOD.
    Touch { row: u8, column: u8 },
    /// An atom can't be caught as the step says.
    PickWrong { q: u32 },
    /// An atom can't be dropped as the step says, or is left without beams.
    DropWrong { q: u32 },
    /// A held atom is moved onto a trap that holds an atom.
    TrapFull { q: u32, trap: TrapId },
    /// A pair is listed twice, or isn't in range, or is in range and isn't listed; the smaller qubit first.
    PairWrong { a: u32, b: u32 },
    /// A pulse lights an atom that is in no listed pair.
    LitAlone { q: u32 },
    /// A gate or a readout is asked of an atom that is held.
    NotAtRest { q: u32 },
    /// A crossing stands inside a lit box at a pulse.
    Crossing { aod: u8, row: u8, column: u8 },
}

/// Why there is no machine with these homes.
#[derive(Clone, Copy, Debug, PartialEq, Eq)]
pub enum NewFault {
    /// The home of this qubit isn't a storage trap, or is that of a qubit of smaller number. It is the least such
    /// qubit.
    Home { q: u32 },
    /// There was no memory.
    Memory,
}

impl From<Memory> for NewFault {
    ghost use Rattle.std.specs.Prelude.{◌≡◌};
    ghost use Rattle.zair_state.specs.declared.fault.NewFault.TheVariants as fault;

    ghost from_gives = { λ _ e. e ≡ fault.Memory };

    fn from(_error: Memory) -> NewFault {
        NewFault::Memory
    }
}
