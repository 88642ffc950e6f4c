//! Steps of the machine.

use zac_arch::TrapId;
use zac_gates::{Angles, List};

/// A beam of an AOD and where it stands.
#[derive(Clone, Copy, Debug, Default, PartialEq, Eq)]
pub struct Beam {
    /// Its number among the rows, or among the columns, of its AOD.
    pub id: u8,
    /// The y of a row or the x of a column, in tenths of a micrometre: 0 to 1,000,000.
    pub at: u32,
}

/// An atom that is caught by a crossing.
#[derive(Clone, Copy, Debug, PartialEq, Eq)]
pub struct Caught {
    /// The qubit.
    pub q: u32,
    /// The row beam of the crossing.
    pub row: u8,
    /// The column beam of the crossing.
    pub column: u8,
}

/// An atom that is dropped into a trap.
#[derive(Clone, Copy, Debug, PartialEq, Eq)]
pub struct Dropped {
    /// The qubit.
    pub q: u32,
    /// The trap.
    pub trap: TrapId,
}

/// A one-qubit gate.
#[derive(Debug, Drop)]
pub struct OneGate {
    /// The number of the op in the native list.
    pub op: u32,
    /// The qubit.
    pub q: u32,
    /// The angles of `U(theta,phi,lambda)`.
    pub angles: Angles,
}

/// A pair that a pulse entangles by a CZ.
#[derive(Clone, Copy, Debug, PartialEq, Eq)]
pub struct PairOf {
    /// The number of the op in the native list.
    pub op: u32,
    /// The first qubit.
    pub a: u32,
    /// The second qubit.
    pub b: u32,
}

/// A read of a qubit.
#[derive(Clone, Copy, Debug, PartialEq, Eq)]
pub struct ReadOf {
    /// The number of the op in the native list.
    pub op: u32,
    /// The qubit.
    pub q: u32,
    /// The bit that takes the outcome.
    pub bit: u32,
}

/// One step of the machine.
#[derive(Debug, Drop)]
pub enum Step {
    /// An AOD switches beams on, and the listed atoms are held by its crossings from then on.
    Activate {
        aod: u8,
        rows: List<Beam>,
        columns: List<Beam>,
        atoms: List<Caught>,
    },
    /// All beams of an AOD go to new positions.
    Move {
        aod: u8,
        rows: List<Beam>,
        columns: List<Beam>,
    },
    /// An AOD switches beams off, and the listed atoms rest in traps from then on.
    Deactivate {
        aod: u8,
        rows: List<u8>,
        columns: List<u8>,
        atoms: List<Dropped>,
    },
    /// The laser performs a one-qubit gate.
    One {
        gate: OneGate,
    },
    /// The laser lights the entangling zones, and each pair of atoms within the blockade radius there gets a CZ.
    Pulse {
        pairs: List<PairOf>,
    },
    /// Qubits are read.
    Readout {
        reads: List<ReadOf>,
    },
}
