//! What names stand for.

use crate::gate::Target;

/// What a name stands for.
#[derive(Clone, Copy)]
pub enum Meaning {
    /// A register of so many qubits.
    Qubits {
        size: u64,
    },
    /// A register of so many bits.
    Bits {
        size: u64,
    },
    /// The gate without a body that is performed as one CZ.
    Native,
    /// The gate at this place among those with a body, with the numbers of its parameters and arguments.
    Gate {
        place: usize,
        params: usize,
        args: usize,
    },
    /// A gate that is declared without a body.
    Opaque,
}

/// What a call's name stands for.
#[derive(Clone, Copy)]
pub enum Callee {
    /// No gate.
    Unknown,
    /// A gate that is declared without a body.
    Opaque,
    /// A barrier, which takes any number of arguments and no angles.
    Barrier,
    /// A gate: what a call of it is bound to, with the numbers of its angles and arguments.
    Gate {
        target: Target,
        params: usize,
        args: usize,
    },
}
