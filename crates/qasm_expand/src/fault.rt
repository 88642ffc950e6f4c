//! Why a program has no native list within the limits.

use std::alloc::{AllocError, AllocFailed};
use zac_gates::Memory;

/// What is limited, in the order in which the limits are tested.
#[derive(Clone, Copy, Debug, PartialEq, Eq)]
pub enum LimitKind {
    /// The bytes of a number in an expression: at most 40.
    Literal,
    /// The qubits of all registers: at most 4,096.
    Qubits,
    /// The bits of all registers: at most 65,536.
    Bits,
    /// The calls, each barrier and each application of a gate or a measurement: at most 262,144.
    Calls,
    /// The depth of a call: at most 64, where a call at the top has depth 1.
    Depth,
    /// The nodes of one angle: at most 256.
    AngleNodes,
    /// The depth of one angle: at most 64, where a leaf has depth 1.
    AngleDepth,
    /// The nodes of all angles: at most 4,194,304.
    AngleTotal,
}

/// Why a program is not expanded.
#[derive(Clone, Copy)]
pub enum ExpandFault {
    /// The first limit that is passed, and the count that first passed it. A count past 2^64 - 1 stands as 2^64 - 1.
    Limit { kind: LimitKind, count: u64 },
    /// There was no memory.
    Memory,
}

impl From<Memory> for ExpandFault {
    ghost use Rattle.std.specs.Prelude.{◌≡◌};
    ghost use Rattle.qasm_expand.specs.declared.fault.ExpandFault.TheVariants.{Memory};

    ghost from_gives = { λ _ e. e ≡ Memory };

    fn from(_error: Memory) -> ExpandFault {
        ExpandFault::Memory
    }
}

impl From<AllocError> for ExpandFault {
    ghost use Rattle.std.specs.Prelude.{◌≡◌};
    ghost use Rattle.qasm_expand.specs.declared.fault.ExpandFault.TheVariants.{Memory};

    ghost from_gives = { λ _ e. e ≡ Memory };

    fn from(_error: AllocError) -> ExpandFault {
        ExpandFault::Memory
    }
}

impl<T: Drop> From<AllocFailed<T>> for ExpandFault {
    ghost use Rattle.std.specs.Prelude.{◌≡◌};
    ghost use Rattle.qasm_expand.specs.declared.fault.ExpandFault.TheVariants.{Memory};

    ghost from_gives = { λ _ e. e ≡ Memory };

    fn from(_error: AllocFailed<T>) -> ExpandFault {
        ExpandFault::Memory
    }
}
