//! What can be wrong with a program that is watched or replayed.

use zac_gates::CheckFault;
use zac_memory::Memory;
use zair_machine::MachineFault;

/// Why the steps of a program weren't all shown.
#[derive(Clone, Copy, Debug, PartialEq, Eq)]
pub enum WatchFault {
    /// The home of this qubit isn't a storage trap, or is that of a qubit of smaller number. It is the least such
    /// qubit.
    Home { q: u32 },
    /// The step of this number in the named order, counted from 0, is the first that isn't legal.
    Machine { step: u64, fault: MachineFault },
    /// There was no memory.
    Memory,
}

impl From<Memory> for WatchFault {
    ghost use Rattle.std.specs.Prelude.{◌≡◌};
    ghost use Rattle.zac_watch.specs.declared.fault.WatchFault.TheVariants as fault;

    ghost from_gives = { λ _ e. e ≡ fault.Memory };

    fn from(_error: Memory) -> WatchFault {
        WatchFault::Memory
    }
}

/// Why a program doesn't replay a circuit: the first of these that holds.
#[derive(Clone, Copy, Debug)]
pub enum ReplayFault {
    /// The program has homes for another number of qubits than the circuit has.
    Qubits { text: u64, source: u32 },
    /// The home of this qubit isn't a storage trap, or is that of a qubit of smaller number. It is the least such
    /// qubit.
    Home { q: u32 },
    /// The instruction of this number, counted from 0, is the first whose end isn't its begin and the time that its
    /// steps take together.
    Length { instr: u64 },
    /// The step of this number in the named order, counted from 0, is the first wrong one, and isn't legal.
    Machine { step: u64, fault: MachineFault },
    /// The step of this number in the named order is the first wrong one; it is legal, and of the ops that it performs
    /// the first that can't be performed then is told.
    Check { step: u64, fault: CheckFault },
    /// No step is wrong, and this is the least op of the circuit, other than a fence, that none performs.
    Missing { op: u32 },
    /// There was no memory.
    Memory,
}

impl From<Memory> for ReplayFault {
    ghost use Rattle.std.specs.Prelude.{◌≡◌};
    ghost use Rattle.zac_watch.specs.declared.fault.ReplayFault.TheVariants as fault;

    ghost from_gives = { λ _ e. e ≡ fault.Memory };

    fn from(_error: Memory) -> ReplayFault {
        ReplayFault::Memory
    }
}
