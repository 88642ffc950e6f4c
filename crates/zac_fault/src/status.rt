//! How a command ends.

ghost use Rattle.std.specs.Prelude.{◌≡◌};

use qasm_expand::LimitKind;
use qasm_source::{Refusal, SourceFault};
use zac_archfile::CardFault;
use zac_gates::Memory;
use zac_watch::ReplayFault;

/// The status with which a command ends.
#[derive(Clone, Copy, Debug, PartialEq, Eq)]
pub enum Status {
    /// The command did its work.
    Done,
    /// The source is refused.
    SourceRefused,
    /// The words are no command.
    Usage,
    /// A file could not be read.
    ReadFault,
    /// The output could not be written.
    WriteFault,
    /// There was no memory.
    NoMemory,
    /// The card is refused.
    CardRefused,
    /// The circuit has more qubits than the card has storage traps.
    TooManyQubits,
    /// The text is that of no program.
    ZairRefused,
    /// The program doesn't replay the circuit.
    NotTheCircuit,
    /// A file is longer than its limit.
    TooLong,
    /// The source passes a limit of the expansion.
    Limit,
}

impl Status {
    ghost use Rattle.zac_fault.specs.Codes.{code_of};

    /// The number with which the program ends.
    pub fn code(&self) -> u8
        ensures { result ≡ code_of self.now }
    {
        match self {
            Status::Done => 0,
            Status::SourceRefused => 1,
            Status::Usage => 2,
            Status::ReadFault => 3,
            Status::WriteFault => 4,
            Status::NoMemory => 5,
            Status::CardRefused => 6,
            Status::TooManyQubits => 7,
            Status::ZairRefused => 8,
            Status::NotTheCircuit => 9,
            Status::TooLong => 10,
            Status::Limit => 11,
        }
    }
}

/// A file that a command reads.
#[derive(Clone, Copy, Debug, PartialEq, Eq)]
pub enum InputFile {
    /// That of the card.
    Card,
    /// That of the source.
    Source,
    /// That of the text of a program.
    Zair,
}

/// Why a command is refused.
#[derive(Clone, Copy, Debug)]
pub enum Fault {
    /// The words are no command.
    Usage,
    /// A file could not be read.
    Read { file: InputFile },
    /// A file is longer than its limit.
    Long { file: InputFile },
    /// The card is refused.
    Card { fault: CardFault },
    /// The source is refused, with this kind at this offset.
    Source { kind: Refusal, at: u32 },
    /// The source passes this limit, with this count.
    Limit { kind: LimitKind, count: u64 },
    /// So many qubits for so many storage traps.
    Qubits { qubits: u32, traps: u32 },
    /// The text is that of no program, and this line is the first wrong one, counted from 1.
    Zair { line: u64 },
    /// The program doesn't replay the circuit.
    NotTheCircuit { fault: ReplayFault },
    /// The output could not be written.
    Write,
    /// There was no memory.
    Memory,
}

impl Fault {
    ghost use Rattle.zac_fault.specs.Statuses.{status_of};

    /// The status of the refusal.
    pub fn status(&self) -> Status
        ensures { result ≡ status_of self.now }
    {
        match self {
            Fault::Usage => Status::Usage,
            Fault::Read { .. } => Status::ReadFault,
            Fault::Long { .. } => Status::TooLong,
            Fault::Card { .. } => Status::CardRefused,
            Fault::Source { .. } => Status::SourceRefused,
            Fault::Limit { .. } => Status::Limit,
            Fault::Qubits { .. } => Status::TooManyQubits,
            Fault::Zair { .. } => Status::ZairRefused,
            Fault::NotTheCircuit { .. } => Status::NotTheCircuit,
            Fault::Write => Status::WriteFault,
            Fault::Memory => Status::NoMemory,
        }
    }
}

impl From<CardFault> for Fault {
    ghost use Rattle.std.specs.Prelude.{◌≡◌};
    ghost use Rattle.zac_fault.specs.Statuses.{card_fault_of};

    ghost from_gives = { λ e f. f ≡ card_fault_of e };

    fn from(fault: CardFault) -> Fault {
        match fault {
            CardFault::Memory => Fault::Memory,
            _ => Fault::Card { fault },
        }
    }
}

impl From<SourceFault> for Fault {
    ghost use Rattle.std.specs.Prelude.{◌≡◌};
    ghost use Rattle.zac_fault.specs.Statuses.{source_fault_of};

    ghost from_gives = { λ e f. f ≡ source_fault_of e };

    fn from(fault: SourceFault) -> Fault {
        match fault {
            SourceFault::Refused { kind, at } => Fault::Source { kind, at },
            SourceFault::Memory => Fault::Memory,
        }
    }
}

impl From<Memory> for Fault {
    ghost use Rattle.std.specs.Prelude.{◌≡◌};
    ghost use Rattle.zac_fault.specs.declared.status.Fault.TheVariants as fault;

    ghost from_gives = { λ _ f. f ≡ fault.Memory };

    fn from(_e: Memory) -> Fault {
        Fault::Memory
    }
}
