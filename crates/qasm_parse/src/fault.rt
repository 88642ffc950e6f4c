//! Why no statement is read.

use std::alloc::{AllocError, AllocFailed};

/// Why no statement is read.
#[derive(Clone, Copy)]
pub enum SyntaxFault {
    /// Memory ran out.
    Memory,
    /// The offset of the first token with which the tokens so far begin no statement, or the source's length where
    /// the tokens end before the statement does.
    At { at: u32 },
}

impl From<AllocError> for SyntaxFault {
    ghost use Rattle.std.specs.Prelude.{◌≡◌};
    ghost use Rattle.qasm_parse.specs.declared.fault.SyntaxFault.TheVariants.{Memory};

    ghost from_gives = { λ _ e. e ≡ Memory };

    fn from(_error: AllocError) -> SyntaxFault {
        SyntaxFault::Memory
    }
}

impl<T: Drop> From<AllocFailed<T>> for SyntaxFault {
    ghost use Rattle.std.specs.Prelude.{◌≡◌};
    ghost use Rattle.qasm_parse.specs.declared.fault.SyntaxFault.TheVariants.{Memory};

    ghost from_gives = { λ _ e. e ≡ Memory };

    fn from(_error: AllocFailed<T>) -> SyntaxFault {
        SyntaxFault::Memory
    }
}
