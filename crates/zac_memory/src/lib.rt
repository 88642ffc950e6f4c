//! Want of memory, as every crate tells it.
#![tactic(auto)]

ghost use Rattle.std.specs.Prelude.{◌≡◌};

use std::alloc::{AllocError, AllocFailed};

/// There was no memory for the call.
#[derive(Clone, Copy, Debug)]
pub struct Memory;

impl From<AllocError> for Memory {
    ghost from_gives = { λ _ e. e ≡ record {} };

    fn from(_e: AllocError) -> Memory {
        Memory
    }
}

impl<T: Drop> From<AllocFailed<T>> for Memory {
    ghost from_gives = { λ _ e. e ≡ record {} };

    fn from(_e: AllocFailed<T>) -> Memory {
        Memory
    }
}
