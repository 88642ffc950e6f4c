//! Flags, kept as bits: a set of small numbers in which the next one that is missing is found 64 at a time.
#![tactic(auto)]

mod bits;
mod flags;

pub use flags::Flags;
