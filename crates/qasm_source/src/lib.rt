//! From a source's bytes to the accepted program, or to its first refusal.
#![tactic(auto)]

pub mod laws;
mod source;
mod source_fault;

pub use source::read_source;
pub use source_fault::{Refusal, SourceFault};
