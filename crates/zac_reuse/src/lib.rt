//! Which gates stay at their site from one pulse to the next.
//!
//! A gate of the next pulse that shares a qubit with a gate of this pulse may take that gate's site, and the qubit stays
//! where it is. As many gates as can stay do: they are chosen by a greatest matching, as in ZAC (Lin, Tan and Cong, HPCA
//! 2025).
#![tactic(auto)]

mod keeping;
pub mod laws;
mod sharing;

pub use keeping::{Kept, keep};
