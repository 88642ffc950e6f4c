//! The faults with which a command may end: their statuses, and the line of each on err.
#![tactic(auto)]

mod names;
mod part;
mod refusal;
mod replay_refusal;
mod status;

pub use part::{Part, add_parts};
pub use status::{Fault, InputFile, Status};
