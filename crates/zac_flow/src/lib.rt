//! The top call: from the words of a command to its answer.
#![tactic(auto)]

mod commands;
mod flow;
mod inputs;
pub mod laws;
mod make;
mod stages;
mod texts;
mod words;
mod writing;

pub use flow::run;
pub use make::make_text;
pub use zac_fault::Status;
