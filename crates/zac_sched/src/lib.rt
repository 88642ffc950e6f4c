//! The times of a program: which AOD makes a job, and when each instruction begins; and that the steps of a program may
//! come in every order that its times allow.
//!
//! The instructions and their resources follow ZAC (Lin, Tan and Cong, HPCA 2025); the rule of times is this project's own.
#![tactic(auto)]

mod ends;
mod laws;
mod scheduling;
mod todo;

pub use laws::{steps_change_places, tidy_programs_perform};
pub use scheduling::schedule;
pub use todo::Todo;
pub use zac_memory::Memory;
