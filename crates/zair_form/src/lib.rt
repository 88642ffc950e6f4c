//! The forms of ZAIR, the intermediate representation of ZAC (Lin, Tan and Cong, HPCA 2025): steps of the
//! machine, instructions and programs, with the times of steps.
#![tactic(auto)]

mod copies;
pub mod program;
pub mod step;
mod timer;

pub use program::{Act, Instr, Program};
pub use step::{Beam, Caught, Dropped, OneGate, PairOf, ReadOf, Step};
pub use timer::StepTimer;
