//! Groups of moves as jobs of an AOD: row by row loaded, carried, and row by row unloaded.
//!
//! An AOD makes a trap at each crossing of an active row and an active column, so beams that are active at once may
//! cross over atoms that are to stay. A job therefore loads a row at a time, and parks what is loaded a little beside
//! its traps before the next row is switched on; it unloads in the same way. So no crossing ever comes to rest within
//! reach of a trap other than to pick or drop an atom there (after the rearrangement jobs of ZAC, Lin, Tan and Cong,
//! HPCA 2025; the parking is this project's own).
#![tactic(auto)]

mod atom;
mod beams;
mod grid;
mod job;
mod laws;
mod layout;
mod line;
mod lowering;
mod route;
mod span;
mod stage;
mod steps;

pub use job::Job;
pub use laws::{job_limits, job_resources, jobs_are_sound};
pub use lowering::lower;
pub use zac_memory::Memory;
