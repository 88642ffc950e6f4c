//! The planner: from a circuit in native ops to a program of the machine.
//!
//! Zones, pulses and jobs follow ZAC (Lin, Tan and Cong, HPCA 2025). The pairs of a circuit go into pulses and its
//! one-qubit gates into the slots between them, as early as they can. Between two pulses as many gates as can be are kept
//! at their sites, the other atoms leave for storage, and the new gates go to free sites, each at least cost. Atoms that
//! can move together are moved in one job. What is to be done gets its AODs and times by `zac_sched`.
#![tactic(auto)]

mod agenda;
pub mod planner;
mod returning;
mod rounds;
mod seating;
mod shifts;
mod slots;

pub use planner::{PlanFault, compile};
