//! The written machine as a program: a state that steps change, where they are legal, and else the first fault.
#![tactic(auto)]

mod aod;
mod apply;
mod beams;
mod busy;
mod counts;
mod crossings;
mod drops;
mod least;
mod light;
pub mod machine;
mod opening;
mod picks;
mod sites;
mod telling;
mod unknown;

pub use machine::Machine;
pub use zair_state::{Axis, BeamId, MachineFault, NewFault, Place};
