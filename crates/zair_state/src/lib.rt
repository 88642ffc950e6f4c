//! The written machine: states, what holds of each that it reaches, legal steps and their results, what can be wrong with
//! a step, runs, orders and resources.
//!
//! The conditions on beams and pulses follow the machine of ZAC (Lin, Tan and Cong, HPCA 2025); their exact
//! form is this project's own.
#![tactic(auto)]

pub mod examples;
pub mod fault;
pub mod laws;
pub mod place;
pub mod runs;

pub use fault::{Axis, BeamId, MachineFault, NewFault};
pub use laws::{
    drops_find_empty_traps, faults_tell_legal_steps, first_faults_are_one,
    legal_steps_keep_states_sound, moves_keep_the_gap, openings_are_sound,
};
pub use place::Place;
pub use runs::pulses_find_their_pairs;
