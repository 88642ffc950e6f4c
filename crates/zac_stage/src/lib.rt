//! The gates of a circuit in pulses.
//!
//! Each pair gets the number of a pulse, as early as the order of its qubits, the fences and the sites of a pulse
//! allow, and each one-qubit gate the number of a slot: slot t is performed before pulse t, and the last slot after
//! the last pulse. So pulses are ZAC's earliest stages (Lin, Tan and Cong, HPCA 2025).
#![tactic(auto)]

pub mod laws;
mod lists;
mod numbering;
mod pulses;
mod rooms;

pub use pulses::{Stages, stage};
