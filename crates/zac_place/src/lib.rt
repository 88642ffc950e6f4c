//! Where atoms rest and gates take place, at the least cost: the homes of the qubits, the sites of new gates, and the
//! storage traps of leaving atoms.
//!
//! The distance of two traps is `|dx| + |dy|`. Sites and returns are least assignments as in ZAC (Lin, Tan and Cong, HPCA
//! 2025), and each answer carries prices that prove it least.
#![tactic(auto)]

mod ends;
mod homing;
mod judge;
pub mod laws;
mod offer;
mod offsets;
mod placed;
mod proposal;
mod returning;
mod sites;
mod solver;
mod uses;

pub use homing::homes;
pub use placed::Placed;
pub use returning::{return_targets, returns};
pub use sites::gate_sites;
