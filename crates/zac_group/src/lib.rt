//! Moves of atoms in groups, such that one AOD moves each group at once.
//!
//! An AOD holds atoms at the crossings of its row and column beams, and its beams keep their order; so two atoms move
//! together only if on each axis the order or equality of their sources is that of their targets. The groups are those
//! of first fit over the moves, the farthest first (after the jobs of ZAC, Lin, Tan and Cong, HPCA 2025; the order and
//! the fit are this project's own).
#![tactic(auto)]

mod fitting;
mod grouping;
mod laws;
mod members;
mod pairs;
mod route;
mod shift;
mod tracks;
mod turns;

pub use grouping::{Group, groups};
pub use laws::one_grouping;
pub use pairs::compatible;
pub use shift::Shift;
pub use zac_memory::Memory;
