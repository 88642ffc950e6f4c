//! The architecture card: traps of storage and entangling zones, distances, and the times of moves.
//!
//! Lengths are in tenths of a micrometre, and times in nanoseconds. The picture of atoms in zones is that of
//! ZAC (Lin, Tan and Cong, HPCA 2025); the card, its rules and its numbering are this project's own.
#![tactic(auto)]

pub mod card;
mod counts;
mod duration;
mod laws;
pub mod place;
mod rules;
mod zone_grid;

pub use card::{Card, Figures, Zone, ZoneKind};
pub use laws::{laws_of_parking, laws_of_traps, laws_of_zones};
pub use place::{Point, SiteId, TrapId, within};
pub use zac_memory::Memory;
