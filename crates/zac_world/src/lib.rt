//! Where the atoms of a plan rest: each qubit in a trap of its own.
#![tactic(auto)]

mod block;
mod free;
mod nearest;
mod span;
mod walk;
mod world;

pub use walk::Candidate;
pub use world::World;
