//! A pairing of two sides: each end has at most one partner, and the pairs are told from both sides.
//!
//! A search reaches left ends as a tree of steps; [`flip`] turns the path that it finds.
#![tactic(auto)]

mod pairing;
mod tree;

pub use pairing::Pairing;
pub use tree::{End, Step, flip};
