//! Circuits as the planner sees them: one-qubit gates, pairs, fences and reads, in source order.
//!
//! `CX c,t` is a Hadamard gate on the target, a CZ of the two, and a Hadamard gate on the target again; so a
//! native list has one-qubit gates and CZ pairs alone. Angles are texts, and nothing evaluates them.
#![tactic(auto)]

pub mod angle;
pub mod checklist;
pub mod circuit;
pub mod laws;
pub mod list;
mod same;
mod waiting;

pub use angle::{Angle, Angles};
pub use checklist::{CheckFault, Checklist};
pub use circuit::{Circuit, CircuitFault, Op};
pub use list::{Bytes, List};
pub use zac_memory::Memory;
