//! What the statements of an OpenQASM 2.0 program declare, and what its calls are bound to.
#![tactic(auto)]

mod binding;
mod copy;
pub mod fault;
pub mod gate;
pub mod known;
pub mod laws;
pub mod meaning;
pub mod names;
mod places;
pub mod program;
mod reads;
mod table;

pub use fault::{ScopeFault, ScopeKind};
pub use gate::{Bound, GateDef, Target};
pub use known::Known;
pub use laws::{gates_are_well_bound, gates_only_grow};
pub use meaning::{Callee, Meaning};
pub use names::Names;
pub use program::SourceProgram;
