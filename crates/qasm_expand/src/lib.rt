//! From the statements of a program to its native list: each gate with a body is replaced by its body.
#![tactic(auto)]

mod angle_depth;
mod angle_limit;
mod angle_node;
mod angle_stack;
mod angle_text;
pub mod expansion_laws;
mod extent;
pub mod fault;
mod frame;
mod kind;
pub mod laws;
mod limit;
mod literals;
mod native;
mod numbering;
mod registers;
mod statement;
mod step;
mod substitution;
mod sums;
mod top;
mod walk;
mod write;

pub use expansion_laws::{calls_are_those_of_the_expansion, each_program_expands, one_expansion};
pub use fault::{ExpandFault, LimitKind};
pub use native::expand;
