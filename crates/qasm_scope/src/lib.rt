//! Which statements of an OpenQASM 2.0 program are refused, by what the statements before them declare.
#![tactic(auto)]

mod applied;
mod arguments;
mod bodies;
mod calls;
pub mod header;
mod judge;
mod kinds;
pub mod laws;
mod least;
mod pairs;
mod parts;
pub mod scope;

pub use header::header_text;
pub use laws::{
    each_program_is_accepted_or_refused, one_header, one_judgement, tokens_go_to_the_end_or_stop,
};
pub use qasm_names::{
    Bound, GateDef, ScopeFault, ScopeKind, SourceProgram, Target, gates_are_well_bound,
    gates_only_grow,
};
pub use scope::Scope;
