//! The form of OpenQASM 2.0 (Cross et al. 2017): the statements as values, and by which tokens each is written.
#![tactic(auto)]

mod copy;
pub mod laws;
pub mod opening;
pub mod part;
pub mod stmt;
pub mod symbol;

pub use stmt::{Arg, BodyOp, Expr, Function, Named, Node, Stmt};
pub use symbol::Symbol;
