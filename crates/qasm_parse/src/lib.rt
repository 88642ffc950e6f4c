//! The statements of OpenQASM 2.0 (Cross et al. 2017), read from the tokens of a source.
#![tactic(auto)]

mod cursor;
mod declaration;
pub mod expr;
pub mod fault;
mod item;
pub mod laws;
mod lists;
pub mod opening;
mod operation;
pub mod part;
mod reader;
pub mod symbol;

pub use fault::SyntaxFault;
pub use qasm_form::{Arg, BodyOp, Expr, Function, Named, Node, Stmt};
pub use reader::{one_reading, statement};
