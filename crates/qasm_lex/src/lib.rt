//! The tokens of OpenQASM 2.0 (Cross et al. 2017). A source is read as a sequence of tokens, blanks and comments, each
//! the longest that stands at its place.
#![tactic(auto)]

pub mod laws;
mod lexer;
mod number;
mod piece;
pub mod run;
mod token;

pub use lexer::lex;
pub use token::{LexFault, Token, TokenKind, Tokens};
