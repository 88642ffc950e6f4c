//! Tests of the crates of the source's side: what no contract says of their public calls.
#![tactic(auto)]

#[cfg(test)]
mod lexing;
#[cfg(test)]
mod parsing;
#[cfg(test)]
mod scoping;
