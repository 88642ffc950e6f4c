//! Tests of the times of programs: what no contract says of the public calls.
#![tactic(auto)]

#[cfg(test)]
mod times;
