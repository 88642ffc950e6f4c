//! Tests of the judges of programs: what no contract says of their public calls.
#![tactic(auto)]

#[cfg(test)]
mod watches;
