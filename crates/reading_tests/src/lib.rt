//! Tests of the reading of programs: what no contract says of its public calls.
#![tactic(auto)]

#[cfg(test)]
mod reading;
