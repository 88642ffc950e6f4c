//! Tests of the crates that plan: what no contract says of their public calls.
#![tactic(auto)]

#[cfg(test)]
mod assignments;
#[cfg(test)]
mod grouping;
#[cfg(test)]
mod keepings;
#[cfg(test)]
mod lowering;
#[cfg(test)]
mod matchings;
#[cfg(test)]
mod nearest;
#[cfg(test)]
mod placing;
#[cfg(test)]
mod plans;
#[cfg(test)]
mod staging;
