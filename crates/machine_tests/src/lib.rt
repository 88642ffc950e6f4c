//! Tests of the crates of cards, texts and the machine: what no contract says of their public calls.
#![tactic(auto)]

#[cfg(test)]
mod card_texts;
#[cfg(test)]
mod cards;
#[cfg(test)]
mod common;
#[cfg(test)]
mod forms;
#[cfg(test)]
mod gates;
#[cfg(test)]
mod io;
#[cfg(test)]
mod machines;
#[cfg(test)]
mod text;
