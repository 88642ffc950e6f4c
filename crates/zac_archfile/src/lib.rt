//! The card of a machine as JSON text.
//!
//! A card file is one JSON object. Its fields, their ranges and the order in which faults are told are this project's own.
#![tactic(auto)]

mod build;
pub mod fault;
pub mod field;
pub(crate) mod found;
mod judge;
pub mod laws;
pub mod read;
mod value;
pub mod write;

pub use fault::CardFault;
pub use field::Field;
pub use laws::card_or_one_fault;
pub use read::read_card;
pub use write::write_card;
pub use zac_memory::Memory;
