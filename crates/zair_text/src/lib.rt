//! The text of ZAIR, the intermediate representation of ZAC (Lin, Tan and Cong, HPCA 2025): a JSON object on each
//! line. The field names and the lines are this project's own.
#![tactic(auto)]

pub mod counts;
pub mod laws;
pub mod line;
pub(crate) mod value;
pub mod write;

pub use counts::{Totals, tally};
pub use line::{end_line, header_line, line_of};
pub use write::{WriteFault, write_program};
pub use zac_gates::Memory;
