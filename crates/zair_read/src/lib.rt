//! Reading the text of a program in ZAIR, the intermediate representation of ZAC (Lin, Tan and Cong, HPCA 2025).
#![tactic(auto)]

pub(crate) mod compact;
pub(crate) mod direct;
pub(crate) mod ends;
pub mod fault;
pub(crate) mod fields;
pub(crate) mod gate;
pub(crate) mod instr;
pub(crate) mod item;
pub(crate) mod job;
pub mod laws;
pub mod line;
pub(crate) mod number;
pub(crate) mod part;
pub mod program;
pub(crate) mod step;

pub use fault::{ProgramFault, TextFault};
pub use laws::{program_or_one_fault, written_reads_back};
pub use line::read_line;
pub use program::read_program;
pub use zac_memory::Memory;
