//! The outside: shelves of files that are read, and sinks that are written to, over memory and over the system.
#![tactic(auto)]

mod calls;
pub mod file_shelf;
pub mod laws;
pub mod mem_shelf;
pub mod mem_sink;
pub mod out_sink;
pub mod outside;
pub mod reading;

pub use file_shelf::FileShelf;
pub use laws::writes_add_up;
pub use mem_shelf::MemShelf;
pub use mem_sink::MemSink;
pub use out_sink::OutSink;
pub use outside::{Failed, Shelf, Sink};
pub use reading::{ReadFault, read_all};
pub use zac_memory::Memory;
