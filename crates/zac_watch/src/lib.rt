//! Judges of programs: the named order of a program's steps, watches to which the steps of a legal run are shown, and
//! the replay of a program against the circuit that it is to perform.
//!
//! The named order goes by begin, then by instruction, then by place: it is one of the orders that the times of a
//! program allow, if each step takes time. Of a text of any origin nothing else is judged here.
#![tactic(auto)]

pub mod fault;
mod judging;
pub mod kind;
pub mod laws;
mod lengths;
pub mod order;
pub mod replaying;
mod slot;
mod steps;
pub mod watch;
pub mod watching;

pub use fault::{ReplayFault, WatchFault};
pub use kind::Kind;
pub use laws::{
    named_orders_are_one, performing_programs_are_watched_whole, performing_programs_replay,
    replays_have_no_fault,
};
pub use order::named_order;
pub use replaying::replay;
pub use watch::{Counter, Watch};
pub use watching::watched;
pub use zac_memory::Memory;
