//! Atoms that go from trap to trap.

use zac_arch::TrapId;

/// The atom of a qubit goes from one trap to another.
#[derive(Clone, Copy, Debug, PartialEq, Eq)]
pub struct Shift {
    /// The qubit.
    pub q: u32,
    /// The trap in which its atom rests.
    pub from: TrapId,
    /// The trap to which it goes.
    pub to: TrapId,
}
