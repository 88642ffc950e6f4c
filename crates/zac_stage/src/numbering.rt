//! The numbers of the ops, in one walk through the list.

ghost use Rattle.std.specs.Prelude.{◌≡◌, ℕ, ◌+◌, ◌<◌, ◌≤◌, ◌^◌, ◌⊎◌, length, IfOk, OnOk, slice_index, vec_len};
ghost use Rattle.zac_gates.specs.Waiting.{HasQubitsBelow};
ghost use Rattle.zac_stage.specs.Numbers.{IsNumbering, IsPulseCount};
ghost use Rattle.zac_stage.specs.Rooms.{AreRooms};
ghost use Rattle.zac_stage.specs.Tops.{AreNumbered, AreTops};
ghost use Rattle.zac_stage.specs.Walk.{IsWalk};

use crate::rooms::Rooms;
use std::alloc::{AllocError, Global};
use zac_gates::{Circuit, Op};

/// How far the numbers have come.
#[derive(Drop)]
pub struct Walk {
    /// The numbers so far.
    pub numbers: Vec<u32>,
    /// How many pairs each pulse has.
    pub rooms: Rooms,
    /// For each qubit one more than the greatest number of a pair on it, and 0 for none.
    pub tops: Vec<u32>,
    /// One more than the greatest number of a pair before the last fence, and 0 for none.
    pub fence: u32,
}

/// The greatest of three numbers.
fn greatest(a: u32, b: u32, c: u32) -> u32
    ensures above_a { a ≤ result }
    ensures above_b { b ≤ result }
    ensures above_c { c ≤ result }
    ensures one_of { (result ≡ a) ⊎ ((result ≡ b) ⊎ (result ≡ c)) }
{
    let ab = if a < b { b } else { a };
    if ab < c { c } else { ab }
}

impl Walk {
    /// No op has a number.
    fn start(alloc: Global, ops: &[Op], qubits: u32, sites: u32) -> Result<Walk, AllocError>
        requires { 1 ≤ sites }
        ensures walk { IfOk result (λ w. IsWalk ops.now sites w 0) }
        ensures qubits { IfOk result (λ w. vec_len w.tops ≡ qubits) }
    {
        let numbers = Vec::with_capacity(alloc, ops.len())?;
        let tops = vec![in alloc; 0; qubits as usize]?;
        Ok(Walk {
            numbers,
            rooms: Rooms::none(alloc, sites),
            tops,
            fence: 0,
        })
    }

    /// Gives the op at a place its number, where those before it have theirs.
    fn step(&mut self, ops: &[Op], i: usize) -> Result<(), AllocError>
        requires few { length ops.now < 2 ^ 32 }
        requires i_in { i < length ops.now }
        requires in_range { HasQubitsBelow ops.now (vec_len self.old.tops) }
        requires walk { IsWalk ops.now self.old.rooms.sites self.old i }
        ensures walk { OnOk result (IsWalk ops.now self.old.rooms.sites self.new (i + 1)) }
        ensures qubits { OnOk result (vec_len self.new.tops ≡ vec_len self.old.tops) }
    {
        match &ops[i] {
            Op::One { q, .. } => {
                let top = self.tops[*q as usize];
                self.numbers.push(greatest(self.fence, top, top))?;
            }
            Op::Two { a, b } => {
                let floor = greatest(self.fence, self.tops[*a as usize], self.tops[*b as usize]);
                let pulse = self.rooms.least(floor);
                self.rooms.add(pulse)?;
                self.tops[*a as usize] = pulse + 1;
                self.tops[*b as usize] = pulse + 1;
                self.numbers.push(pulse)?;
            }
            Op::Fence => {
                self.fence = self.rooms.counts.len() as u32;
                self.numbers.push(0)?;
            }
            Op::Read { .. } => self.numbers.push(0)?,
        }
        Ok(())
    }
}

/// The numbers of the ops of a circuit, and how many pulses there are.
pub fn numbers(alloc: Global, circuit: &Circuit, sites: u32) -> Result<(Vec<u32>, u32), AllocError>
    requires { 1 ≤ sites }
    ensures numbering { IfOk result (λ r. IsNumbering circuit.now.ops sites r.0.items) }
    ensures pulses { IfOk result (λ r. IsPulseCount circuit.now.ops r.0.items r.1) }
{
    let ops = circuit.ops();
    let mut walk = Walk::start(alloc, ops, circuit.qubits(), sites)?;
    for i in 0..ops.len() {
        walk.step(ops, i)?;
    }
    let pulses = walk.rooms.counts.len() as u32;
    Ok((walk.numbers, pulses))
}
