//! Native ops and circuits.

ghost use Rattle.std.specs.Prelude.{◌≡◌, ℕ, ◌<◌, ◌^◌, ◌↔◌, ◌⊎◌, false, length, IsTrue, IfOk, IfErr, OnOk, MatchOption};
ghost use Rattle.std.specs.Ordering.{nat_cmp};
ghost use Rattle.std.specs.BTreeSet.{contains};
ghost use Rattle.zac_gates.specs.Ops.{Names, IsRead, IsInRange, IsValid, IsFirstInvalid, IsCauseOf};

use crate::Memory;
use crate::angle::Angles;
use crate::list::List;
use std::alloc::Global;
use std::collections::BTreeSet;
use std::marker::Model;

/// A native op, on qubits and bits by their numbers from 0.
#[derive(Drop)]
pub enum Op {
    /// A one-qubit gate, as `U` of OpenQASM 2.0 (Cross et al. 2017).
    One { q: u32, angles: Angles },
    /// A CZ of two qubits.
    Two { a: u32, b: u32 },
    /// No gate passes it: a `barrier` of OpenQASM 2.0, here on all qubits.
    Fence,
    /// A read of a qubit into a bit: a `measure` of OpenQASM 2.0.
    Read { q: u32, bit: u32 },
}

/// Why a list of ops is no circuit.
#[derive(Clone, Copy, Debug)]
pub enum CircuitFault {
    /// This is the first op that has a qubit or bit out of range, or the same qubit twice, or a qubit that was
    /// read.
    Op { op: u32 },
    /// There was no memory.
    Memory,
}

/// A circuit in native ops. Each op's qubits and bit are in range, a pair has two qubits, and no op is on a
/// qubit that was read.
#[derive(Drop)]
pub struct Circuit {
    qubits: u32,
    bits: u32,
    ops: List<Op>,
}

impl Model for Circuit {
    ghost use Rattle.zac_gates.specs.Ops.{NativeCircuit, IsCircuit};

    ghost Value = { NativeCircuit };

    ghost view = { λ c. record { qubits = c.qubits; bits = c.bits; ops = c.ops } };

    ghost invariant = { λ c. IsCircuit (record { qubits = c.qubits; bits = c.bits; ops = c.ops }) };
}

impl From<Memory> for CircuitFault {
    ghost use Rattle.std.specs.Prelude.{◌≡◌};
    ghost use Rattle.zac_gates.specs.declared.circuit.CircuitFault.{CircuitFault};

    ghost from_gives = { λ _ e. e ≡ CircuitFault.Memory };

    fn from(_e: Memory) -> CircuitFault {
        CircuitFault::Memory
    }
}

/// Whether the op's qubits and bit are in range, and a pair has two qubits.
fn is_in_range(op: &Op, qubits: u32, bits: u32) -> bool
    ensures { IsTrue result ↔ IsInRange qubits bits op.now }
{
    match op {
        Op::One { q, .. } => *q < qubits,
        Op::Two { a, b } => *a < qubits && *b < qubits && *a != *b,
        Op::Fence => true,
        Op::Read { q, bit } => *q < qubits && *bit < bits,
    }
}

/// Whether the op names no qubit of the set.
fn is_apart(op: &Op, read: &BTreeSet<u32>) -> bool
    ensures { IsTrue result ↔ ((q : ℕ) → Names op.now q → contains nat_cmp read.now q ≡ false) }
{
    match op {
        Op::One { q, .. } => !read.contains(q),
        Op::Two { a, b } => !read.contains(a) && !read.contains(b),
        Op::Fence => true,
        Op::Read { q, .. } => !read.contains(q),
    }
}

/// Puts the qubit that the op reads into the set.
fn note_read(op: &Op, read: &mut BTreeSet<u32>) -> Result<(), Memory>
    ensures { OnOk result ((q : ℕ) → IsTrue (contains nat_cmp read.new q)
        ↔ (IsTrue (contains nat_cmp read.old q) ⊎ (IsRead op.now × Names op.now q))) }
{
    if let Op::Read { q, .. } = op {
        read.insert(*q)?;
    }
    Ok(())
}

/// The number of the first op that isn't valid.
fn first_invalid(alloc: Global, qubits: u32, bits: u32, ops: &[Op]) -> Result<Option<u32>, Memory>
    requires { length ops.now < 2 ^ 32 }
    ensures { IfOk result (λ found. MatchOption found
        (IsValid (record { qubits = qubits; bits = bits; ops = ops.now }))
        (IsFirstInvalid (record { qubits = qubits; bits = bits; ops = ops.now }))) }
{
    let mut read = BTreeSet::new(alloc);
    for (i, op) in ops.iter().enumerate() {
        if !is_in_range(op, qubits, bits) || !is_apart(op, &read) {
            return Ok(Some(i as u32));
        }
        note_read(op, &mut read)?;
    }
    Ok(None)
}

/// Refuses the first op that isn't valid.
fn validate(alloc: Global, qubits: u32, bits: u32, ops: &List<Op>) -> Result<(), CircuitFault>
    requires { length ops.now < 2 ^ 32 }
    ensures ok { OnOk result (IsValid (record { qubits = qubits; bits = bits; ops = ops.now })) }
    ensures err { IfErr result
        (IsCauseOf (record { qubits = qubits; bits = bits; ops = ops.now })) }
{
    match first_invalid(alloc, qubits, bits, ops.as_slice())? {
        Some(op) => Err(CircuitFault::Op { op }),
        None => Ok(()),
    }
}

impl Circuit {
    /// The circuit of these ops, in their order; there are fewer than 2^32 of them.
    ///
    /// `CircuitFault::Op` comes exactly where some op has a qubit or bit out of range, or the same qubit twice, or
    /// a qubit that an earlier op read, and names the first such op. A fence may follow a read. The time is in
    /// proportion to the ops, times the logarithm of the number of reads.
    pub fn new(
        alloc: Global,
        qubits: u32,
        bits: u32,
        ops: List<Op>,
    ) -> Result<Circuit, CircuitFault>
        requires { length ops < 2 ^ 32 }
        ensures ok { IfOk result (λ c. (c ≡ record { qubits = qubits; bits = bits; ops = ops })
            × IsValid c) }

        // Each refusal has its cause. Want of memory has none that a contract can name.
        ensures err { IfErr result (IsCauseOf (record { qubits = qubits; bits = bits; ops = ops })) }
    {
        validate(alloc, qubits, bits, &ops)?;
        Ok(Circuit { qubits, bits, ops })
    }

    /// The number of qubits.
    pub fn qubits(&self) -> u32
        ensures { result ≡ self.now.qubits }
    {
        self.qubits
    }

    /// The number of bits.
    pub fn bits(&self) -> u32
        ensures { result ≡ self.now.bits }
    {
        self.bits
    }

    /// The ops, in source order. The number of an op is its place.
    pub fn ops(&self) -> &[Op]
        ensures value { result.now ≡ self.now.ops }
        ensures valid { IsValid self.now }
        ensures few { length self.now.ops < 2 ^ 32 }
    {
        self.ops.as_slice()
    }
}
