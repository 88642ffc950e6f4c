//! The qubits in the order of their use.

ghost use Rattle.std.specs.Prelude.{◌≡◌, ◌+◌, ◌<◌, ◌++◌, ◌∷◌, [], ℕ, IfOk, OnOk, Some, length, slice_index_or, slice_set, true, false, vec_len, if◌then◌else◌};
ghost use Rattle.std.specs.List.{slice_get};
ghost use Rattle.zac_gates.specs.Waiting.{HasQubitsBelow};
ghost use Rattle.zac_place.specs.Homes.{IsOrderBelow, IsUsedBefore};
ghost use Rattle.zac_place.specs.Uses.{AreUsed, IsVisited};

use std::alloc::{AllocError, Global};
use zac_gates::{Circuit, Op};
use zac_memory::Memory;

/// The qubits that were come upon so far.
#[derive(Drop)]
pub(crate) struct Uses {
    /// These qubits, in the order in which they were come upon.
    pub(crate) order: Vec<u32>,
    /// For each qubit whether it is among them.
    pub(crate) seen: Vec<bool>,
}

impl Uses {
    /// Adds a qubit at the end, unless it is there.
    fn visit(&mut self, q: u32) -> Result<(), AllocError>
        requires { q < vec_len self.old.seen }
        ensures { OnOk result (IsVisited self.old self.new q) }
    {
        if !self.seen[q as usize] {
            self.order.push(q)?;
            self.seen[q as usize] = true;
        }
        Ok(())
    }

    /// Adds the qubits of the op at a place, if it is a pair, the smaller number first.
    fn visit_pair(&mut self, ops: &[Op], i: usize) -> Result<(), AllocError>
        requires i_in { i < length ops.now }
        requires in_range { HasQubitsBelow ops.now (vec_len self.old.seen) }
        requires used { AreUsed ops.now (vec_len self.old.seen) i 0 self.old }
        ensures used { OnOk result (AreUsed ops.now (vec_len self.old.seen) (i + 1) 0 self.new) }
        ensures qubits { OnOk result (vec_len self.new.seen ≡ vec_len self.old.seen) }
    {
        if let Op::Two { a, b } = &ops[i] {
            self.visit((*a).min(*b))?;
            self.visit((*a).max(*b))?;
        }
        Ok(())
    }
}

/// The qubits of a circuit in the order of their use.
pub(crate) fn qubits_by_use(alloc: Global, circuit: &Circuit) -> Result<Vec<u32>, Memory>
    ensures order { IfOk result (λ qubits. IsOrderBelow (IsUsedBefore circuit.now.ops) circuit.now.qubits qubits.items) }
    ensures number { IfOk result (λ qubits. vec_len qubits ≡ circuit.now.qubits) }
{
    let ops = circuit.ops();
    let qubits = circuit.qubits();
    let mut uses = Uses {
        order: Vec::with_capacity(alloc, qubits as usize)?,
        seen: vec![in alloc; false; qubits as usize]?,
    };
    for i in 0..ops.len() {
        uses.visit_pair(ops, i)?;
    }
    for q in 0..qubits {
        uses.visit(q)?;
    }
    Ok(uses.order)
}
