//! Which ops of a circuit were performed, and which can be performed next.

ghost use Rattle.std.specs.Prelude.{◌≡◌, [], ◌∷◌, ◌++◌, IfOk, IfErr, OnOk, MatchOption};
ghost use Rattle.zac_gates.specs.Log.{Realises};
ghost use Rattle.zac_gates.specs.Checklist.{CanPerform, IsMissing, IsRefused};

use crate::Memory;
use crate::circuit::{Circuit, Op};
use crate::same::is_listed_as;
use crate::waiting::{Links, Progress};
use std::alloc::Global;
use std::marker::Model;

/// Why an op can't be performed next.
#[derive(Clone, Copy, Debug)]
pub enum CheckFault {
    /// The circuit has no op of this number and content, or it is a fence.
    Content { op: u32 },
    /// The op was performed before.
    Again { op: u32 },
    /// The op must wait for an op that was not performed; `waits` is the least of these.
    Early { op: u32, waits: u32 },
}

/// The ops of one circuit that were performed, in their order. Contracts see the circuit and the log.
#[derive(Drop)]
pub struct Checklist<'a> {
    circuit: &'a Circuit,
    /// The numbers of the ops that were performed, in their order, in as many places as the circuit has ops.
    order: Vec<u32>,
    /// How many were performed.
    count: usize,
    links: Links,
    progress: Progress,
}

impl<'a> Model for Checklist<'a> {
    ghost use Rattle.std.specs.Prelude.{take};
    ghost use Rattle.zac_gates.specs.Checklist.{Checking};

    ghost Value = { Checking };

    ghost use Rattle.zac_gates.specs.Waiting.{log_of, IsChecking};

    ghost view = { λ c. record {
      circuit = c.circuit.now;
      log = log_of c.circuit.now.ops (take c.count c.order.items);
    } };

    ghost invariant = { λ c. IsChecking c.circuit.now c.order.items c.count c.links c.progress };
}

impl<'a> Checklist<'a> {
    /// Nothing of the circuit was performed. It takes all the memory that its other calls use, and time in proportion
    /// to the ops and qubits. The only error is that memory ran out.
    pub fn new(alloc: Global, circuit: &'a Circuit) -> Result<Checklist<'a>, Memory>
        ensures { IfOk result (λ c. c ≡ record { circuit = circuit.now; log = [] }) }
    {
        let ops = circuit.ops();
        let (links, first) = Links::of(alloc, ops, circuit.qubits())?;
        let progress = Progress::none(alloc, ops, first)?;
        let order = vec![in alloc; 0; ops.len()]?;
        Ok(Checklist {
            circuit,
            order,
            count: 0,
            links,
            progress,
        })
    }

    /// Performs an op of the circuit that the list was made for. It takes no memory, and a fault changes nothing.
    ///
    /// A fault is the first of these that holds: `Content`, where the circuit has no op of this number and content,
    /// or the op is a fence; `Again`, where the op was performed before; `Early`, where the op must wait for one that
    /// was not performed, of which it names the least. A gate waits for each earlier gate that shares a qubit with it
    /// or has a fence between; a read waits for each gate and for each earlier read. To perform all ops takes time in
    /// proportion to their number.
    pub fn perform(&mut self, circuit: &Circuit, op: u32, what: &Op) -> Result<(), CheckFault>
        requires { self.old.circuit ≡ circuit.now }
        ensures ok { OnOk result (CanPerform self.old.circuit.ops self.old.log op what.now
            × (self.new ≡ record {
              circuit = self.old.circuit;
              log = self.old.log ++ record { op = op; what = what.now } ∷ [];
            })) }
        ensures err { IfErr result (λ fault. IsRefused self.old.circuit.ops self.old.log op what.now fault
            × (self.new ≡ self.old)) }
    {
        let ops = circuit.ops();
        if !is_listed_as(ops, op, what) {
            return Err(CheckFault::Content { op });
        }
        if self.progress.marks[op as usize] {
            return Err(CheckFault::Again { op });
        }
        if let Some(waits) = self.progress.awaited(ops, &self.links, op) {
            return Err(CheckFault::Early { op, waits });
        }
        self.progress.perform(ops, &self.links, op);
        self.order[self.count] = op;
        self.count += 1;
        Ok(())
    }

    /// The least op other than a fence that was not performed. There is none exactly where the log realises the
    /// circuit.
    pub fn complete(&self, circuit: &Circuit) -> Option<u32>
        requires { self.now.circuit ≡ circuit.now }
        ensures { MatchOption result (Realises self.now.circuit.ops self.now.log)
            (IsMissing self.now.circuit.ops self.now.log) }
    {
        let least = if self.progress.read < self.progress.gate {
            self.progress.read
        } else {
            self.progress.gate
        };
        if (least as usize) < circuit.ops().len() {
            Some(least)
        } else {
            None
        }
    }
}
