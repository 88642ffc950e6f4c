//! Stages, and how they are made.

ghost use Rattle.std.specs.Prelude.{◌≡◌, ◌+◌, ◌<◌, ◌≤◌, Some, length, IfOk};
ghost use Rattle.std.specs.List.{slice_get};
ghost use Rattle.zac_stage.specs.Staging.{IsStaging};

use crate::lists::rows_by_number;
use crate::numbering::numbers;
use std::alloc::Global;
use std::marker::Model;
use zac_gates::Circuit;
use zac_memory::Memory;

/// The pairs of each pulse and the one-qubit gates of each slot of a circuit, by op numbers.
#[derive(Drop)]
pub struct Stages<'a> {
    circuit: &'a Circuit,
    sites: u32,
    numbers: Vec<u32>,
    pairs: Vec<Vec<u32>>,
    gates: Vec<Vec<u32>>,
}

impl<'a> Model for Stages<'a> {
    ghost use Rattle.std.specs.Prelude.{map};
    ghost use Rattle.zac_stage.specs.Staging.{Staging, IsStaging};

    ghost Value = { Staging };

    ghost view = { λ s. record {
      circuit = s.circuit.now;
      sites = s.sites;
      numbers = s.numbers.items;
      pairs = map (λ v. v.items) s.pairs.items;
      gates = map (λ v. v.items) s.gates.items;
    } };

    ghost invariant = { λ s. IsStaging (record {
      circuit = s.circuit.now;
      sites = s.sites;
      numbers = s.numbers.items;
      pairs = map (λ v. v.items) s.pairs.items;
      gates = map (λ v. v.items) s.gates.items;
    }) };
}

/// The stages of a circuit for pulses of this many sites, at least one. The only error is that memory ran out. The
/// time is in proportion to the ops.
pub fn stage(alloc: Global, circuit: &Circuit, sites: u32) -> Result<Stages<'_>, Memory>
    requires { 1 ≤ sites }
    ensures { IfOk result (λ s. IsStaging s × (s.circuit ≡ circuit.now) × (s.sites ≡ sites)) }
{
    let (numbers, pulses) = numbers(alloc, circuit, sites)?;
    let (pairs, gates) = rows_by_number(alloc, circuit.ops(), numbers.as_slice(), pulses as usize)?;
    Ok(Stages {
        circuit,
        sites,
        numbers,
        pairs,
        gates,
    })
}

impl Stages<'_> {
    /// The number of pulses.
    pub fn pulses(&self) -> u32
        ensures value { result ≡ length self.now.pairs }
        ensures staging { IsStaging self.now }
    {
        self.pairs.len() as u32
    }

    /// The op numbers of the pairs of a pulse, rising.
    pub fn pairs(&self, t: u32) -> &[u32]
        requires { t < length self.now.pairs }
        ensures { slice_get self.now.pairs t ≡ Some result.now }
    {
        self.pairs[t as usize].as_slice()
    }

    /// The op numbers of the one-qubit gates of a slot, rising. Slot t is performed before pulse t.
    pub fn gates(&self, t: u32) -> &[u32]
        requires { t ≤ length self.now.pairs }
        ensures { slice_get self.now.gates t ≡ Some result.now }
    {
        self.gates[t as usize].as_slice()
    }
}
