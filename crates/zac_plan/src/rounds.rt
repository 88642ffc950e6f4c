//! What is done around a pulse.

ghost use Rattle.std.specs.Prelude.{◌≡◌, ◌<◌, ◌≤◌, OnOk, length};
ghost use Rattle.zac_arch.specs.Architecture.{storage_count};
ghost use Rattle.zac_plan.specs.Growth.{GrowsByRound, IsSentHome, IsStagingOf, pulse_before, numbers_at};
ghost use Rattle.zac_plan.specs.Plan.{pairs_at};
ghost use Rattle.zac_plan.specs.Seats.{AreSeated, rests_in};

use crate::agenda::Agenda;
use crate::slots::{gates_at, pairs_at};
use std::alloc::Global;
use zac_arch::Card;
use zac_gates::{Circuit, Memory};
use zac_reuse::keep;
use zac_stage::Stages;
use zac_world::World;

impl<'a> Agenda<'a> {
    /// Adds the jobs that bring home what leaves the sites of the pulse before this one.
    fn send_home(
        &mut self,
        alloc: Global,
        card: &'a Card,
        world: &mut World<'_>,
        circuit: &Circuit,
        stages: &Stages<'_>,
        t: u32,
    ) -> Result<(), Memory>
        requires stages { IsStagingOf card.now circuit.now stages.now }
        requires fits { circuit.now.qubits ≤ storage_count card.now }
        requires its_card { world.old.architecture ≡ card.now }
        requires t_in { t < length stages.now.pairs }
        requires seats { AreSeated card.now circuit.now.qubits (rests_in world.old)
            (pairs_at circuit.now.ops (pulse_before stages.now.pairs t)) }
        ensures ok { OnOk result (IsSentHome card.now circuit.now.ops (pulse_before stages.now.pairs t)
            (numbers_at stages.now.pairs t) self.old self.new world.old world.new) }
    {
        if t == 0 {
            return Ok(());
        }
        // Its contract says that the card keeps all rules.
        let _figures = card.figures();
        let ops = circuit.ops();
        let kept = keep(alloc, circuit, stages, t - 1)?;
        let before = pairs_at(alloc, ops, stages.pairs(t - 1))?;
        self.add_returns(alloc, card, world, ops, &before, kept.pairs.as_slice())
    }

    /// Adds a pulse with the slot before it: the gates of the slot, the jobs that bring home what leaves the sites of the
    /// pulse before, the jobs that bring the pulse's atoms together, and the pulse.
    pub fn add_round(
        &mut self,
        alloc: Global,
        card: &'a Card,
        world: &mut World<'_>,
        circuit: &Circuit,
        stages: &Stages<'_>,
        t: u32,
    ) -> Result<(), Memory>
        requires stages { IsStagingOf card.now circuit.now stages.now }
        requires fits { circuit.now.qubits ≤ storage_count card.now }
        requires its_card { world.old.architecture ≡ card.now }
        requires t_in { t < length stages.now.pairs }
        requires seats { AreSeated card.now circuit.now.qubits (rests_in world.old)
            (pairs_at circuit.now.ops (pulse_before stages.now.pairs t)) }
        ensures ok { OnOk result (GrowsByRound card.now circuit.now.ops (pulse_before stages.now.pairs t)
            (numbers_at stages.now.gates t) (numbers_at stages.now.pairs t) self.old self.new world.old world.new) }
    {
        // Its contract says that the card keeps all rules.
        let _figures = card.figures();
        let ops = circuit.ops();
        let ones = gates_at(alloc, ops, stages.gates(t))?;
        self.add_gates(ones)?;
        self.send_home(alloc, card, world, circuit, stages, t)?;
        let pairs = pairs_at(alloc, ops, stages.pairs(t))?;
        self.add_arrivals(alloc, card, world, &pairs)?;
        self.add_pulse(pairs)?;
        Ok(())
    }
}
