//! The plan of a circuit.

ghost use Rattle.std.specs.Prelude.{◌≡◌, ◌<◌, ◌≤◌, ◌↔◌, ◌⊎◌, IfOk, OnOk, IfErr, List, length};
ghost use Rattle.std.specs.List.{AllByRecursion};
ghost use Rattle.zac_arch.specs.Architecture.{storage_count};
ghost use Rattle.zac_arch.specs.declared.place.TrapId.{TrapId};
ghost use Rattle.zac_gates.specs.Ops.{pairs_in};
ghost use Rattle.zac_place.specs.Homes.{AreApartInStorage};
ghost use Rattle.zac_plan.specs.Growth.{FitsOnEach, IsStagingOf};
ghost use Rattle.zac_plan.specs.Leading.{LeadOn};
ghost use Rattle.zac_plan.specs.Plan.{IsPlan, IsPlanned};
ghost use Rattle.zac_sched.specs.Exchange.{IsTidyProgram, OrdersAgree};
ghost use Rattle.zac_sched.specs.Todos.{steps_in_all};
ghost use Rattle.zair_form.specs.Ranges.{ProgramFits};
ghost use Rattle.zair_state.specs.Performs.{Performs};

use crate::agenda::Agenda;
use crate::slots::{gates_at, reads_in};
use std::alloc::Global;
use thiserror::Error;
use zac_aod::{job_limits, job_resources, jobs_are_sound};
use zac_arch::{Card, TrapId};
use zac_gates::{Circuit, List, Memory};
use zac_place::homes;
use zac_sched::{schedule, tidy_programs_perform};
use zac_stage::laws::{numbers_follow, pulses_are_filled};
use zac_stage::{Stages, stage};
use zac_world::World;
use zair_form::Program;
use zair_state::{legal_steps_keep_states_sound, openings_are_sound};

/// Why a circuit has no program.
#[derive(Clone, Copy, Debug, PartialEq, Eq, Error)]
pub enum PlanFault {
    /// There was no memory.
    #[error("out of memory")]
    Memory,
    /// The circuit has this many qubits, which are more than the card's storage traps.
    #[error("too many qubits: {qubits} for {traps} traps")]
    TooManyQubits { qubits: u32, traps: u32 },
}

impl From<Memory> for PlanFault {
    ghost use Rattle.zac_plan.specs.declared.planner.PlanFault.TheVariants as fault;

    ghost from_gives = { λ _ e. e ≡ fault.Memory };

    fn from(_e: Memory) -> PlanFault {
        PlanFault::Memory
    }
}

/// What is to be done for a circuit with these stages, from these homes on.
fn planned<'a>(
    alloc: Global,
    card: &'a Card,
    circuit: &Circuit,
    stages: &Stages<'_>,
    homes: &[TrapId],
) -> Result<Agenda<'a>, Memory>
    requires stages { IsStagingOf card.now circuit.now stages.now }
    requires fits { circuit.now.qubits ≤ storage_count card.now }
    requires homes { AreApartInStorage card.now circuit.now.qubits homes.now }
    requires few { length circuit.now.ops ≤ 786432 }
    requires few_pairs { pairs_in circuit.now.ops ≤ 262144 }
    ensures plan { IfOk result (λ agenda. IsPlan card.now circuit.now homes.now stages.now.gates stages.now.pairs agenda.todo.items) }
    ensures leads { IfOk result (λ agenda. (behind : List TrapId) × LeadOn card.now homes.now agenda.todo.items behind) }
    ensures in_range { IfOk result (λ agenda. AllByRecursion FitsOnEach agenda.todo.items) }
    ensures few { IfOk result (λ agenda. length agenda.todo.items ≤ 2000000) }
    ensures few_steps { IfOk result (λ agenda. steps_in_all agenda.todo.items ≤ 16000000) }
{
    // Its contract says that the card keeps all rules.
    let _figures = card.figures();
    openings_are_sound();
    legal_steps_keep_states_sound(card);
    jobs_are_sound(card);
    job_limits(card);
    job_resources(card);
    let ops = circuit.ops();
    let mut world = World::new(alloc, card, homes)?;
    let mut agenda = Agenda::empty(alloc);
    let pulses = stages.pulses();
    for t in 0..pulses {
        agenda.add_round(alloc, card, &mut world, circuit, stages, t)?;
    }
    let ones = gates_at(alloc, ops, stages.gates(pulses))?;
    agenda.add_gates(ones)?;
    let reads = reads_in(alloc, ops)?;
    agenda.add_readout(reads)?;
    Ok(agenda)
}

/// The program of a circuit with these stages.
fn scheduled(
    alloc: Global,
    card: &Card,
    circuit: &Circuit,
    stages: &Stages<'_>,
) -> Result<Program, Memory>
    requires stages { IsStagingOf card.now circuit.now stages.now }
    requires fits { circuit.now.qubits ≤ storage_count card.now }
    requires few { length circuit.now.ops ≤ 786432 }
    requires few_pairs { pairs_in circuit.now.ops ≤ 262144 }
    ensures does { IfOk result (IsPlanned card.now circuit.now) }
    ensures tidy { IfOk result (IsTidyProgram card.now circuit.now) }
    ensures ranges { IfOk result ProgramFits }
{
    // Its contract says that the card keeps all rules.
    let _figures = card.figures();
    let homes = homes(alloc, card, circuit)?;
    let agenda = planned(alloc, card, circuit, stages, homes.as_slice())?;
    schedule(alloc, card, homes, List::of(agenda.todo))
}

/// The program of a circuit on a card, for a circuit of at most 786,432 ops, at most 262,144 of them pairs. Zones, pulses
/// and jobs follow ZAC (Lin, Tan and Cong, HPCA 2025).
///
/// The qubits that are used first rest nearest to site 0 (`zac_place`). The pairs of the circuit go into pulses of at
/// most as many pairs as the card has sites, and its one-qubit gates into the slots between them, each as early as it can
/// (`zac_stage`). Before a pulse come the gates of its slot, as one instruction. As many gates of the pulse as can be are
/// kept at the sites of gates of the pulse before it with which they share a qubit (`zac_reuse`); the other atoms at the
/// sites leave for storage, and the other gates go to free sites, each with the least sum of distances. The moves of
/// the returns, and those of the arrivals, are put into groups (`zac_group`), and each group is a job (`zac_aod`), in the
/// order of the groups. Behind the last pulse come the gates of the last slot, and then all reads as one instruction; no
/// atom is moved there. Where there are no such gates or reads, the instruction is left out.
///
/// This is the order of the list, behind an instruction of the homes. A job is made by the AOD whose last job ends first,
/// of several the one of least number. Each instruction begins when all that it uses is free: the laser, its AOD, its
/// qubits and its traps (`zac_sched`).
///
/// In the order of the list, and in every order that these times allow, each step is legal, each pulse brings
/// within range exactly the pairs that it lists, and each op but the fences is performed once, after all that it
/// must follow; and all these orders perform the same ops in the same order, and end in the same state. All numbers and
/// angles are in the ranges of the text form. The time that this call takes is in proportion to the ops, but for what
/// each pulse costs: its moves are sorted and put into groups, its least placings grow faster than its gates, and each
/// storage trap and each site is looked at once.
///
/// `TooManyQubits` comes exactly where the circuit has more qubits than the card has storage traps. `Memory` is
/// the only other fault.
pub fn compile(alloc: Global, card: &Card, circuit: &Circuit) -> Result<Program, PlanFault>
    requires few { length circuit.now.ops ≤ 786432 }
    requires few_pairs { pairs_in circuit.now.ops ≤ 262144 }
    ensures does { IfOk result (λ program. IsPlanned card.now circuit.now program) }
    ensures performs { IfOk result (λ program. Performs card.now circuit.now program) }
    ensures agree { IfOk result (λ program. OrdersAgree card.now program) }
    ensures ranges { IfOk result (λ program. ProgramFits program) }
    ensures fits { OnOk result (circuit.now.qubits ≤ storage_count card.now) }
    ensures too_many { storage_count card.now < circuit.now.qubits
        ↔ (result ≡ Err (PlanFault.TooManyQubits circuit.now.qubits (storage_count card.now))) }
    ensures fault { IfErr result (λ e. (e ≡ PlanFault.Memory) ⊎ (e ≡ PlanFault.TooManyQubits circuit.now.qubits (storage_count card.now))) }
{
    // Its contract says that the card keeps all rules.
    let _figures = card.figures();
    let qubits = circuit.qubits();
    let traps = card.storage_traps();
    if qubits > traps {
        return Err(PlanFault::TooManyQubits { qubits, traps });
    }
    let stages = stage(alloc, circuit, card.sites())?;
    numbers_follow();
    pulses_are_filled();
    let program = scheduled(alloc, card, circuit, &stages)?;
    tidy_programs_perform(card);
    Ok(program)
}
