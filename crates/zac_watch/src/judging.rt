//! Each step of a replay: done on the machine, and its ops performed on the checklist.

ghost use Rattle.std.specs.Prelude.{◌≡◌, IfErr, OnOk};
ghost use Rattle.zac_gates.specs.Checklist.{IsPerformable};
ghost use Rattle.zair_form.specs.declared.step.Step.{Step};
ghost use Rattle.zair_form.specs.declared.step.Step.TheVariants as step;
ghost use Rattle.zair_form.specs.Steps.{IsStepAt};
ghost use Rattle.zair_state.specs.FirstFault.{IsFirstFault};
ghost use Rattle.zair_state.specs.Legal.{IsLegal};
ghost use Rattle.zair_state.specs.Result.{after};
ghost use Rattle.zair_state.specs.Run.{entries};
ghost use Rattle.zair_state.specs.declared.fault.MachineFault.{MachineFault};
ghost use Rattle.zac_watch.specs.declared.fault.ReplayFault.TheVariants as told;
ghost use Rattle.zac_watch.specs.Judging.{IsStepFault, ArePerformed, AreRefused, WasDone};

use crate::fault::ReplayFault;
use crate::steps::held_step;
use std::alloc::Global;
use zac_gates::{CheckFault, Checklist, Circuit, Op};
use zair_form::{OneGate, PairOf, Program, ReadOf, Step};
use zair_machine::Machine;

/// Performs a one-qubit gate.
fn perform_gate(
    checklist: &mut Checklist<'_>,
    circuit: &Circuit,
    gate: OneGate,
) -> Result<(), CheckFault>
    requires its_circuit { checklist.old.circuit ≡ circuit.now }
    requires performable { IsPerformable circuit.now.ops checklist.old.log }
    ensures circuit { checklist.new.circuit ≡ circuit.now }
    ensures ok { OnOk result (ArePerformed circuit.now.ops checklist.old.log (entries (step.One gate)) checklist.new.log) }
    ensures err { IfErr result (AreRefused circuit.now.ops checklist.old.log (entries (step.One gate))) }
{
    let OneGate { op, q, angles } = gate;
    checklist.perform(circuit, op, &Op::One { q, angles })?;
    Ok(())
}

/// Performs the pairs of a pulse, in their order.
fn perform_pairs(
    checklist: &mut Checklist<'_>,
    circuit: &Circuit,
    pairs: &[PairOf],
) -> Result<(), CheckFault>
    requires its_circuit { checklist.old.circuit ≡ circuit.now }
    requires performable { IsPerformable circuit.now.ops checklist.old.log }
    ensures circuit { checklist.new.circuit ≡ circuit.now }
    ensures ok { OnOk result (ArePerformed circuit.now.ops checklist.old.log (entries (step.Pulse pairs.now)) checklist.new.log) }
    ensures err { IfErr result (AreRefused circuit.now.ops checklist.old.log (entries (step.Pulse pairs.now))) }
{
    for pair in pairs {
        let what = Op::Two {
            a: pair.a,
            b: pair.b,
        };
        checklist.perform(circuit, pair.op, &what)?;
    }
    Ok(())
}

/// Performs the reads of a readout, in their order.
fn perform_reads(
    checklist: &mut Checklist<'_>,
    circuit: &Circuit,
    reads: &[ReadOf],
) -> Result<(), CheckFault>
    requires its_circuit { checklist.old.circuit ≡ circuit.now }
    requires performable { IsPerformable circuit.now.ops checklist.old.log }
    ensures circuit { checklist.new.circuit ≡ circuit.now }
    ensures ok { OnOk result (ArePerformed circuit.now.ops checklist.old.log (entries (step.Readout reads.now)) checklist.new.log) }
    ensures err { IfErr result (AreRefused circuit.now.ops checklist.old.log (entries (step.Readout reads.now))) }
{
    for read in reads {
        let what = Op::Read {
            q: read.q,
            bit: read.bit,
        };
        checklist.perform(circuit, read.op, &what)?;
    }
    Ok(())
}

/// Performs the ops of a step, in their order.
fn perform_ops(
    checklist: &mut Checklist<'_>,
    circuit: &Circuit,
    step: Step,
) -> Result<(), CheckFault>
    requires its_circuit { checklist.old.circuit ≡ circuit.now }
    requires performable { IsPerformable circuit.now.ops checklist.old.log }
    ensures circuit { checklist.new.circuit ≡ circuit.now }
    ensures ok { OnOk result (ArePerformed circuit.now.ops checklist.old.log (entries step) checklist.new.log) }
    ensures err { IfErr result (AreRefused circuit.now.ops checklist.old.log (entries step)) }
{
    match step {
        Step::One { gate } => perform_gate(checklist, circuit, gate),
        Step::Pulse { pairs } => perform_pairs(checklist, circuit, pairs.as_slice()),
        Step::Readout { reads } => perform_reads(checklist, circuit, reads.as_slice()),
        Step::Activate { .. } => Ok(()),
        Step::Move { .. } => Ok(()),
        Step::Deactivate { .. } => Ok(()),
    }
}

/// Does a step on the machine. It is told as the step of this number.
fn do_step(machine: &mut Machine<'_>, step: &Step, number: u64) -> Result<(), ReplayFault>
    ensures ok { OnOk result (IsLegal machine.old.card machine.old.state step.now
        × (machine.new ≡ record { card = machine.old.card; state = after machine.old.state step.now })) }
    ensures err { IfErr result (λ fault. (f : MachineFault) × (fault ≡ told.Machine number f)
        × IsFirstFault machine.old.card machine.old.state step.now f × (machine.new ≡ machine.old)) }
{
    match machine.step(step) {
        Ok(()) => Ok(()),
        Err(fault) => Err(ReplayFault::Machine {
            step: number,
            fault,
        }),
    }
}

/// Does the step at a place of an instruction on the machine, and performs its ops on the checklist. It is told as the
/// step of this number.
pub fn judge(
    alloc: Global,
    circuit: &Circuit,
    program: &Program,
    number: u64,
    instr: u64,
    place: u64,
    machine: &mut Machine<'_>,
    checklist: &mut Checklist<'_>,
) -> Result<(), ReplayFault>
    requires has { (s : Step) × IsStepAt program.now instr place s }
    requires its_circuit { checklist.old.circuit ≡ circuit.now }
    requires performable { IsPerformable circuit.now.ops checklist.old.log }
    ensures circuit { checklist.new.circuit ≡ circuit.now }
    ensures ok { OnOk result ((s : Step) → IsStepAt program.now instr place s → WasDone circuit.now.ops
        machine.old checklist.old.log s machine.new checklist.new.log) }
    ensures err { IfErr result (λ fault. (s : Step) → IsStepAt program.now instr place s → IsStepFault
        circuit.now.ops machine.old checklist.old.log s number fault) }
{
    match held_step(program, instr, place) {
        Some(held) => do_step(machine, held, number),
        None => {
            let own = program.step_of(alloc, instr, place)?;
            do_step(machine, &own, number)?;
            match perform_ops(checklist, circuit, own) {
                Ok(()) => Ok(()),
                Err(fault) => Err(ReplayFault::Check {
                    step: number,
                    fault,
                }),
            }
        }
    }
}
