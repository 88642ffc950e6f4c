//! The replay of a program against a circuit.

ghost use Rattle.std.specs.Prelude.{IfErr, IfOk};
ghost use Rattle.zac_watch.specs.Replaying.{IsReplayFault, Replays};

use crate::fault::ReplayFault;
use crate::judging::judge;
use crate::lengths::first_wrong_length;
use crate::order::named_order;
use std::alloc::Global;
use zac_arch::Card;
use zac_gates::{Checklist, Circuit};
use zair_form::Program;
use zair_machine::{Machine, NewFault};
use zair_state::faults_tell_legal_steps;

/// How many steps a program has that replays a circuit on the card's machine: its homes are distinct storage traps, one
/// for each qubit of the circuit; each instruction ends when its steps have; the steps in the named order, by begin, then
/// by instruction, then by place, are legal; and their log realises the circuit. Else the first fault is told.
///
/// The time is in the size of the steps and in a sort of their begins.
pub fn replay(
    alloc: Global,
    card: &Card,
    circuit: &Circuit,
    program: &Program,
) -> Result<u64, ReplayFault>
    ensures ok { IfOk result (Replays card.now circuit.now program.now) }
    ensures err { IfErr result (IsReplayFault card.now circuit.now program.now) }
{
    faults_tell_legal_steps(card);
    let homes = program.homes();
    let text = homes.len() as u64;
    let source = circuit.qubits();
    if text != u64::from(source) {
        return Err(ReplayFault::Qubits { text, source });
    }
    let mut machine = match Machine::new(alloc, card, homes) {
        Ok(machine) => machine,
        Err(NewFault::Home { q }) => return Err(ReplayFault::Home { q }),
        Err(NewFault::Memory) => return Err(ReplayFault::Memory),
    };
    if let Some(instr) = first_wrong_length(card, program.instrs()) {
        return Err(ReplayFault::Length { instr });
    }
    let order = named_order(alloc, card, program)?;
    let mut checklist = Checklist::new(alloc, circuit)?;
    for (number, (instr, place)) in order.as_slice().iter().enumerate() {
        judge(
            alloc,
            circuit,
            program,
            number as u64,
            *instr,
            *place,
            &mut machine,
            &mut checklist,
        )?;
    }
    match checklist.complete(circuit) {
        Some(op) => Err(ReplayFault::Missing { op }),
        None => Ok(order.as_slice().len() as u64),
    }
}
