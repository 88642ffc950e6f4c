//! The steps of a legal run, shown to watches.

ghost use Rattle.std.specs.Prelude.{◌≡◌, ℕ, ◌+◌, ◌-◌, ◌^◌, [], ◌∷◌, IfErr, OnOk, min};
ghost use Rattle.zair_form.specs.declared.step.Step.{Step};
ghost use Rattle.zair_form.specs.Steps.{IsStepAt};
ghost use Rattle.zac_watch.specs.Shown.{WereShown};
ghost use Rattle.zac_watch.specs.Watching.{IsShowFault, IsWatchFault, WasStepShown, WasWatched};
ghost use Rattle.zac_watch.specs.Weights.{weight};

use crate::fault::WatchFault;
use crate::order::named_order;
use crate::steps::held_step;
use crate::watch::Watch;
use std::alloc::Global;
use zac_arch::Card;
use zair_form::{Program, Step};
use zair_machine::{Machine, NewFault};
use zair_state::faults_tell_legal_steps;

/// Shows a watch a step.
fn show_one(watch: &mut Box<dyn Watch>, step: &Step)
    ensures kind { kind watch.new ≡ kind watch.old }
    ensures sum { sum watch.new ≡ min (2 ^ 128 - 1) (sum watch.old + weight (kind watch.old) step.now) }
{
    watch.see(step);
}

/// Shows each watch of a panel a step, in their order.
fn show(panel: &mut Vec<Box<dyn Watch>>, step: &Step)
    ensures { WereShown (λ w. kind w) (λ w. sum w) panel.old.items panel.new.items (step.now ∷ []) }
{
    for watch in panel.iter_mut() {
        show_one(watch, step);
    }
}

/// Does a step on the machine, and shows it to each watch of a panel, if it is legal. It is told as the step of this
/// number.
fn show_if_legal(
    machine: &mut Machine<'_>,
    panel: &mut Vec<Box<dyn Watch>>,
    step: &Step,
    number: u64,
) -> Result<(), WatchFault>
    ensures ok { OnOk result (WasStepShown machine.old machine.new step.now
        (WereShown (λ w. kind w) (λ w. sum w) panel.old.items panel.new.items)) }
    ensures err { IfErr result (IsShowFault machine.old number step.now
        (WereShown (λ w. kind w) (λ w. sum w) panel.old.items panel.new.items)) }
{
    match machine.step(step) {
        Ok(()) => {
            show(panel, step);
            Ok(())
        }
        Err(fault) => Err(WatchFault::Machine {
            step: number,
            fault,
        }),
    }
}

/// Does the step at a place of an instruction on the machine, and shows it to each watch of a panel, if it is legal. It
/// is told as the step of this number.
fn show_at(
    alloc: Global,
    program: &Program,
    number: u64,
    instr: u64,
    place: u64,
    machine: &mut Machine<'_>,
    panel: &mut Vec<Box<dyn Watch>>,
) -> Result<(), WatchFault>
    requires { (s : Step) × IsStepAt program.now instr place s }
    ensures ok { OnOk result ((s : Step) → IsStepAt program.now instr place s → WasStepShown machine.old machine.new s
        (WereShown (λ w. kind w) (λ w. sum w) panel.old.items panel.new.items)) }
    ensures err { IfErr result (λ fault. (s : Step) → IsStepAt program.now instr place s → IsShowFault machine.old number s
        (WereShown (λ w. kind w) (λ w. sum w) panel.old.items panel.new.items) fault) }
{
    match held_step(program, instr, place) {
        Some(held) => show_if_legal(machine, panel, held, number),
        None => {
            let own = program.step_of(alloc, instr, place)?;
            show_if_legal(machine, panel, &own, number)
        }
    }
}

/// Shows each watch of a panel, in the panel's order, each step of a program, in the named order: by begin, then by
/// instruction, then by place. It ends at the first step that isn't legal on the card's machine, from the program's
/// homes on, and that step isn't shown.
///
/// `WatchFault::Home` tells the least qubit whose home isn't a storage trap or is that of a qubit of smaller number; no
/// watch was shown a step then. `WatchFault::Machine` tells the number of the first step that isn't legal, counted from 0
/// in the named order, and its first fault; each watch was shown the steps before it. `WatchFault::Memory` tells that
/// memory ran out; each watch was shown the same steps of the named order, those before some number.
pub fn watched(
    alloc: Global,
    card: &Card,
    program: &Program,
    panel: &mut Vec<Box<dyn Watch>>,
) -> Result<(), WatchFault>
    ensures ok { OnOk result (WasWatched card.now program.now
        (WereShown (λ w. kind w) (λ w. sum w) panel.old.items panel.new.items)) }
    ensures err { IfErr result (IsWatchFault card.now program.now
        (WereShown (λ w. kind w) (λ w. sum w) panel.old.items panel.new.items)) }
{
    faults_tell_legal_steps(card);
    let order = named_order(alloc, card, program)?;
    let mut machine = match Machine::new(alloc, card, program.homes()) {
        Ok(machine) => machine,
        Err(NewFault::Home { q }) => return Err(WatchFault::Home { q }),
        Err(NewFault::Memory) => return Err(WatchFault::Memory),
    };
    for (number, (instr, place)) in order.as_slice().iter().enumerate() {
        show_at(
            alloc,
            program,
            number as u64,
            *instr,
            *place,
            &mut machine,
            panel,
        )?;
    }
    Ok(())
}
