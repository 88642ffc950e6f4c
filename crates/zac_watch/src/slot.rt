//! What is kept of each step to put them in order.

ghost use Rattle.std.specs.Prelude.{◌≡◌, IfOk, OnOk, map, length};
ghost use Rattle.std.specs.List.{AllPairs};
ghost use Rattle.std.specs.List.Sorted.{IsPermutation};
ghost use Rattle.zair_form.specs.declared.step.Step.TheVariants.{One, Pulse, Readout};
ghost use Rattle.zair_form.specs.Steps.{steps_of};
ghost use Rattle.zac_watch.specs.Slots.{AreSlotsOf, IsNoLater, WereAdded};

use std::alloc::Global;
use zac_arch::Card;
use zac_memory::Memory;
use zair_form::{Act, OneGate, Program, Step, StepTimer};

/// When a step begins, in nanoseconds, and where in the program it stands.
///
/// A begin may pass 2^64, since an instruction of a foreign text may begin anywhere below that.
#[derive(Clone, Copy, Debug)]
pub struct Slot {
    /// When the step begins.
    pub begin: u128,
    /// The number of its instruction.
    pub instr: u64,
    /// Its place among the steps of its instruction.
    pub place: u64,
}

/// Adds the steps of a job that begins at this time.
fn add_job(
    card: &Card,
    number: u64,
    begin: u64,
    steps: &[Step],
    slots: &mut Vec<Slot>,
) -> Result<(), Memory>
    ensures { OnOk result (WereAdded card.now.figures number begin steps.now slots.old.items slots.new.items) }
{
    let mut timer = StepTimer::new();
    let mut now = u128::from(begin);
    for (place, step) in steps.iter().enumerate() {
        slots.push(Slot {
            begin: now,
            instr: number,
            place: place as u64,
        })?;
        now += u128::from(timer.lasts(card, step));
    }
    Ok(())
}

/// Adds one-qubit gates, of which the first begins at this time.
fn add_gates(
    card: &Card,
    number: u64,
    begin: u64,
    ones: &[OneGate],
    slots: &mut Vec<Slot>,
) -> Result<(), Memory>
    ensures { OnOk result (WereAdded card.now.figures number begin (map (λ gate. One gate) ones.now) slots.old.items slots.new.items) }
{
    let duration = u128::from(card.figures().one);
    let mut now = u128::from(begin);
    for place in 0..ones.len() {
        slots.push(Slot {
            begin: now,
            instr: number,
            place: place as u64,
        })?;
        now += duration;
    }
    Ok(())
}

/// Adds the steps of an act that begins at this time.
fn add_steps(
    card: &Card,
    number: u64,
    begin: u64,
    act: &Act,
    slots: &mut Vec<Slot>,
) -> Result<(), Memory>
    ensures { OnOk result (WereAdded card.now.figures number begin (steps_of act.now) slots.old.items slots.new.items) }
{
    let only = Slot {
        begin: u128::from(begin),
        instr: number,
        place: 0,
    };
    match act {
        Act::Init { .. } => Ok(()),
        Act::Gates { ones } => add_gates(card, number, begin, ones.as_slice(), slots),
        Act::Job { steps, .. } => add_job(card, number, begin, steps.as_slice(), slots),
        Act::Rydberg { .. } => Ok(slots.push(only)?),
        Act::Readout { .. } => Ok(slots.push(only)?),
    }
}

/// The slots of all steps of a program, in list order.
pub fn slots_of(alloc: Global, card: &Card, program: &Program) -> Result<Vec<Slot>, Memory>
    ensures { IfOk result (λ slots. AreSlotsOf card.now.figures program.now slots.items) }
{
    let mut slots = Vec::new(alloc);
    for (number, instr) in program.instrs().iter().enumerate() {
        add_steps(card, number as u64, instr.begin, &instr.act, &mut slots)?;
    }
    Ok(slots)
}

/// Puts slots in the order of their begins, then instructions, then places.
pub fn put_in_order(slots: &mut Vec<Slot>)
    ensures permutes { IsPermutation slots.old.items slots.new.items }
    ensures order { AllPairs IsNoLater slots.new.items }
{
    slots.sort_unstable_by_key(|slot| (slot.begin, slot.instr, slot.place));
}
