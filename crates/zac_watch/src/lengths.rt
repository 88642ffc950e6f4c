//! Whether instructions take as long as they say.

ghost use Rattle.std.specs.Prelude.{◌≡◌, ◌↔◌, IsTrue, MatchOption, [], map};
ghost use Rattle.std.specs.List.{All};
ghost use Rattle.zair_form.specs.declared.step.Step.TheVariants.{One};
ghost use Rattle.zair_form.specs.Steps.{steps_of};
ghost use Rattle.zair_form.specs.Times.{HasLength, LastTogether};
ghost use Rattle.zac_watch.specs.Replaying.{IsFirstWrongLength};

use zac_arch::Card;
use zair_form::{Act, Instr, OneGate, Step, StepTimer};

/// How long the steps of a job take together, in nanoseconds.
fn job_lasts(card: &Card, steps: &[Step]) -> u128
    ensures { LastTogether card.now.figures [] steps.now result }
{
    let mut timer = StepTimer::new();
    let mut lasts = 0;
    for step in steps {
        lasts += u128::from(timer.lasts(card, step));
    }
    lasts
}

/// How long one-qubit gates take one after another.
fn gates_last(card: &Card, ones: &[OneGate]) -> u128
    ensures { LastTogether card.now.figures [] (map (λ gate. One gate) ones.now) result }
{
    ones.len() as u128 * u128::from(card.figures().one)
}

/// How long the steps of an act take together.
fn lasts(card: &Card, act: &Act) -> u128
    ensures { LastTogether card.now.figures [] (steps_of act.now) result }
{
    let figures = card.figures();
    match act {
        Act::Init { .. } => 0,
        Act::Gates { ones } => gates_last(card, ones.as_slice()),
        Act::Rydberg { .. } => u128::from(figures.pulse),
        Act::Job { steps, .. } => job_lasts(card, steps.as_slice()),
        Act::Readout { .. } => u128::from(figures.readout),
    }
}

/// Whether an instruction's end is its begin and the time that its steps take together.
fn has_length(card: &Card, instr: &Instr) -> bool
    ensures { IsTrue result ↔ HasLength card.now.figures instr.now }
{
    match instr.end.checked_sub(instr.begin) {
        Some(between) => u128::from(between) == lasts(card, &instr.act),
        None => false,
    }
}

/// The number of the first instruction that doesn't take as long as it says.
pub fn first_wrong_length(card: &Card, instrs: &[Instr]) -> Option<u64>
    ensures { MatchOption result (All (HasLength card.now.figures) instrs.now)
        (IsFirstWrongLength card.now.figures instrs.now) }
{
    for (number, instr) in instrs.iter().enumerate() {
        if !has_length(card, instr) {
            return Some(number as u64);
        }
    }
    None
}
