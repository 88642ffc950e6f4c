//! The steps of a program, by their numbers.

ghost use Rattle.std.specs.Prelude.{◌≡◌, [], IfSome};
ghost use Rattle.zair_form.specs.declared.step.Step.{Step};
ghost use Rattle.zair_form.specs.Steps.{IsStepAt};
ghost use Rattle.zair_state.specs.Run.{entries};

use zair_form::{Act, Program, Step};

/// The step, if it moves or switches beams.
fn if_on_beams(step: &Step) -> Option<&Step>
    ensures same { IfSome result (λ s. s.now ≡ step.now) }
    ensures no_ops { IfSome result (λ s. entries s.now ≡ []) }
{
    match step {
        Step::Activate { .. } => Some(step),
        Step::Move { .. } => Some(step),
        Step::Deactivate { .. } => Some(step),
        Step::One { .. } => None,
        Step::Pulse { .. } => None,
        Step::Readout { .. } => None,
    }
}

/// The step at a place of an instruction, if the instruction is a job: then the program holds the step as such, and it
/// performs no op. The steps of other instructions are held in parts.
pub fn held_step(program: &Program, instr: u64, place: u64) -> Option<&Step>
    requires has { (s : Step) × IsStepAt program.now instr place s }
    ensures at { IfSome result (λ step. IsStepAt program.now instr place step.now) }
    ensures no_ops { IfSome result (λ step. entries step.now ≡ []) }
{
    match &program.instrs()[instr as usize].act {
        Act::Job { steps, .. } => if_on_beams(&steps.as_slice()[place as usize]),
        _ => None,
    }
}
