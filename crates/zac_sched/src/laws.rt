//! What holds of the orders in which steps may come.

ghost use Rattle.std.specs.Prelude.{◌≡◌, List};
ghost use Rattle.zac_gates.specs.Ops.{NativeCircuit};
ghost use Rattle.zac_sched.specs.Exchange.{IsTidyProgram, IsTidyStep, OrdersAgree};
ghost use Rattle.zair_form.specs.declared.program.Act.{Act};
ghost use Rattle.zair_form.specs.declared.program.Instr.{Instr};
ghost use Rattle.zair_form.specs.declared.step.Step.{Step};
ghost use Rattle.zair_state.specs.Performs.{Performs};
ghost use Rattle.zair_state.specs.Resources.{Conflict};
ghost use Rattle.zair_state.specs.Result.{after};
ghost use Rattle.zair_state.specs.State.{State};

use zac_arch::{Card, laws_of_parking, laws_of_traps};
use zair_state::pulses_find_their_pairs;

/// A law: two steps of instructions that don't conflict may change places. If the one is legal and then the other, and each
/// keeps to its traps, then it is so the other way round too, and both ways end in the same state.
pub fn steps_change_places(card: &Card)
    ensures { (s : State) (x y : Act) (step next : Step) → ¬ Conflict card.now x y
        → IsTidyStep card.now s x step → IsTidyStep card.now (after s step) y next
        → IsTidyStep card.now s y next × IsTidyStep card.now (after s next) x step
        × (after (after s next) step ≡ after (after s step) next) }
{
    let _rules = card.figures();
    laws_of_traps(card);
    laws_of_parking(card);
}

/// A law: a tidy program performs its circuit, in the order of its list and in every order that its times allow; and all these
/// orders do the same.
pub fn tidy_programs_perform(card: &Card)
    ensures performs { (c : NativeCircuit) (program : List Instr) → IsTidyProgram card.now c program → Performs card.now c program }
    ensures agree { (c : NativeCircuit) (program : List Instr) → IsTidyProgram card.now c program → OrdersAgree card.now program }
{
    let _rules = card.figures();
    steps_change_places(card);
    pulses_find_their_pairs();
}
