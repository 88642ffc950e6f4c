//! What runs come to, as a law. It holds of every card, state and program.

ghost use Rattle.std.specs.Prelude.{List};
ghost use Rattle.zac_arch.specs.Architecture.{Architecture};
ghost use Rattle.zair_form.specs.declared.step.Step.{Step};
ghost use Rattle.zair_state.specs.Performs.{EachPulseFindsItsPairs};
ghost use Rattle.zair_state.specs.Run.{IsLegalRun};
ghost use Rattle.zair_state.specs.State.{State};

/// In a legal run each pulse finds in range exactly the pairs that it lists.
pub fn pulses_find_their_pairs()
    ensures { (a : Architecture) (s : State) (steps : List Step)
        → IsLegalRun a s steps → EachPulseFindsItsPairs a s steps }
{}
