//! What holds of every state that the machine reaches.

ghost use Rattle.std.specs.Prelude.{◌≡◌, ◌<◌, ℕ, List, map};
ghost use Rattle.std.specs.List.{All};
ghost use Rattle.zac_arch.specs.Architecture.{Architecture, trap_count};
ghost use Rattle.zac_arch.specs.declared.place.TrapId.{TrapId};
ghost use Rattle.zair_form.specs.declared.step.Beam.{Beam};
ghost use Rattle.zair_form.specs.declared.step.Dropped.{Dropped};
ghost use Rattle.zair_form.specs.declared.step.Step.{Step};
ghost use Rattle.zair_form.specs.declared.step.Step.TheVariants.{Deactivate, Move};
ghost use Rattle.zair_state.specs.FirstFault.{Breaks, IsFirstFault};
ghost use Rattle.zair_state.specs.Invariant.{IsSound, KeepsGap};
ghost use Rattle.zair_state.specs.Legal.{AreOnce, IsLegal};
ghost use Rattle.zair_state.specs.Result.{after};
ghost use Rattle.zair_state.specs.Run.{IsLegalRun, after_all};
ghost use Rattle.zair_state.specs.State.{State, beams_of, opening, IsAt};
ghost use Rattle.zair_state.specs.declared.fault.MachineFault.{MachineFault};
ghost use Rattle.zair_state.specs.declared.place.Place.TheVariants.{Trap};

use zac_arch::{Card, laws_of_traps};

/// Each qubit in its home, the homes being distinct traps of the card, and no beam: such a state is sound.
pub fn openings_are_sound()
    ensures { (a : Architecture) (homes : List TrapId) → All (λ home. home.0 < trap_count a) homes
        → AreOnce (map (λ home. home.0) homes) → IsSound a (opening a homes) }
{}

/// A legal step leads from each sound state to a sound state, and so do legal steps one after another.
pub fn legal_steps_keep_states_sound(card: &Card)
    ensures one { (s : State) (step : Step) → IsSound card.now s → IsLegal card.now s step
        → IsSound card.now (after s step) }
    ensures all { (s : State) (steps : List Step) → IsSound card.now s → IsLegalRun card.now s steps
        → IsSound card.now (after_all s steps) }
{
    let _figures = card.figures();
    laws_of_traps(card);
}

/// In a legal move from a sound state the beams keep their order and the gap all the way.
pub fn moves_keep_the_gap()
    ensures rows { (a : Architecture) (s : State) (aod : ℕ) (rows columns : List Beam)
        → IsSound a s → IsLegal a s (Move aod rows columns)
        → KeepsGap a.figures.gap (beams_of s aod).rows (beams_of (after s (Move aod rows columns)) aod).rows }
    ensures columns { (a : Architecture) (s : State) (aod : ℕ) (rows columns : List Beam)
        → IsSound a s → IsLegal a s (Move aod rows columns)
        → KeepsGap a.figures.gap (beams_of s aod).columns (beams_of (after s (Move aod rows columns)) aod).columns }
{}

/// No atom is dropped on another: a legal step drops atoms into empty traps alone.
pub fn drops_find_empty_traps(card: &Card)
    ensures { (s : State) (aod : ℕ) (rows columns : List ℕ) (atoms : List Dropped)
        → IsSound card.now s → IsLegal card.now s (Deactivate aod rows columns atoms)
        → All (λ d. (q : ℕ) → ¬ IsAt s q (Trap d.trap)) atoms }
{
    let _figures = card.figures();
    laws_of_traps(card);
}

/// No condition is broken exactly where a step is legal.
pub fn faults_tell_legal_steps(card: &Card)
    ensures legal { (s : State) (step : Step) → IsLegal card.now s step
        → (fault : MachineFault) → ¬ Breaks card.now s step fault }
    ensures unbroken { (s : State) (step : Step)
        → ((fault : MachineFault) → ¬ Breaks card.now s step fault) → IsLegal card.now s step }
{
    let _figures = card.figures();
    laws_of_traps(card);
}

/// Of the things that are wrong with a step one is the first.
pub fn first_faults_are_one()
    ensures { (a : Architecture) (s : State) (step : Step) (fault other : MachineFault)
        → IsFirstFault a s step fault → IsFirstFault a s step other → fault ≡ other }
{}
