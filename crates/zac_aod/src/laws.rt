//! What holds of the jobs of every group on every card.

ghost use Rattle.std.specs.Prelude.{ℕ, ◌^◌, ◌*◌, ◌<◌, ◌≤◌, All, List, [], length};
ghost use Rattle.std.specs.List.{AllByRecursion};
ghost use Rattle.zac_aod.specs.CardLaws.{CardLaws};
ghost use Rattle.zac_aod.specs.Lowering.{legs, job_steps};
ghost use Rattle.zac_aod.specs.Resources.{HasResources};
ghost use Rattle.zac_aod.specs.Soundness.{IsSoundJob, Advances};
ghost use Rattle.zac_aod.specs.declared.stage.Stage.TheVariants as stage;
ghost use Rattle.zac_group.specs.Groups.{IsGroup};
ghost use Rattle.zac_group.specs.declared.shift.Shift.{Shift};
ghost use Rattle.zair_form.specs.Ranges.{StepFits};
ghost use Rattle.zair_form.specs.Times.{LastTogether};
ghost use Rattle.zair_state.specs.Moves.{EachGoesSomewhere};

use zac_arch::{Card, laws_of_parking, laws_of_traps, laws_of_zones};

/// What jobs rest on, of the laws of a card's traps, of parking and of zones.
pub(crate) fn card_laws(card: &Card)
    ensures { CardLaws card.now }
{
    laws_of_traps(card);
    laws_of_parking(card);
    laws_of_zones(card);
    let _rules = card.figures();
}

/// A law: the steps of a job are sound, whatever the group and the AOD; and each step is legal wherever the job is at the
/// stage before it and nothing disturbs it, and leads to the next stage.
pub fn jobs_are_sound(card: &Card)
    ensures sound { (shifts : List Shift) → (aod : ℕ) → IsGroup (record { card = card.now; shifts = shifts })
        → IsSoundJob card.now shifts aod (job_steps card.now shifts aod) }
    ensures advances { (shifts : List Shift) → (aod : ℕ) → IsGroup (record { card = card.now; shifts = shifts })
        → Advances card.now shifts aod stage.Waiting (legs card.now shifts aod) }
{
    card_laws(card);
}

/// A law: what the steps of a job carry is in the ranges of the text form, where the qubits and the AOD are; they take at
/// most four seconds for each move; and whenever the beams move, some beam goes somewhere, so that each step takes time.
pub fn job_limits(card: &Card)
    ensures fits { (shifts : List Shift) → (aod : ℕ) → IsGroup (record { card = card.now; shifts = shifts })
        → aod ≤ 255 → All (λ shift. shift.q < 2 ^ 32) shifts
        → AllByRecursion StepFits (job_steps card.now shifts aod) }
    ensures quick { (shifts : List Shift) → (aod duration : ℕ) → IsGroup (record { card = card.now; shifts = shifts })
        → LastTogether card.now.figures [] (job_steps card.now shifts aod) duration
        → duration ≤ 4000000000 * length shifts }
    ensures moves { (shifts : List Shift) → (aod : ℕ) → IsGroup (record { card = card.now; shifts = shifts })
        → EachGoesSomewhere [] (job_steps card.now shifts aod) }
{
    card_laws(card);
    let _count = card.traps();
    let _rules = card.figures();
}

/// A law: the resources of a job's instruction are its AOD, its qubits and the traps of its two grids.
pub fn job_resources(card: &Card)
    ensures { (shifts : List Shift) → (aod : ℕ) → IsGroup (record { card = card.now; shifts = shifts })
        → HasResources card.now shifts aod (job_steps card.now shifts aod) }
{}
