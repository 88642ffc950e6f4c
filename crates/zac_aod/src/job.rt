//! Jobs.

ghost use Rattle.std.specs.Prelude.{◌≡◌, ◌≤◌, ◌*◌, ◌++◌, [], length, map};
ghost use Rattle.std.specs.List.{AllByRecursion};
ghost use Rattle.zac_aod.specs.Aods.{step_on};
ghost use Rattle.zac_aod.specs.Jobs.{StandAt};
ghost use Rattle.zac_aod.specs.Lines.{source_points, target_points};
ghost use Rattle.zac_aod.specs.Lowering.{job_steps};
ghost use Rattle.zac_aod.specs.Soundness.{IsSoundJob};
ghost use Rattle.zac_group.specs.Groups.{IsGroup};
ghost use Rattle.zair_form.specs.Ranges.{StepFits};
ghost use Rattle.zair_form.specs.Times.{LastTogether};

use crate::laws::jobs_are_sound;
use std::marker::Model;
use zac_arch::{Card, TrapId};
use zac_gates::List;
use zac_group::Shift;
use zair_form::Step;

/// A group of moves, lowered to the steps of one AOD. Contracts see the card, the moves and the AOD.
///
/// Its steps are sound: from every sound state of the machine in which the AOD is idle, the atoms rest in their sources,
/// their targets are empty and no other AOD is near the two grids, each step is legal, and they leave the atoms in their
/// targets and all else as it was.
#[derive(Drop)]
pub struct Job<'a> {
    pub(crate) card: &'a Card,
    pub(crate) shifts: List<Shift>,
    pub(crate) aod: u8,
    pub(crate) steps: Vec<Step>,
    pub(crate) grid: List<TrapId>,
    pub(crate) duration: u64,
}

impl<'a> Model for Job<'a> {
    ghost use Rattle.zac_aod.specs.Jobs.{JobOf, IsJob};

    ghost Value = { JobOf };

    ghost view = { λ j. record { card = j.card.now; shifts = j.shifts; aod = j.aod } };

    ghost invariant = { λ j. IsJob (record { card = j.card.now; shifts = j.shifts; aod = j.aod }) j.steps.items j.grid j.duration };
}

/// Makes a step one of another AOD.
fn step_on(step: &mut Step, aod: u8)
    ensures { step.new ≡ step_on aod step.old }
{
    match step {
        Step::Activate { aod: own, .. } => *own = aod,
        Step::Move { aod: own, .. } => *own = aod,
        Step::Deactivate { aod: own, .. } => *own = aod,
        Step::One { .. } | Step::Pulse { .. } | Step::Readout { .. } => {}
    }
}

/// Makes steps ones of another AOD.
fn all_on(steps: &mut Vec<Step>, aod: u8)
    ensures { steps.new.items ≡ map (step_on aod) steps.old.items }
{
    for k in 0..steps.len() {
        step_on(&mut steps[k], aod);
    }
}

impl Job<'_> {
    /// The steps, in order: activates, moves and deactivates of the job's AOD. A job is made for AOD 0.
    pub fn steps(&self) -> &[Step]
        ensures steps { result.now ≡ job_steps self.now.card self.now.shifts self.now.aod }
        ensures sound { IsSoundJob self.now.card self.now.shifts self.now.aod result.now }
        ensures fits { AllByRecursion StepFits result.now }
    {
        self.steps.as_slice()
    }

    /// The moves, by source y, then source x. They are a group on the job's card.
    pub fn shifts(&self) -> &[Shift]
        ensures shifts { result.now ≡ self.now.shifts }
        ensures group { IsGroup (record { card = self.now.card; shifts = self.now.shifts }) }
    {
        self.shifts.as_slice()
    }

    /// The traps of the source grid, all rows of the moves times all their columns, row after row, and then those of the
    /// target grid.
    pub fn grid(&self) -> &[TrapId]
        ensures { StandAt self.now.card result.now (source_points self.now.card self.now.shifts ++ target_points self.now.card self.now.shifts) }
    {
        self.grid.as_slice()
    }

    /// How long the steps take together, in nanoseconds: at most four seconds for each move.
    pub fn duration(&self) -> u64
        ensures lasts { LastTogether self.now.card.figures [] (job_steps self.now.card self.now.shifts self.now.aod) result }
        ensures most { result ≤ 4000000000 * length self.now.shifts }
    {
        self.duration
    }

    /// Makes it a job of another AOD. All else stays.
    pub fn on(&mut self, aod: u8)
        ensures { self.new ≡ record { card = self.old.card; shifts = self.old.shifts; aod = aod } }
    {
        jobs_are_sound(self.card);
        all_on(&mut self.steps, aod);
        self.aod = aod;
    }

    /// The steps alone.
    pub fn into_steps(self) -> List<Step>
        ensures { result ≡ job_steps self.entry.card self.entry.shifts self.entry.aod }
    {
        List::of(self.steps)
    }
}
