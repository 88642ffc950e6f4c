//! What is to be done, one thing after another.

ghost use Rattle.std.specs.Prelude.{◌≡◌, OnOk, [], ◌∷◌};
ghost use Rattle.std.specs.List.{AllByRecursion};
ghost use Rattle.zac_group.specs.Groups.{IsPhase};
ghost use Rattle.zair_form.specs.Ranges.{GateFits, PairFits, ReadFits};
ghost use Rattle.zac_plan.specs.Growth.{GoesOn, GrowsByJobs};
ghost use Rattle.zac_plan.specs.Plan.{gates_todo, job_of, reads_todo};
ghost use Rattle.zac_sched.specs.declared.todo.Todo.TheVariants.{Rydberg};

use std::alloc::Global;
use zac_aod::lower;
use zac_arch::Card;
use zac_gates::{List, Memory};
use zac_group::{Group, Shift, groups};
use zac_sched::Todo;
use zair_form::{OneGate, PairOf, ReadOf};

/// What is to be done so far, in order. Neither AODs nor times are chosen yet.
#[derive(Drop)]
pub struct Agenda<'a> {
    pub todo: Vec<Todo<'a>>,
}

impl<'a> Agenda<'a> {
    /// The agenda of nothing.
    pub fn empty(alloc: Global) -> Agenda<'a>
        ensures { result.todo.items ≡ [] }
    {
        Agenda {
            todo: Vec::new(alloc),
        }
    }

    /// Adds gates in one instruction, or nothing where there are none.
    pub fn add_gates(&mut self, ones: Vec<OneGate>) -> Result<(), Memory>
        requires fits { AllByRecursion GateFits ones.items }
        ensures ok { OnOk result (GoesOn self.old self.new (gates_todo ones.items)) }
    {
        if ones.is_empty() {
            return Ok(());
        }
        let ones = List::of(ones);
        self.todo.push(Todo::Gates { ones })?;
        Ok(())
    }

    /// Adds the job that makes the moves of a group.
    fn add_job(&mut self, alloc: Global, card: &'a Card, group: &Group) -> Result<(), Memory>
        requires card { group.now.card ≡ card.now }
        ensures ok { OnOk result (GoesOn self.old self.new (job_of card.now group.now ∷ [])) }
    {
        let job = lower(alloc, card, group)?;
        // Its contract says that what the steps carry is in range.
        let _steps = job.steps();
        self.todo.push(Todo::Job { job })?;
        Ok(())
    }

    /// Adds the jobs of a phase of moves, one for each of its groups, one after another.
    pub fn add_jobs(
        &mut self,
        alloc: Global,
        card: &'a Card,
        shifts: List<Shift>,
    ) -> Result<(), Memory>
        requires phase { IsPhase card.now shifts }
        ensures ok { OnOk result (GrowsByJobs card.now self.old self.new shifts) }
    {
        let groups = groups(alloc, card, shifts)?;
        for group in groups.as_slice() {
            self.add_job(alloc, card, group)?;
        }
        Ok(())
    }

    /// Adds a pulse for these pairs.
    pub fn add_pulse(&mut self, pairs: Vec<PairOf>) -> Result<(), Memory>
        requires fits { AllByRecursion PairFits pairs.items }
        ensures ok { OnOk result (GoesOn self.old self.new (Rydberg pairs.items ∷ [])) }
    {
        let pairs = List::of(pairs);
        self.todo.push(Todo::Rydberg { pairs })?;
        Ok(())
    }

    /// Adds reads in one instruction, or nothing where there are none.
    pub fn add_readout(&mut self, reads: Vec<ReadOf>) -> Result<(), Memory>
        requires fits { AllByRecursion ReadFits reads.items }
        ensures ok { OnOk result (GoesOn self.old self.new (reads_todo reads.items)) }
    {
        if reads.is_empty() {
            return Ok(());
        }
        let reads = List::of(reads);
        self.todo.push(Todo::Readout { reads })?;
        Ok(())
    }
}
