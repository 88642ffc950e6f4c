//! The times of a program.

ghost use Rattle.std.specs.Prelude.{◌≡◌, ◌*◌, ◌≤◌, ◌<◌, [], ◌∷◌, IfOk, IsTrue, List, length};
ghost use Rattle.std.specs.List.{All};
ghost use Rattle.zac_aod.specs.Lowering.{job_steps};
ghost use Rattle.zac_arch.specs.Architecture.{trap_count};
ghost use Rattle.zac_arch.specs.declared.place.TrapId.{TrapId};
ghost use Rattle.zac_sched.specs.Ends.{AreEnds, AreMarked, GoesOn, HasRoom, IsFreeFrom};
ghost use Rattle.zac_sched.specs.Schedule.{IsSchedule, start};
ghost use Rattle.zac_sched.specs.Todos.{IsOfCard, NamesQubitsBelow, act_on, steps_in_all};
ghost use Rattle.zac_sched.specs.declared.ends.Ends.{Ends};
ghost use Rattle.zac_sched.specs.declared.todo.Todo.{Todo};
ghost use Rattle.zair_form.specs.Steps.{is_program, steps_of};
ghost use Rattle.zair_form.specs.declared.program.Act.{Act};
ghost use Rattle.zair_form.specs.declared.program.Instr.{Instr};
ghost use Rattle.zair_state.specs.Resources.{AreApart};

use crate::ends::{
    Ends, after_gates, after_jobs, after_moves, after_pairs, after_reads, free_first, mark_gates,
    mark_moves, mark_pairs, mark_reads, mark_traps, meets_zones,
};
use crate::todo::Todo;
use std::alloc::Global;
use zac_aod::{Job, job_resources};
use zac_arch::{Card, TrapId, laws_of_traps};
use zac_gates::{List, Memory};
use zair_form::{Act, Instr, OneGate, PairOf, Program, ReadOf};

impl Ends {
    /// The last ends behind the instruction of the homes alone, for so many qubits.
    fn new(alloc: Global, card: &Card, qubits: usize) -> Result<Ends, Memory>
        ensures ends { IfOk result (λ ends. (homes : List TrapId) → AreEnds card.now (start homes ∷ []) ends) }
        ensures qubits { IfOk result (λ ends. length ends.qubits.items ≡ qubits) }
    {
        Ok(Ends {
            laser: 0,
            aods: vec![in alloc; 0; card.figures().aods as usize]?,
            qubits: vec![in alloc; 0; qubits]?,
            traps: vec![in alloc; 0; card.traps() as usize]?,
            zones: 0,
            pulse: 0,
        })
    }

    /// The next instruction, of one-qubit gates.
    fn gates(&mut self, card: &Card, ones: List<OneGate>) -> Instr
        requires qubits { All (λ gate. gate.q < length self.old.qubits.items) ones }
        requires few { length ones ≤ 16000000 }
        requires room { HasRoom card.now self.old }
        ensures { GoesOn card.now self.old (Todo.Gates ones) result self.new }
    {
        let begin = after_gates(self.laser, &self.qubits, ones.as_slice());
        let end = begin + u64::from(card.figures().one) * ones.as_slice().len() as u64;
        self.laser = end;
        mark_gates(&mut self.qubits, ones.as_slice(), end);
        Instr {
            begin,
            end,
            act: Act::Gates { ones },
        }
    }

    /// The next instruction, of one pulse.
    fn pulse(&mut self, card: &Card, pairs: List<PairOf>) -> Instr
        requires qubits { All (λ pair. (pair.a < length self.old.qubits.items) × (pair.b < length self.old.qubits.items)) pairs }
        requires room { HasRoom card.now self.old }
        ensures { GoesOn card.now self.old (Todo.Rydberg pairs) result self.new }
    {
        let begin = after_pairs(self.laser.max(self.zones), &self.qubits, pairs.as_slice());
        let end = begin + u64::from(card.figures().pulse);
        self.laser = end;
        self.pulse = end;
        mark_pairs(&mut self.qubits, pairs.as_slice(), end);
        Instr {
            begin,
            end,
            act: Act::Rydberg { pairs },
        }
    }

    /// The next instruction, of one readout.
    fn readout(&mut self, card: &Card, reads: List<ReadOf>) -> Instr
        requires qubits { All (λ read. read.q < length self.old.qubits.items) reads }
        requires room { HasRoom card.now self.old }
        ensures { GoesOn card.now self.old (Todo.Readout reads) result self.new }
    {
        let begin = after_reads(self.laser, &self.qubits, reads.as_slice());
        let end = begin + u64::from(card.figures().readout);
        self.laser = end;
        mark_reads(&mut self.qubits, reads.as_slice(), end);
        Instr {
            begin,
            end,
            act: Act::Readout { reads },
        }
    }

    /// When all is free that a job of this AOD uses.
    fn free_for(&self, card: &Card, aod: u8, job: &Job<'_>) -> u64
        requires card { job.now.card ≡ card.now }
        requires qubits { All (λ shift. shift.q < length self.now.qubits.items) job.now.shifts }
        requires aod { aod < length self.now.aods.items }
        requires traps { length self.now.traps.items ≡ trap_count card.now }
        ensures { (earlier : List Instr) → AreEnds card.now earlier self.now
            → IsFreeFrom card.now earlier (Act.Job aod (job_steps card.now job.now.shifts aod)) result }
    {
        job_resources(card);
        laws_of_traps(card);
        let from = self.aods[aod as usize];
        let from = after_moves(from, &self.qubits, job.shifts());
        let grid = job.grid();
        let from = after_jobs(from, &self.traps, grid);
        if meets_zones(card.storage_traps(), grid) {
            from.max(self.pulse)
        } else {
            from
        }
    }

    /// Notes the last end of all that a job of this AOD uses.
    fn mark_job(&mut self, card: &Card, aod: u8, job: &Job<'_>, end: u64)
        requires card { job.now.card ≡ card.now }
        requires qubits { All (λ shift. shift.q < length self.old.qubits.items) job.now.shifts }
        requires aod { aod < length self.old.aods.items }
        requires traps { length self.old.traps.items ≡ trap_count card.now }
        ensures marked { AreMarked card.now self.old (Act.Job aod (job_steps card.now job.now.shifts aod)) end self.new }
        ensures qubits { length self.new.qubits.items ≡ length self.old.qubits.items }
    {
        job_resources(card);
        laws_of_traps(card);
        self.aods[aod as usize] = end;
        mark_moves(&mut self.qubits, job.shifts(), end);
        let grid = job.grid();
        mark_traps(&mut self.traps, grid, end);
        if meets_zones(card.storage_traps(), grid) {
            self.zones = self.zones.max(end);
        }
    }

    /// The next instruction, of one rearrangement.
    fn job(&mut self, card: &Card, mut job: Job<'_>) -> Instr
        requires card { job.card ≡ card.now }
        requires qubits { All (λ shift. shift.q < length self.old.qubits.items) job.shifts }
        requires few { length (job_steps job.card job.shifts 0) ≤ 16000000 }
        requires room { HasRoom card.now self.old }
        ensures { GoesOn card.now self.old (Todo.Job job.entry) result self.new }
    {
        // Its contract says that there are one to eight AODs.
        let _figures = card.figures();
        let aod = free_first(&self.aods);
        job.on(aod);
        let begin = self.free_for(card, aod, &job);
        let end = begin + job.duration();
        self.mark_job(card, aod, &job, end);
        Instr {
            begin,
            end,
            act: Act::Job {
                aod,
                steps: job.into_steps(),
            },
        }
    }

    /// The next instruction.
    fn next(&mut self, card: &Card, todo: Todo<'_>) -> Instr
        requires card { IsOfCard card.now todo }
        requires qubits { NamesQubitsBelow (length self.old.qubits.items) todo }
        requires few { length (steps_of (act_on 0 todo)) ≤ 16000000 }
        requires room { HasRoom card.now self.old }
        ensures { GoesOn card.now self.old todo.entry result self.new }
    {
        match todo {
            Todo::Gates { ones } => self.gates(card, ones),
            Todo::Rydberg { pairs } => self.pulse(card, pairs),
            Todo::Job { job } => self.job(card, job),
            Todo::Readout { reads } => self.readout(card, reads),
        }
    }
}

/// These instructions as a program.
fn program_of(instrs: Vec<Instr>) -> Program
    requires { IsTrue (is_program instrs.items) }
    ensures { result ≡ instrs.items }
{
    match Program::new(List::of(instrs)) {
        Some(program) => program,
        None => unreachable!(),
    }
}

/// The program that does this from these homes, at most 2,000,000 things with at most 16,000,000 steps.
///
/// Behind the instruction of the homes it has one instruction for each member of the list, in its order. A job is made by the
/// AOD whose last job ends first, of several the one of least number. Each instruction begins at the greatest end of an earlier
/// one that uses something that it uses too (the laser, an AOD, a qubit, a trap), else at 0, and takes as long as its steps, in
/// nanoseconds. So no resource serves two instructions at once. The call takes time in proportion to the resources that the
/// instructions name.
pub fn schedule(
    alloc: Global,
    card: &Card,
    homes: List<TrapId>,
    todo: List<Todo<'_>>,
) -> Result<Program, Memory>
    requires cards { All (IsOfCard card.now) todo }
    requires qubits { All (NamesQubitsBelow (length homes)) todo }
    requires few { length todo ≤ 2000000 }
    requires few_steps { steps_in_all todo ≤ 16000000 }
    ensures schedule { IfOk result (λ program. IsSchedule card.now homes todo.entry program) }
    ensures apart { IfOk result (λ program. AreApart card.now program) }
    ensures ends { IfOk result (λ program. All (λ i. (i.begin ≤ i.end) × (i.end ≤ 1000000000 * steps_in_all todo.entry)) program) }
{
    // Its contract says how long steps take at most.
    let _figures = card.figures();
    let mut ends = Ends::new(alloc, card, homes.as_slice().len())?;
    let todo = todo.into_vec();
    let mut instrs = Vec::with_capacity(alloc, todo.len() + 1)?;
    instrs.push(Instr {
        begin: 0,
        end: 0,
        act: Act::Init { homes },
    })?;
    for one in todo {
        let next = ends.next(card, one);
        instrs.push(next)?;
    }
    Ok(program_of(instrs))
}
