//! Instructions and programs.

ghost use Rattle.std.specs.Prelude.{◌≡◌, false, IsTrue, MatchOption};
ghost use Rattle.zair_form.specs.Steps.{is_init, is_step_of, has_own_steps, may_follow, is_program, homes_of, homes};
ghost use Rattle.std.specs.List.{list_all};

use crate::step::{OneGate, PairOf, ReadOf, Step};
use std::marker::Model;
use zac_arch::TrapId;
use zac_gates::List;

/// What an instruction does.
#[derive(Debug, Drop)]
pub enum Act {
    /// Each qubit rests in its home, in the order of the qubits.
    Init { homes: List<TrapId> },
    /// One-qubit gates, one after another.
    Gates { ones: List<OneGate> },
    /// One pulse.
    Rydberg { pairs: List<PairOf> },
    /// One rearrangement: an AOD carries atoms.
    Job { aod: u8, steps: List<Step> },
    /// One readout.
    Readout { reads: List<ReadOf> },
}

/// An instruction with its times, in nanoseconds.
#[derive(Debug, Drop)]
pub struct Instr {
    /// When it begins.
    pub begin: u64,
    /// When it ends.
    pub end: u64,
    /// What it does.
    pub act: Act,
}

/// A program: `Init` stands first and nowhere else, and a job has steps of its own AOD that switch beams on,
/// move them or switch them off. Contracts see it as the list of its instructions.
#[derive(Debug, Drop)]
pub struct Program {
    instrs: List<Instr>,
}

impl Model for Program {
    ghost use Rattle.std.specs.Prelude.{List, IsTrue};
    ghost use Rattle.zair_form.specs.declared.program.Instr.{Instr};

    ghost Value = { List Instr };

    ghost use Rattle.zair_form.specs.Steps.{is_program};

    ghost view = { λ p. p.instrs };

    ghost invariant = { λ p. IsTrue (is_program p.instrs) };
}

impl Step {
    fn is_step_of(&self, aod: u8) -> bool
        ensures { result ≡ is_step_of aod self.now }
    {
        match self {
            Step::Activate { aod: a, .. } => *a == aod,
            Step::Move { aod: a, .. } => *a == aod,
            Step::Deactivate { aod: a, .. } => *a == aod,
            Step::One { .. } => false,
            Step::Pulse { .. } => false,
            Step::Readout { .. } => false,
        }
    }
}

fn are_steps_of(steps: &[Step], aod: u8) -> bool
    ensures { result ≡ list_all (is_step_of aod) steps.now }
{
    steps.iter().all(|step| step.is_step_of(aod))
}

impl Act {
    fn homes(&self) -> &[TrapId]
        ensures { result.now ≡ homes_of self.now }
    {
        match self {
            Act::Init { homes } => homes.as_slice(),
            Act::Gates { .. } => &[],
            Act::Rydberg { .. } => &[],
            Act::Job { .. } => &[],
            Act::Readout { .. } => &[],
        }
    }

    fn is_init(&self) -> bool
        ensures { result ≡ is_init self.now }
    {
        matches!(self, Act::Init { .. })
    }

    fn has_own_steps(&self) -> bool
        ensures { result ≡ has_own_steps self.now }
    {
        match self {
            Act::Job { aod, steps } => are_steps_of(steps.as_slice(), *aod),
            Act::Init { .. } => true,
            Act::Gates { .. } => true,
            Act::Rydberg { .. } => true,
            Act::Readout { .. } => true,
        }
    }
}

impl Instr {
    fn may_follow(&self) -> bool
        ensures { result ≡ may_follow self.now }
    {
        !self.act.is_init() && self.act.has_own_steps()
    }
}

fn is_program(instrs: &[Instr]) -> bool
    ensures { result ≡ is_program instrs.now }
{
    match instrs {
        [] => false,
        [first, later @ ..] => first.act.is_init() && may_all_follow(later),
    }
}

fn may_all_follow(instrs: &[Instr]) -> bool
    ensures { result ≡ list_all may_follow instrs.now }
{
    instrs.iter().all(|i| i.may_follow())
}

impl Program {
    /// The program of these instructions. None exactly where the first isn't `Init`, a later one is, or a job
    /// has a step of another kind or of another AOD. It takes no memory.
    pub fn new(instrs: List<Instr>) -> Option<Program>
        ensures { MatchOption result (is_program instrs ≡ false)
            (λ p. (p ≡ instrs) × IsTrue (is_program instrs)) }
    {
        if is_program(instrs.as_slice()) {
            Some(Program { instrs })
        } else {
            None
        }
    }

    /// Its instructions, in list order.
    pub fn instrs(&self) -> &[Instr]
        ensures value { result.now ≡ self.now }
        ensures program { IsTrue (is_program self.now) }
    {
        self.instrs.as_slice()
    }

    /// The home of each qubit, in the order of the qubits: those that its first instruction, `Init`, gives.
    pub fn homes(&self) -> &[TrapId]
        ensures { result.now ≡ homes self.now }
    {
        match self.instrs() {
            [] => &[],
            [first, ..] => first.act.homes(),
        }
    }
}
