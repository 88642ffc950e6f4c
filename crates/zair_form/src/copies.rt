//! Steps of a program, copied.

ghost use Rattle.std.specs.Prelude.{◌≡◌, ◌<◌, IfOk, Some, length, slice_get};
ghost use Rattle.zair_form.specs.Steps.{steps_of, IsStepAt};
ghost use Rattle.zair_form.specs.declared.step.Step.{Step};

use crate::program::{Act, Program};
use crate::step::{OneGate, Step};
use std::alloc::Global;
use zac_gates::{List, Memory};

/// A list of the same items.
fn copy_list<T: Copy + Drop>(alloc: Global, list: &List<T>) -> Result<List<T>, Memory>
    ensures { IfOk result (λ l. l ≡ list.now) }
{
    Ok(List::of(Vec::from_slice(alloc, list.as_slice())?))
}

impl OneGate {
    /// An equal gate.
    fn copy(&self, alloc: Global) -> Result<OneGate, Memory>
        ensures { IfOk result (λ g. g ≡ self.now) }
    {
        let angles = self.angles.copy(alloc)?;
        Ok(OneGate {
            op: self.op,
            q: self.q,
            angles,
        })
    }
}

impl Step {
    /// An equal step.
    fn copy(&self, alloc: Global) -> Result<Step, Memory>
        ensures { IfOk result (λ s. s ≡ self.now) }
    {
        match self {
            Step::Activate {
                aod,
                rows,
                columns,
                atoms,
            } => {
                let rows = copy_list(alloc, rows)?;
                let columns = copy_list(alloc, columns)?;
                let atoms = copy_list(alloc, atoms)?;
                Ok(Step::Activate {
                    aod: *aod,
                    rows,
                    columns,
                    atoms,
                })
            }
            Step::Move { aod, rows, columns } => {
                let rows = copy_list(alloc, rows)?;
                let columns = copy_list(alloc, columns)?;
                Ok(Step::Move {
                    aod: *aod,
                    rows,
                    columns,
                })
            }
            Step::Deactivate {
                aod,
                rows,
                columns,
                atoms,
            } => {
                let rows = copy_list(alloc, rows)?;
                let columns = copy_list(alloc, columns)?;
                let atoms = copy_list(alloc, atoms)?;
                Ok(Step::Deactivate {
                    aod: *aod,
                    rows,
                    columns,
                    atoms,
                })
            }
            Step::One { gate } => {
                let gate = gate.copy(alloc)?;
                Ok(Step::One { gate })
            }
            Step::Pulse { pairs } => {
                let pairs = copy_list(alloc, pairs)?;
                Ok(Step::Pulse { pairs })
            }
            Step::Readout { reads } => {
                let reads = copy_list(alloc, reads)?;
                Ok(Step::Readout { reads })
            }
        }
    }
}

impl Act {
    /// A copy of the step at a place among those of the act.
    fn step_at(&self, alloc: Global, place: usize) -> Result<Step, Memory>
        requires { place < length (steps_of self.now) }
        ensures { IfOk result (λ s. slice_get (steps_of self.now) place ≡ Some s) }
    {
        match self {
            Act::Init { .. } => unreachable!(),
            Act::Gates { ones } => {
                let gate = ones.as_slice()[place].copy(alloc)?;
                Ok(Step::One { gate })
            }
            Act::Rydberg { pairs } => {
                let pairs = copy_list(alloc, pairs)?;
                Ok(Step::Pulse { pairs })
            }
            Act::Job { steps, .. } => steps.as_slice()[place].copy(alloc),
            Act::Readout { reads } => {
                let reads = copy_list(alloc, reads)?;
                Ok(Step::Readout { reads })
            }
        }
    }
}

impl Program {
    /// A copy of a step of an instruction, both counted from 0. The steps of `Gates` are its gates, `Rydberg` and
    /// `Readout` have one step each, and `Init` has none.
    pub fn step_of(&self, alloc: Global, instr: u64, step: u64) -> Result<Step, Memory>
        requires has { (s : Step) × IsStepAt self.now instr step s }
        ensures { IfOk result (λ s. IsStepAt self.now instr step s) }
    {
        let instrs = self.instrs();
        instrs[instr as usize].act.step_at(alloc, step as usize)
    }
}
