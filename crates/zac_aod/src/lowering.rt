//! Lowering.

ghost use Rattle.std.specs.Prelude.{◌≡◌, ◌<◌, ◌≤◌, ◌^◌, [], ◌++◌, IfOk, length};
ghost use Rattle.std.specs.List.{All};
ghost use Rattle.zac_aod.specs.Jobs.{StandAt};
ghost use Rattle.zac_aod.specs.Lines.{source_points, target_points};
ghost use Rattle.zac_aod.specs.Lowering.{job_steps};
ghost use Rattle.zac_group.specs.Groups.{IsGroup};
ghost use Rattle.zair_form.specs.Times.{LastTogether};

use crate::grid::{add_grid, sources, targets};
use crate::job::Job;
use crate::laws::{card_laws, job_limits, jobs_are_sound};
use crate::layout::Layout;
use std::alloc::Global;
use zac_arch::{Card, TrapId};
use zac_gates::List;
use zac_group::{Group, Shift};
use zac_memory::Memory;
use zair_form::{Step, StepTimer};

impl Layout<'_> {
    /// The steps of the job.
    fn steps(&self, alloc: Global) -> Result<Vec<Step>, Memory>
        ensures { IfOk result (λ steps. steps.items ≡ job_steps self.now.card.now self.now.shifts.now 0) }
    {
        let mut steps = Vec::with_capacity(alloc, (4 * self.rows.len()).saturating_sub(1))?;
        self.load(alloc, &mut steps)?;
        self.fly(alloc, &mut steps)?;
        self.unload(alloc, &mut steps)?;
        Ok(steps)
    }

    /// The traps of the two grids.
    fn grid(&self, alloc: Global) -> Result<Vec<TrapId>, Memory>
        requires { IsGroup (record { card = self.now.card.now; shifts = self.now.shifts.now }) }
        ensures { IfOk result (λ traps. StandAt self.now.card.now traps.items
            (source_points self.now.card.now self.now.shifts.now ++ target_points self.now.card.now self.now.shifts.now)) }
    {
        card_laws(self.card);
        let mut traps = Vec::with_capacity(alloc, 2 * self.rows.len() * self.columns.len())?;
        let xs = sources(alloc, self.columns.as_slice())?;
        let ys = sources(alloc, self.rows.as_slice())?;
        add_grid(self.card, xs.as_slice(), ys.as_slice(), &mut traps)?;
        let xs = targets(alloc, self.columns.as_slice())?;
        let ys = targets(alloc, self.rows.as_slice())?;
        add_grid(self.card, xs.as_slice(), ys.as_slice(), &mut traps)?;
        Ok(traps)
    }
}

/// How long steps take together.
fn duration(card: &Card, steps: &[Step]) -> u64
    requires { length steps.now ≤ 256 }
    ensures { LastTogether card.now.figures [] steps.now result }
{
    let _ranges = card.figures();
    let mut timer = StepTimer::new();
    let mut total = 0;
    for step in steps {
        total += timer.lasts(card, step);
    }
    total
}

/// The number of a move's qubit is one of a `u32`.
fn qubit_fits(shift: Shift)
    ensures { shift.q < 2 ^ 32 }
{
    let _q = shift.q;
}

/// The number of each move's qubit is one of a `u32`.
fn qubits_fit(shifts: &[Shift])
    ensures { All (λ shift. shift.q < 2 ^ 32) shifts.now }
{
    for shift in shifts {
        qubit_fits(*shift);
    }
}

/// Lowers a group of moves on this card to a job of AOD 0. The only error is that memory ran out.
pub fn lower<'a>(alloc: Global, card: &'a Card, group: &Group) -> Result<Job<'a>, Memory>
    requires { group.now.card ≡ card.now }
    ensures { IfOk result (λ job. job ≡ record { card = card.now; shifts = group.now.shifts; aod = 0 }) }
{
    let shifts = group.shifts();
    qubits_fit(shifts);
    jobs_are_sound(card);
    job_limits(card);
    let layout = Layout::new(alloc, card, shifts)?;
    let steps = layout.steps(alloc)?;
    let grid = layout.grid(alloc)?;
    let duration = duration(card, steps.as_slice());
    Ok(Job {
        card,
        shifts: List::of(Vec::from_slice(alloc, shifts)?),
        aod: 0,
        steps,
        grid: List::of(grid),
        duration,
    })
}
