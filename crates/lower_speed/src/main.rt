//! Lowers full grids of atoms to jobs, to measure how long that takes. Each line of the input has a number of rows of
//! sites, a number of columns of sites, and how often the group of their atoms is lowered. Each site has two columns of
//! traps, so 16 rows and 8 columns of sites make a group of 16 by 16 atoms.
#![tactic(auto)]

ghost use Rattle.std.specs.Prelude.{◌≡◌, ◌≤◌, ◌*◌, [], ◌∷◌, IfOk};
ghost use Rattle.zac_arch.specs.Architecture.{storage_count, trap_count};
ghost use Rattle.lower_speed.specs.Moves.{AreMoves, entangling, storage};

use std::alloc::{AllocError, Global};
use std::io;
use zac_aod::{Memory, lower};
use zac_arch::{Card, Figures, TrapId, Zone, ZoneKind};
use zac_gates::List;
use zac_group::{Shift, groups};
use zair_form::Step;

/// The figures of the cards: an AOD has 64 rows and 64 columns.
const FIGURES: Figures = Figures {
    gap: 10,
    park: 10,
    reach: 5,
    radius: 60,
    accel: 2750,
    activate: 15_000,
    deactivate: 15_000,
    one: 52_000,
    pulse: 360,
    readout: 1_000_000,
    aods: 2,
    rows: 64,
    columns: 64,
};

/// What a line asks for.
#[derive(Clone, Copy)]
struct Task {
    rows: u16,
    sites: u16,
    times: u32,
}

/// The zones of a card: so many rows of sites and columns of sites, and as many storage traps as the sites have.
fn zones(alloc: Global, task: Task) -> Result<Vec<Zone>, AllocError>
    ensures { IfOk result (λ zones. zones.items ≡ storage task.rows task.sites ∷ entangling task.rows task.sites ∷ []) }
{
    Vec::from_slice(
        alloc,
        &[
            Zone {
                kind: ZoneKind::Storage,
                x: 0,
                y: 0,
                dx: 30,
                dy: 30,
                pair: 0,
                columns: 2 * u32::from(task.sites),
                rows: u32::from(task.rows),
            },
            Zone {
                kind: ZoneKind::Entangling,
                x: 0,
                y: 2100,
                dx: 120,
                dy: 100,
                pair: 20,
                columns: u32::from(task.sites),
                rows: u32::from(task.rows),
            },
        ],
    )
}

/// The atoms of all storage traps, each to the trap of the sites that has its place.
fn drawn_up(alloc: Global, traps: u32) -> Result<Vec<Shift>, AllocError>
    requires { traps ≤ 65536 }
    ensures { IfOk result (λ shifts. AreMoves traps traps shifts.items) }
{
    let mut shifts = Vec::new(alloc);
    for k in 0..traps {
        shifts.push(Shift {
            q: k,
            from: TrapId(k),
            to: TrapId(traps + k),
        })?;
    }
    Ok(shifts)
}

/// How many beams a step lists.
fn beams_in(step: &Step) -> usize {
    match step {
        Step::Activate { rows, columns, .. } | Step::Move { rows, columns, .. } => {
            rows.as_slice()
                .len()
                .saturating_add(columns.as_slice().len())
        }
        Step::Deactivate { rows, columns, .. } => {
            rows.as_slice()
                .len()
                .saturating_add(columns.as_slice().len())
        }
        Step::One { .. } | Step::Pulse { .. } | Step::Readout { .. } => 0,
    }
}

/// Lowers the moves of all atoms so many times, and says how many steps and beams the job has.
fn lowered(alloc: Global, card: &Card, traps: u32, times: u32) -> Result<(usize, usize), Memory>
    requires few { traps ≤ 65536 }
    requires storage { storage_count card.now ≡ traps }
    requires traps { trap_count card.now ≡ 2 * traps }
{
    let moved = drawn_up(alloc, traps)?;
    let shifts = List::of(moved);
    let groups = groups(alloc, card, shifts)?;
    let mut listed = (0, 0);
    if let Some(group) = groups.as_slice().first() {
        for _ in 0..times {
            let job = lower(alloc, card, group)?;
            let mut beams = 0usize;
            for step in job.steps() {
                beams = beams.saturating_add(beams_in(step));
            }
            listed = (job.steps().len(), beams);
        }
    }
    Ok(listed)
}

/// Says how the group that a task asks for is lowered.
fn report(rt: &(impl Print + AllocGlobal), task: Task) -> io::Result<()> {
    let Ok(card) = Card::new(FIGURES, zones(rt.alloc(), task)?) else {
        return println!(rt; "no card");
    };
    let traps = card.storage_traps();
    if traps > 65536 {
        return println!(rt; "too many traps");
    }
    if card.traps() != 2 * traps {
        return println!(rt; "another card");
    }
    match lowered(rt.alloc(), &card, traps, task.times) {
        Ok((steps, beams)) => println!(rt; "{traps} atoms: {steps} steps, {beams} beams"),
        Err(Memory) => println!(rt; "{traps} atoms: out of memory"),
    }
}

/// What a line asks for.
fn task_in(line: &str) -> Option<Task> {
    let mut words = line.split(' ');
    let rows = words.next()?.parse::<u16>().ok()?;
    let sites = words.next()?.parse::<u16>().ok()?;
    let times = words.next()?.parse::<u32>().ok()?;
    Some(Task { rows, sites, times })
}

fn main(rt: HostRuntime) -> io::Result<()> {
    for line in rt.lines(rt.alloc()) {
        let line = line?;
        match task_in(line.as_str()) {
            Some(task) => report(&rt, task)?,
            None => println!(rt; "no task")?,
        }
    }
    Ok(())
}
