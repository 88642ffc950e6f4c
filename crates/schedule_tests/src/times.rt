//! A test of zac_sched: on the card `square` a job waits until another has left its grid.

ghost use Rattle.std.specs.Prelude.{◌≡◌, ◌<◌, ◌≤◌, IfSome, length};
ghost use Rattle.std.specs.List.{All};
ghost use Rattle.zac_aod.specs.Lowering.{job_steps};
ghost use Rattle.zac_group.specs.Groups.{IsPhase};

use std::alloc::Global;
use std::test::Fail;
use zac_aod::{Job, lower};
use zac_arch::{Card, TrapId};
use zac_archfile::read_card;
use zac_gates::List;
use zac_group::{Shift, groups};
use zac_sched::{Todo, schedule};
use zair_form::{Act, Program};

/// The card: two by two storage traps, and two sites in a column above them.
const SQUARE: &str =
    r#"{"accel":2750,"activate":15000,"aods":2,"columns":4,"deactivate":15000,"entangling":[{"columns":1,"dx":120,"dy":100,"pair":20,"rows":2,"x":0,"y":130}],"gap":10,"one":52000,"park":10,"pulse":360,"radius":60,"reach":5,"readout":1000000,"rows":4,"storage":[{"columns":2,"dx":30,"dy":30,"rows":2,"x":0,"y":0}],"version":1}"#;

/// The first three qubits go to the sites.
const FIRST: [Shift; 3] = [
    Shift {
        q: 0,
        from: TrapId(0),
        to: TrapId(4),
    },
    Shift {
        q: 1,
        from: TrapId(1),
        to: TrapId(5),
    },
    Shift {
        q: 2,
        from: TrapId(2),
        to: TrapId(6),
    },
];

/// The last one goes there, from a trap that is a crossing of the first job's source grid.
const LAST: [Shift; 1] = [Shift {
    q: 3,
    from: TrapId(3),
    to: TrapId(7),
}];

/// The job of the first group of these moves, if it is a small one of the first four qubits.
fn job_of<'a>(alloc: Global, card: &'a Card, shifts: List<Shift>) -> Option<Job<'a>>
    requires { IsPhase card.now shifts }
    ensures card { IfSome result (λ job. job.card ≡ card.now) }
    ensures qubits { IfSome result (λ job. All (λ shift. shift.q < 4) job.shifts) }
    ensures steps { IfSome result (λ job. length (job_steps job.card job.shifts 0) ≤ 100) }
{
    let groups = groups(alloc, card, shifts).ok()?;
    let group = groups.as_slice().first()?;
    let job = lower(alloc, card, group).ok()?;
    let small = job.shifts().iter().all(|shift| shift.q < 4) && job.steps().len() <= 100;
    if small { Some(job) } else { None }
}

/// The program of two jobs of the first four qubits.
fn program_of<'a>(
    alloc: Global,
    card: &Card,
    first: Job<'a>,
    last: Job<'a>,
) -> Result<Program, Fail>
    requires first_card { first.card ≡ card.now }
    requires first_qubits { All (λ shift. shift.q < 4) first.shifts }
    requires first_steps { length (job_steps first.card first.shifts 0) ≤ 100 }
    requires last_card { last.card ≡ card.now }
    requires last_qubits { All (λ shift. shift.q < 4) last.shifts }
    requires last_steps { length (job_steps last.card last.shifts 0) ≤ 100 }
{
    let homes = Vec::from_slice(alloc, &[TrapId(0), TrapId(1), TrapId(2), TrapId(3)])?;
    let mut todo = Vec::new(alloc);
    todo.push(Todo::Job { job: first })?;
    todo.push(Todo::Job { job: last })?;
    let program = schedule(alloc, card, List::of(homes), List::of(todo));
    Ok(program.ok().ok_or("memory")?)
}

/// The AOD, the begin and the end of the job at this place of a program.
fn times_of(program: &Program, place: usize) -> Option<(u8, u64, u64)> {
    let instr = program.instrs().get(place)?;
    match &instr.act {
        Act::Job { aod, .. } => Some((*aod, instr.begin, instr.end)),
        _ => None,
    }
}

#[test]
fn a_job_waits_for_the_grid_of_another(rt: HostRuntime) -> Result<(), Fail> {
    let alloc = rt.alloc();
    let card = read_card(alloc, SQUARE.as_bytes()).ok().ok_or("no card")?;
    assert!(rt; card.storage_traps() == 4);
    assert!(rt; card.traps() == 8);
    let shifts = Vec::from_slice(alloc, &FIRST)?;
    let first = job_of(alloc, &card, List::of(shifts)).ok_or("no job")?;
    let shifts = Vec::from_slice(alloc, &LAST)?;
    let last = job_of(alloc, &card, List::of(shifts)).ok_or("no job")?;
    let program = program_of(alloc, &card, first, last)?;
    assert!(rt; times_of(&program, 1) == Some((0, 0, 189_332)));
    assert!(rt; times_of(&program, 2) == Some((1, 189_332, 304_666)));
    Ok(())
}
