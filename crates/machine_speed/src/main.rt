//! Steps a job of 64 by 64 beams on cards of several sizes and with more and fewer qubits, to measure how long its steps take.
//!
//! A line of standard input is `atoms SIDE QUBITS TIMES` or `beams SIDE QUBITS TIMES`: the storage traps of the card stand in a
//! square of so many in a row, 64 to 256, there are so many qubits, but 4,096 at least, and the job is done so many times. With
//! atoms it catches 4,096 of them, carries all of them to places beside their traps and back, and drops them; with beams alone it
//! does the same between the traps. A square of 100 is that of the standard card. By `lists SIDE ENTRIES TIMES` there are 4,096
//! qubits, and the job is three steps that aren't legal, each with a list of so many entries: beams, caught atoms and pairs.
#![tactic(auto)]

mod card;
mod job;

ghost use Rattle.std.specs.Prelude.{◌≤◌};

use card::card;
use job::{homes, job_between_traps, job_of_long_lists, job_with_atoms};
use std::io;
use zac_arch::Card;
use zair_form::Step;
use zair_machine::Machine;

/// What a line asks for.
#[derive(Drop)]
struct Task<'a> {
    kind: &'a str,
    side: u32,
    number: u32,
    times: u32,
}

/// A word and three numbers.
fn task_of(line: &str) -> Option<Task<'_>> {
    let (kind, numbers) = line.split_once(' ')?;
    let (side, numbers) = numbers.split_once(' ')?;
    let (number, times) = numbers.split_once(' ')?;
    let side = side.parse::<u32>().ok()?;
    let number = number.parse::<u32>().ok()?;
    let times = times.parse::<u32>().ok()?;
    Some(Task {
        kind,
        side,
        number,
        times,
    })
}

/// How many steps are legal, where a job is done so many times.
fn legal_steps(machine: &mut Machine<'_>, job: &[Step], times: u32) -> u64 {
    let mut legal = 0u64;
    for _ in 0..times {
        for step in job {
            if machine.step(step).is_ok() {
                legal = legal.saturating_add(1);
            }
        }
    }
    legal
}

/// Does the job, and says how many steps were legal.
fn report(rt: &HostRuntime, task: &Task<'_>, card: &Card) -> io::Result<()>
    requires least { 64 ≤ task.now.side }
    requires most { task.now.side ≤ 256 }
{
    let (kind, side) = (task.kind, task.side);
    let (job, qubits) = match kind {
        "atoms" => (job_with_atoms(rt.alloc(), side), task.number),
        "lists" => (job_of_long_lists(rt.alloc(), task.number), 0),
        _ => (job_between_traps(rt.alloc()), task.number),
    };
    let (Ok(homes), Ok(job)) = (homes(rt.alloc(), side, qubits), job) else {
        return println!(rt; "out of memory");
    };
    let Ok(mut machine) = Machine::new(rt.alloc(), card, homes.as_slice()) else {
        return println!(rt; "no machine");
    };
    let traps = card.storage_traps();
    let qubits = machine.qubits();
    let legal = legal_steps(&mut machine, job.as_slice(), task.times);
    println!(rt; "{kind}: {traps} storage traps, {qubits} qubits, {legal} legal steps")
}

fn main(rt: HostRuntime) -> io::Result<()> {
    for line in rt.lines(rt.alloc()) {
        let line = line?;
        let Some(task) = task_of(line.as_str()) else {
            println!(rt; "?")?;
            continue;
        };
        if task.side < 64 || 256 < task.side {
            println!(rt; "?")?;
            continue;
        }
        match card(rt.alloc(), task.side) {
            Some(card) => report(&rt, &task, &card)?,
            None => println!(rt; "no card")?,
        }
    }
    Ok(())
}
