//! Runs steps on a machine of a small card, and prints what it answers of each.
//!
//! Standard input has a command a line, and each is answered in a line:
//!
//! ```text
//! # ..                                a comment, which is printed
//! homes CARD TRAP ..                  begins anew on this card, tiny or square, with the homes of the qubits
//! activate AOD rows ID AT .. columns ID AT .. atoms Q ROW COLUMN ..
//! move AOD rows ID AT .. columns ID AT ..
//! deactivate AOD rows ID .. columns ID .. atoms Q TRAP ..
//! one Q
//! pulse OP A B ..
//! readout OP Q BIT ..
//! places                              where each atom is
//! ```
//!
//! A step is answered by `ok` or its fault, and a line that is no command by `?`.
#![tactic(auto)]

mod read;
mod show;
mod square;

use read::{CardName, Command, command_of};
use show::{print_fault, print_places};
use square::square;
use std::io;
use zac_arch::{Card, TrapId};
use zac_gates::List;
use zair_form::Step;
use zair_machine::{Machine, NewFault};

/// Begins anew with these homes, where they are right.
fn begin<'a>(
    rt: &HostRuntime,
    card: &'a Card,
    homes: &List<TrapId>,
) -> io::Result<Option<Machine<'a>>> {
    match Machine::new(rt.alloc(), card, homes.as_slice()) {
        Ok(machine) => {
            println!(rt; "homes: ok")?;
            Ok(Some(machine))
        }
        Err(NewFault::Home { q }) => {
            println!(rt; "homes: Home {q}")?;
            Ok(None)
        }
        Err(NewFault::Memory) => {
            println!(rt; "homes: Memory")?;
            Ok(None)
        }
    }
}

/// Does a step, and prints the answer.
fn perform(rt: &HostRuntime, machine: &mut Option<Machine<'_>>, step: &Step) -> io::Result<()> {
    let Some(machine) = machine else {
        return println!(rt; "?");
    };
    match machine.step(step) {
        Ok(()) => println!(rt; "ok"),
        Err(fault) => print_fault(rt, fault),
    }
}

/// Prints where each atom is.
fn print_all(rt: &HostRuntime, machine: &Option<Machine<'_>>) -> io::Result<()> {
    match machine {
        Some(machine) => print_places(rt, machine),
        None => println!(rt; "?"),
    }
}

/// Answers each line of standard input.
fn answer<'a>(rt: &HostRuntime, tiny: &'a Card, square: &'a Card) -> io::Result<()> {
    let mut machine: Option<Machine<'a>> = None;
    for line in rt.lines(rt.alloc()) {
        let line = line?;
        match command_of(rt.alloc(), line.as_str()) {
            Some(Command::Comment) => println!(rt; "{line}")?,
            Some(Command::Homes(CardName::Tiny, homes)) => machine = begin(rt, tiny, &homes)?,
            Some(Command::Homes(CardName::Square, homes)) => machine = begin(rt, square, &homes)?,
            Some(Command::Places) => print_all(rt, &machine)?,
            Some(Command::Do(step)) => perform(rt, &mut machine, &step)?,
            None => println!(rt; "?")?,
        }
    }
    Ok(())
}

fn main(rt: HostRuntime) -> io::Result<()> {
    let Ok(tiny) = Card::tiny(rt.alloc()) else {
        return println!(rt; "Memory");
    };
    let Some(square) = square(rt.alloc(), &tiny) else {
        return println!(rt; "Memory");
    };
    answer(&rt, &tiny, &square)
}
