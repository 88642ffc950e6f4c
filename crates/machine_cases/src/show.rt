//! Faults and places in words.

use std::io;
use zair_machine::{Axis, BeamId, Machine, MachineFault, Place};

/// Prints what is wrong with a beam.
fn print_beam(rt: &HostRuntime, name: &str, beam: BeamId) -> io::Result<()> {
    match beam.axis {
        Axis::Row => println!(rt; "{name} row {}", beam.id),
        Axis::Column => println!(rt; "{name} column {}", beam.id),
    }
}

/// Prints a fault.
pub fn print_fault(rt: &HostRuntime, fault: MachineFault) -> io::Result<()> {
    match fault {
        MachineFault::Unknown { number } => println!(rt; "Unknown {number}"),
        MachineFault::Busy { beam } => print_beam(rt, "Busy", beam),
        MachineFault::NotActive { beam } => print_beam(rt, "NotActive", beam),
        MachineFault::Limit { beam } => print_beam(rt, "Limit", beam),
        MachineFault::Order { beam } => print_beam(rt, "Order", beam),
        MachineFault::Gap { beam } => print_beam(rt, "Gap", beam),
        MachineFault::Touch { row, column } => println!(rt; "Touch row {row} column {column}"),
        MachineFault::PickWrong { q } => println!(rt; "PickWrong q {q}"),
        MachineFault::DropWrong { q } => println!(rt; "DropWrong q {q}"),
        MachineFault::TrapFull { q, trap } => println!(rt; "TrapFull q {q} trap {}", trap.0),
        MachineFault::PairWrong { a, b } => println!(rt; "PairWrong q {a} q {b}"),
        MachineFault::LitAlone { q } => println!(rt; "LitAlone q {q}"),
        MachineFault::NotAtRest { q } => println!(rt; "NotAtRest q {q}"),
        MachineFault::Crossing { aod, row, column } => {
            println!(rt; "Crossing aod {aod} row {row} column {column}")
        }
    }
}

/// Prints a place, with a blank before it.
fn print_place(rt: &HostRuntime, place: Place) -> io::Result<()> {
    match place {
        Place::Trap(trap) => print!(rt; " trap {}", trap.0),
        Place::Held { aod, row, column } => print!(rt; " held {aod} {row} {column}"),
    }
}

/// Prints where each atom is, in a line.
pub fn print_places(rt: &HostRuntime, machine: &Machine<'_>) -> io::Result<()> {
    print!(rt; "places:")?;
    for q in 0..machine.qubits() {
        print_place(rt, machine.place(q))?;
    }
    println!(rt; "")
}
