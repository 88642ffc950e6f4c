//! The commands.

use std::alloc::Global;
use zac_arch::TrapId;
use zac_gates::{Angle, Angles, Bytes, List};
use zair_form::{Beam, Caught, Dropped, OneGate, PairOf, ReadOf, Step};

/// The card of a machine.
#[derive(Clone, Copy)]
pub enum CardName {
    /// The tiny card.
    Tiny,
    /// The card with storage traps in a square.
    Square,
}

/// What a line asks for.
#[derive(Drop)]
pub enum Command {
    /// Nothing: it is printed.
    Comment,
    /// Begins anew on this card, with these homes.
    Homes(CardName, List<TrapId>),
    /// Prints where each atom is.
    Places,
    /// Does a step.
    Do(Step),
}

/// What stands before the first blank, and what stands behind it.
fn first_word(text: &str) -> (&str, &str) {
    match text.split_once(' ') {
        Some(parts) => parts,
        None => (text, ""),
    }
}

/// Numbers with blanks between.
fn numbers(alloc: Global, text: &str) -> Option<Vec<u32>> {
    let mut numbers = Vec::new(alloc);
    for word in text.split_whitespace() {
        let number = word.parse::<u32>().ok()?;
        numbers.push(number).ok()?;
    }
    Some(numbers)
}

/// A number that fits one byte.
fn small(number: u32) -> Option<u8> {
    u8::try_from(number).ok()
}

/// The number of an AOD.
fn aod(text: &str) -> Option<u8> {
    text.trim().parse::<u8>().ok()
}

/// Beams, each as its id and its position.
fn beams(alloc: Global, text: &str) -> Option<List<Beam>> {
    let numbers = numbers(alloc, text)?;
    let mut beams = Vec::new(alloc);
    for item in numbers.as_slice().chunks(2) {
        let [id, at] = item else {
            return None;
        };
        let id = small(*id)?;
        beams.push(Beam { id, at: *at }).ok()?;
    }
    Some(List::of(beams))
}

/// Ids of beams.
fn ids(alloc: Global, text: &str) -> Option<List<u8>> {
    let numbers = numbers(alloc, text)?;
    let mut ids = Vec::new(alloc);
    for number in numbers.as_slice() {
        let id = small(*number)?;
        ids.push(id).ok()?;
    }
    Some(List::of(ids))
}

/// Atoms that are caught, each as its qubit, its row and its column.
fn caught(alloc: Global, text: &str) -> Option<List<Caught>> {
    let numbers = numbers(alloc, text)?;
    let mut atoms = Vec::new(alloc);
    for item in numbers.as_slice().chunks(3) {
        let [q, row, column] = item else {
            return None;
        };
        let row = small(*row)?;
        let column = small(*column)?;
        atoms.push(Caught { q: *q, row, column }).ok()?;
    }
    Some(List::of(atoms))
}

/// Atoms that are dropped, each as its qubit and its trap.
fn dropped(alloc: Global, text: &str) -> Option<List<Dropped>> {
    let numbers = numbers(alloc, text)?;
    let mut atoms = Vec::new(alloc);
    for item in numbers.as_slice().chunks(2) {
        let [q, trap] = item else {
            return None;
        };
        let trap = TrapId(*trap);
        atoms.push(Dropped { q: *q, trap }).ok()?;
    }
    Some(List::of(atoms))
}

/// `AOD rows ID AT .. columns ID AT .. atoms Q ROW COLUMN ..`
fn activate(alloc: Global, text: &str) -> Option<Step> {
    let (number, text) = text.split_once("rows")?;
    let (rows, text) = text.split_once("columns")?;
    let (columns, atoms) = text.split_once("atoms")?;
    Some(Step::Activate {
        aod: aod(number)?,
        rows: beams(alloc, rows)?,
        columns: beams(alloc, columns)?,
        atoms: caught(alloc, atoms)?,
    })
}

/// `AOD rows ID AT .. columns ID AT ..`
fn move_of(alloc: Global, text: &str) -> Option<Step> {
    let (number, text) = text.split_once("rows")?;
    let (rows, columns) = text.split_once("columns")?;
    Some(Step::Move {
        aod: aod(number)?,
        rows: beams(alloc, rows)?,
        columns: beams(alloc, columns)?,
    })
}

/// `AOD rows ID .. columns ID .. atoms Q TRAP ..`
fn deactivate(alloc: Global, text: &str) -> Option<Step> {
    let (number, text) = text.split_once("rows")?;
    let (rows, text) = text.split_once("columns")?;
    let (columns, atoms) = text.split_once("atoms")?;
    Some(Step::Deactivate {
        aod: aod(number)?,
        rows: ids(alloc, rows)?,
        columns: ids(alloc, columns)?,
        atoms: dropped(alloc, atoms)?,
    })
}

/// The angle 0.
fn zero(alloc: Global) -> Option<Angle> {
    let bytes = b"0".to_vec(alloc).ok()?;
    Angle::new(Bytes::of(bytes)).ok()
}

/// `Q`, for a gate `U(0,0,0)`
fn one(alloc: Global, text: &str) -> Option<Step> {
    let q = text.trim().parse::<u32>().ok()?;
    let angles = Angles {
        theta: zero(alloc)?,
        phi: zero(alloc)?,
        lambda: zero(alloc)?,
    };
    Some(Step::One {
        gate: OneGate { op: 0, q, angles },
    })
}

/// `OP A B ..`
fn pulse(alloc: Global, text: &str) -> Option<Step> {
    let numbers = numbers(alloc, text)?;
    let mut pairs = Vec::new(alloc);
    for item in numbers.as_slice().chunks(3) {
        let [op, a, b] = item else {
            return None;
        };
        pairs
            .push(PairOf {
                op: *op,
                a: *a,
                b: *b,
            })
            .ok()?;
    }
    Some(Step::Pulse {
        pairs: List::of(pairs),
    })
}

/// `OP Q BIT ..`
fn readout(alloc: Global, text: &str) -> Option<Step> {
    let numbers = numbers(alloc, text)?;
    let mut reads = Vec::new(alloc);
    for item in numbers.as_slice().chunks(3) {
        let [op, q, bit] = item else {
            return None;
        };
        reads
            .push(ReadOf {
                op: *op,
                q: *q,
                bit: *bit,
            })
            .ok()?;
    }
    Some(Step::Readout {
        reads: List::of(reads),
    })
}

/// `CARD TRAP ..`
fn homes(alloc: Global, text: &str) -> Option<Command> {
    let (name, traps) = first_word(text);
    let card = match name {
        "tiny" => CardName::Tiny,
        "square" => CardName::Square,
        _ => return None,
    };
    let numbers = numbers(alloc, traps)?;
    let mut homes = Vec::new(alloc);
    for number in numbers.as_slice() {
        homes.push(TrapId(*number)).ok()?;
    }
    Some(Command::Homes(card, List::of(homes)))
}

/// The command of a line. None where it is none.
pub fn command_of(alloc: Global, line: &str) -> Option<Command> {
    let (head, rest) = first_word(line);
    let step = match head {
        "#" => return Some(Command::Comment),
        "homes" => return homes(alloc, rest),
        "places" => return Some(Command::Places),
        "activate" => activate(alloc, rest)?,
        "move" => move_of(alloc, rest)?,
        "deactivate" => deactivate(alloc, rest)?,
        "one" => one(alloc, rest)?,
        "pulse" => pulse(alloc, rest)?,
        "readout" => readout(alloc, rest)?,
        _ => return None,
    };
    Some(Command::Do(step))
}
