//! Groups the moves of full phases by first fit, to measure how long that takes. Each line of the input is a number of
//! moves, up to 2,048; behind it stands ` turned` where no two of them are to be compatible.
#![tactic(auto)]

ghost use Rattle.std.specs.Prelude.{◌≡◌, ◌+◌, ◌<◌, ◌≤◌, [], ◌∷◌, IfOk, IfSome};
ghost use Rattle.zac_arch.specs.Architecture.{storage_count, trap_count};
ghost use Rattle.group_speed.specs.Moves.{AreMoves, place, storage, entangling};

use std::alloc::{AllocError, Global};
use std::io;
use zac_arch::{Card, Figures, TrapId, Zone, ZoneKind};
use zac_gates::List;
use zac_group::{Memory, Shift, groups};

/// How many storage traps the card has, and how many traps its 1,024 sites have.
const TRAPS: u32 = 2048;

/// 32 rows of 64 storage traps.
const STORAGE: Zone = Zone {
    kind: ZoneKind::Storage,
    x: 0,
    y: 0,
    dx: 30,
    dy: 30,
    pair: 0,
    columns: 64,
    rows: 32,
};

/// 32 rows of 32 sites.
const ENTANGLING: Zone = Zone {
    kind: ZoneKind::Entangling,
    x: 0,
    y: 1100,
    dx: 120,
    dy: 100,
    pair: 20,
    columns: 32,
    rows: 32,
};

/// The zones of the card.
fn zones(alloc: Global) -> Result<Vec<Zone>, AllocError>
    ensures { IfOk result (λ zones. zones.items ≡ storage ∷ entangling ∷ []) }
{
    Vec::from_slice(alloc, &[STORAGE, ENTANGLING])
}

/// The figures of the card: an AOD has 64 rows and 64 columns.
const FIGURES: Figures = Figures {
    gap: 10,
    park: 10,
    reach: 5,
    radius: 60,
    accel: 2750,
    activate: 15_000,
    deactivate: 15_000,
    one: 52_000,
    pulse: 360,
    readout: 1_000_000,
    aods: 2,
    rows: 64,
    columns: 64,
};

/// The place to which the move at a place goes: the same one, or the one as far from the end.
fn place_of(turned: bool, count: u32, k: u32) -> u32
    requires { k < count }
    ensures place { result ≡ place turned count k }
    ensures within { result < count }
{
    if turned { count - 1 - k } else { k }
}

/// The atoms of the first storage traps, each to a trap of a site: in the same order, which takes the fewest groups, or
/// in the other order, where no two moves are compatible.
fn drawn_up(alloc: Global, turned: bool, count: u32) -> Result<Vec<Shift>, AllocError>
    requires { count ≤ 2048 }
    ensures { IfOk result (λ shifts. AreMoves turned count count shifts.items) }
{
    let mut shifts = Vec::new(alloc);
    for k in 0..count {
        shifts.push(Shift {
            q: k,
            from: TrapId(k),
            to: TrapId(TRAPS + place_of(turned, count, k)),
        })?;
    }
    Ok(shifts)
}

/// How many groups the moves have, and how many moves the last of them.
fn count_groups(
    alloc: Global,
    card: &Card,
    turned: bool,
    count: u32,
) -> Result<(usize, usize), Memory>
    requires few { count ≤ 2048 }
    requires storage { storage_count card.now ≡ 2048 }
    requires traps { trap_count card.now ≡ 4096 }
{
    let moved = drawn_up(alloc, turned, count)?;
    let shifts = List::of(moved);
    let groups = groups(alloc, card, shifts)?;
    let last = match groups.as_slice().last() {
        Some(group) => group.shifts().len(),
        None => 0,
    };
    Ok((groups.as_slice().len(), last))
}

/// Says how many groups the moves have, and how many moves the last of them.
fn report(rt: &(impl Print + AllocGlobal), card: &Card, turned: bool, count: u32) -> io::Result<()>
    requires { count ≤ 2048 }
{
    if card.storage_traps() != TRAPS {
        return println!(rt; "another card");
    }
    if card.traps() != 2 * TRAPS {
        return println!(rt; "another card");
    }
    let order = if turned { "turned" } else { "same" };
    match count_groups(rt.alloc(), card, turned, count) {
        Ok((all, last)) => {
            println!(rt; "{count} moves, {order} order: {all} groups, the last of {last}")
        }
        Err(Memory) => println!(rt; "{count} moves: out of memory"),
    }
}

/// How many moves a line asks for, up to 2,048.
fn count_in(digits: &str) -> Option<u32>
    ensures { IfSome result (λ count. count ≤ 2048) }
{
    match digits.parse::<u32>() {
        Ok(count) if count <= TRAPS => Some(count),
        _ => None,
    }
}

/// Groups the moves that a line asks for.
fn answer(rt: &(impl Print + AllocGlobal), card: &Card, line: &str) -> io::Result<()> {
    if let Some(digits) = line.strip_suffix(" turned") {
        return match count_in(digits) {
            Some(count) => report(rt, card, true, count),
            None => println!(rt; "no number of moves"),
        };
    }
    match count_in(line) {
        Some(count) => report(rt, card, false, count),
        None => println!(rt; "no number of moves"),
    }
}

fn main(rt: HostRuntime) -> io::Result<()> {
    let Ok(card) = Card::new(FIGURES, zones(rt.alloc())?) else {
        return println!(rt; "no card");
    };
    for line in rt.lines(rt.alloc()) {
        let line = line?;
        answer(&rt, &card, line.as_str())?;
    }
    Ok(())
}
