//! The job.

ghost use Rattle.std.specs.Prelude.{◌≤◌};

use std::alloc::{AllocError, Global};
use zac_arch::TrapId;
use zac_gates::List;
use zair_form::{Beam, Caught, Dropped, PairOf, Step};

/// The distance of neighbouring traps.
pub const PITCH: u32 = 30;

/// How far the beams go, and how far from their traps they stand where they catch nothing.
const BESIDE: u32 = 10;

/// How many rows, and how many columns, there are.
const BEAMS: u8 = 64;

/// The homes of the atoms: 64 traps of each of the first 64 rows of the square, which the job takes, and then others until
/// there are so many homes.
pub fn homes(alloc: Global, side: u32, qubits: u32) -> Result<Vec<TrapId>, AllocError>
    requires least { 64 ≤ side }
    requires most { side ≤ 256 }
{
    let mut homes = Vec::new(alloc);
    for row in 0..BEAMS {
        for column in 0..BEAMS {
            homes.push(TrapId(row as u32 * side + column as u32))?;
        }
    }
    let beams = u32::from(BEAMS);
    for trap in 0..side * side {
        let other = beams <= trap / side || beams <= trap % side;
        if other && homes.len() < qubits as usize {
            homes.push(TrapId(trap))?;
        }
    }
    Ok(homes)
}

/// The atoms as they are caught, each at its crossing.
fn caught(alloc: Global) -> Result<List<Caught>, AllocError> {
    let mut atoms = Vec::new(alloc);
    for row in 0..BEAMS {
        for column in 0..BEAMS {
            let q = row as u32 * BEAMS as u32 + column as u32;
            atoms.push(Caught { q, row, column })?;
        }
    }
    Ok(List::of(atoms))
}

/// The atoms as they are dropped, each into its home.
fn dropped(alloc: Global, side: u32) -> Result<List<Dropped>, AllocError>
    requires { side ≤ 256 }
{
    let mut atoms = Vec::new(alloc);
    for row in 0..BEAMS {
        for column in 0..BEAMS {
            let q = row as u32 * BEAMS as u32 + column as u32;
            let trap = TrapId(row as u32 * side + column as u32);
            atoms.push(Dropped { q, trap })?;
        }
    }
    Ok(List::of(atoms))
}

/// Beams at neighbouring traps, or so far beside them.
fn beams(alloc: Global, beside: u32) -> Result<List<Beam>, AllocError>
    requires { beside ≤ 100 }
{
    let mut beams = Vec::new(alloc);
    for id in 0..BEAMS {
        let at = id as u32 * PITCH + beside;
        beams.push(Beam { id, at })?;
    }
    Ok(List::of(beams))
}

/// The ids of all beams.
fn ids(alloc: Global) -> Result<List<u8>, AllocError> {
    let mut ids = Vec::new(alloc);
    for id in 0..BEAMS {
        ids.push(id)?;
    }
    Ok(List::of(ids))
}

/// All beams are moved so far beside their traps.
fn moved(alloc: Global, beside: u32) -> Result<Step, AllocError>
    requires { beside ≤ 100 }
{
    Ok(Step::Move {
        aod: 0,
        rows: beams(alloc, beside)?,
        columns: beams(alloc, beside)?,
    })
}

/// Beams are switched on so far beside their traps with these atoms, moved to places beside, moved back, and switched off.
fn job(
    alloc: Global,
    beside: u32,
    caught: List<Caught>,
    dropped: List<Dropped>,
) -> Result<Vec<Step>, AllocError>
    requires { beside ≤ 50 }
{
    let mut steps = Vec::new(alloc);
    steps.push(Step::Activate {
        aod: 0,
        rows: beams(alloc, beside)?,
        columns: beams(alloc, beside)?,
        atoms: caught,
    })?;
    steps.push(moved(alloc, beside + BESIDE)?)?;
    steps.push(moved(alloc, beside)?)?;
    steps.push(Step::Deactivate {
        aod: 0,
        rows: ids(alloc)?,
        columns: ids(alloc)?,
        atoms: dropped,
    })?;
    Ok(steps)
}

/// The job with an atom at each crossing.
pub fn job_with_atoms(alloc: Global, side: u32) -> Result<Vec<Step>, AllocError>
    requires { side ≤ 256 }
{
    let caught = caught(alloc)?;
    let dropped = dropped(alloc, side)?;
    job(alloc, 0, caught, dropped)
}

/// The job with beams alone, which keep between the traps.
pub fn job_between_traps(alloc: Global) -> Result<Vec<Step>, AllocError> {
    job(
        alloc,
        BESIDE,
        List::of(Vec::new(alloc)),
        List::of(Vec::new(alloc)),
    )
}

/// Beams of 64 ids, over and over until there are so many.
fn many_beams(alloc: Global, entries: u32) -> Result<List<Beam>, AllocError> {
    let mut beams = Vec::new(alloc);
    for k in 0..entries {
        let id = (k % 64) as u8;
        beams.push(Beam { id, at: 0 })?;
    }
    Ok(List::of(beams))
}

/// The atoms of all crossings, each at its crossing, over and over until there are so many.
fn many_caught(alloc: Global, entries: u32) -> Result<List<Caught>, AllocError> {
    let mut atoms = Vec::new(alloc);
    for k in 0..entries {
        let q = k % 4096;
        let (row, column) = ((q / 64) as u8, (q % 64) as u8);
        atoms.push(Caught { q, row, column })?;
    }
    Ok(List::of(atoms))
}

/// Pairs of neighbouring atoms, over and over until there are so many.
fn many_pairs(alloc: Global, entries: u32) -> Result<List<PairOf>, AllocError> {
    let mut pairs = Vec::new(alloc);
    for k in 0..entries {
        let a = k % 4095;
        pairs.push(PairOf { op: k, a, b: a + 1 })?;
    }
    Ok(List::of(pairs))
}

/// Steps with a list of so many beams, of so many caught atoms and of so many pairs.
pub fn job_of_long_lists(alloc: Global, entries: u32) -> Result<Vec<Step>, AllocError> {
    let mut steps = Vec::new(alloc);
    steps.push(Step::Move {
        aod: 0,
        rows: many_beams(alloc, entries)?,
        columns: beams(alloc, 0)?,
    })?;
    steps.push(Step::Activate {
        aod: 0,
        rows: beams(alloc, 0)?,
        columns: beams(alloc, 0)?,
        atoms: many_caught(alloc, entries)?,
    })?;
    steps.push(Step::Pulse {
        pairs: many_pairs(alloc, entries)?,
    })?;
    Ok(steps)
}
