//! How long the steps of one instruction take.

ghost use Rattle.std.specs.Prelude.{◌≡◌, ◌≤◌, ◌++◌, ◌∷◌, [], List, min, max, fold, map, length, replicate, None};
ghost use Rattle.zair_form.specs.Times.{Lasts, change, greatest_change};
ghost use Rattle.zair_form.specs.Timing.{AreLast, AreLastOf};
ghost use Rattle.zair_form.specs.declared.step.Beam.{Beam};
ghost use Rattle.zair_form.specs.declared.step.Step.{Step};

use crate::step::{Beam, Step};
use std::marker::Model;
use zac_arch::Card;

/// Tells how long the steps of one instruction take, one after another. It remembers the last position of each row and each
/// column, since a move takes the time of the greatest change from there.
#[derive(Drop)]
pub struct StepTimer {
    rows: [Option<u32>; 256],
    columns: [Option<u32>; 256],
}

impl Model for StepTimer {
    ghost use Rattle.zair_form.specs.Timing.{LastPositions};

    ghost Value = { LastPositions };

    ghost view = { λ t. record { rows = t.rows; columns = t.columns } };
}

/// No position for any id.
fn no_positions() -> [Option<u32>; 256]
    ensures { result ≡ replicate 256 None }
{
    [None; 256]
}

/// How far a beam goes from its last position, at most 1,000,000; 0 where it has none.
fn change(last: &[Option<u32>; 256], beam: Beam) -> u32
    ensures most { result ≤ 1000000 }
    ensures change { (given : List Beam) → AreLast last.now given → result ≡ change given beam }
{
    match last[beam.id as usize] {
        Some(at) => at.abs_diff(beam.at).min(1_000_000),
        None => 0,
    }
}

/// The greater of two numbers.
fn greater(m: u32, n: u32) -> u32
    ensures { result ≡ max m n }
{
    m.max(n)
}

/// The greatest change of these beams, and 0 where there are none.
fn greatest_change(last: &[Option<u32>; 256], beams: &[Beam]) -> u32
    ensures most { result ≤ 1000000 }
    ensures greatest { (given : List Beam) → AreLast last.now given → result ≡ greatest_change given beams.now }
{
    let mut greatest = 0;
    for beam in beams {
        greatest = greater(greatest, change(last, *beam));
    }
    greatest
}

/// Notes the position that a beam has from now on.
fn note_one(last: &mut [Option<u32>; 256], id: u8, at: u32)
    ensures { (given : List Beam) → AreLast last.old given → AreLast last.new (given ++ (record { id = id; at = at }) ∷ []) }
{
    last[id as usize] = Some(at);
}

/// Notes the positions that these beams have from now on.
fn note(last: &mut [Option<u32>; 256], beams: &[Beam])
    ensures { (given : List Beam) → AreLast last.old given → AreLast last.new (given ++ beams.now) }
{
    for beam in beams {
        note_one(last, beam.id, beam.at);
    }
}

impl StepTimer {
    /// A timer before the first step of an instruction.
    pub fn new() -> StepTimer
        ensures { AreLastOf result [] }
    {
        StepTimer {
            rows: no_positions(),
            columns: no_positions(),
        }
    }

    /// How long a step takes after those that the timer was shown, in nanoseconds. An activate, a deactivate, a gate, a pulse or
    /// a readout takes the card's figure of that name; a move takes the move time of its greatest changes of columns and rows.
    pub fn lasts(&mut self, card: &Card, step: &Step) -> u64
        ensures time { (earlier : List Step) → AreLastOf self.old earlier → Lasts card.now.figures earlier step.now result }
        ensures next { (earlier : List Step) → AreLastOf self.old earlier → AreLastOf self.new (earlier ++ step.now ∷ []) }
    {
        let figures = card.figures();
        match step {
            Step::Activate { rows, columns, .. } => {
                note(&mut self.rows, rows.as_slice());
                note(&mut self.columns, columns.as_slice());
                u64::from(figures.activate)
            }
            Step::Move { rows, columns, .. } => {
                let dx = greatest_change(&self.columns, columns.as_slice());
                let dy = greatest_change(&self.rows, rows.as_slice());
                note(&mut self.rows, rows.as_slice());
                note(&mut self.columns, columns.as_slice());
                card.move_time(dx, dy)
            }
            Step::Deactivate { .. } => u64::from(figures.deactivate),
            Step::One { .. } => u64::from(figures.one),
            Step::Pulse { .. } => u64::from(figures.pulse),
            Step::Readout { .. } => u64::from(figures.readout),
        }
    }
}
