//! Steps of a job at the front of bytes that are in the layout of written texts.

ghost use Rattle.std.specs.Prelude.{◌≡◌, ◌∷◌, map, IfOk};
ghost use Rattle.std.specs.List.{AllByRecursion};
ghost use Rattle.zair_text.specs.Values.{array_of, step_value};
ghost use Rattle.zair_read.specs.Compact.{BeginsWithAll, BeginsWithStep, BeginsWithAtoms, BeginsWithBeams, IsOwnStep};

use crate::compact::{after, behind_item, literal};
use crate::fault::TextFault;
use crate::part::{Part, parts};
use std::alloc::Global;
use zac_gates::List;
use zair_form::Step;

// The atoms of a step.
fn atoms<T: Part>(alloc: Global, bytes: &[u8]) -> Result<(List<T>, &[u8]), TextFault>
    ensures { IfOk result (λ r. BeginsWithAtoms (array_of (map T.value_of r.0)) bytes.now r.1.now × AllByRecursion T.in_range r.0) }
{
    let rest = literal(bytes, "\"atoms\":")?;
    let (atoms, rest) = parts(alloc, rest)?;
    let rest = literal(rest, ",")?;
    Ok((atoms, rest))
}

// The columns and the rows of a step.
fn beams<T: Part>(alloc: Global, bytes: &[u8]) -> Result<(List<T>, List<T>, &[u8]), TextFault>
    ensures { IfOk result (λ r. BeginsWithBeams (array_of (map T.value_of r.0)) (array_of (map T.value_of r.1)) bytes.now r.2.now
        × AllByRecursion T.in_range r.0 × AllByRecursion T.in_range r.1) }
{
    let rest = literal(bytes, "\"columns\":")?;
    let (columns, rest) = parts(alloc, rest)?;
    let rest = literal(rest, ",\"rows\":")?;
    let (rows, rest) = parts(alloc, rest)?;
    let rest = literal(rest, ",\"step\":\"")?;
    Ok((columns, rows, rest))
}

// An activate, from what stands behind its brace.
fn activate(alloc: Global, aod: u8, bytes: &[u8]) -> Result<(Step, &[u8]), TextFault>
    ensures { IfOk result (λ r. BeginsWithStep aod r.0 (123 ∷ bytes.now) r.1.now) }
{
    let (atoms, rest) = atoms(alloc, bytes)?;
    let (columns, rows, rest) = beams(alloc, rest)?;
    let rest = literal(rest, "activate\"}")?;
    let step = Step::Activate {
        aod,
        rows,
        columns,
        atoms,
    };
    Ok((step, rest))
}

// A deactivate, from what stands behind its brace.
fn deactivate(alloc: Global, aod: u8, bytes: &[u8]) -> Result<(Step, &[u8]), TextFault>
    ensures { IfOk result (λ r. BeginsWithStep aod r.0 (123 ∷ bytes.now) r.1.now) }
{
    let (atoms, rest) = atoms(alloc, bytes)?;
    let (columns, rows, rest) = beams(alloc, rest)?;
    let rest = literal(rest, "deactivate\"}")?;
    let step = Step::Deactivate {
        aod,
        rows,
        columns,
        atoms,
    };
    Ok((step, rest))
}

// A move, from what stands behind its brace.
fn move_beams(alloc: Global, aod: u8, bytes: &[u8]) -> Result<(Step, &[u8]), TextFault>
    ensures { IfOk result (λ r. BeginsWithStep aod r.0 (123 ∷ bytes.now) r.1.now) }
{
    let (columns, rows, rest) = beams(alloc, bytes)?;
    let rest = literal(rest, "move\"}")?;
    Ok((Step::Move { aod, rows, columns }, rest))
}

// A step, from what stands behind its brace. A deactivate is no activate by its first atom or beam already.
fn step_inside(alloc: Global, aod: u8, bytes: &[u8]) -> Result<(Step, &[u8]), TextFault>
    ensures { IfOk result (λ r. BeginsWithStep aod r.0 (123 ∷ bytes.now) r.1.now) }
{
    if matches!(bytes, [_, b'c', ..]) {
        return move_beams(alloc, aod, bytes);
    }
    match activate(alloc, aod, bytes) {
        Ok(step) => Ok(step),
        Err(TextFault::Refused) => deactivate(alloc, aod, bytes),
        Err(TextFault::Memory) => Err(TextFault::Memory),
    }
}

// A step of a job of this AOD.
fn step(alloc: Global, aod: u8, bytes: &[u8]) -> Result<(Step, &[u8]), TextFault>
    ensures { IfOk result (λ r. BeginsWithStep aod r.0 bytes.now r.1.now) }
{
    let rest = literal(bytes, "{")?;
    let (step, rest) = step_inside(alloc, aod, rest)?;
    Ok((step, rest))
}

/// The steps of a job of this AOD, and what stands behind them.
pub(crate) fn steps(alloc: Global, aod: u8, bytes: &[u8]) -> Result<(List<Step>, &[u8]), TextFault>
    ensures { IfOk result (λ r. BeginsWithAll step_value (IsOwnStep aod) r.0 bytes.now r.1.now) }
{
    let mut items = Vec::new(alloc);
    if let Some(rest) = after(bytes, "[]") {
        return Ok((List::of(items), rest));
    }
    let mut rest = literal(bytes, "[")?;
    'items: loop {
        let (item, later) = step(alloc, aod, rest)?;
        items.push(item)?;
        let (is_more, behind) = behind_item(later)?;
        if !is_more {
            items.shrink_to_fit();
            return Ok((List::of(items), behind));
        }
        rest = behind;
    }
}
