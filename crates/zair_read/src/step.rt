//! The values of a job's steps.

ghost use Rattle.std.specs.Prelude.{◌≡◌, option_map};
ghost use Rattle.serde_json.specs.View.{view, members_view};
ghost use Rattle.zair_read.specs.Told.{Tells, beams_fields, atoms_parts, move_parts, told_activate, told_move, told_deactivate, told_step, told_list};

use crate::fault::TextFault;
use crate::fields::Fields;
use crate::item::list_in;
use crate::number::values_in;
use serde_json::Value;
use std::alloc::Global;
use zac_gates::List;
use zair_form::Step;

// The values of the columns and of the rows.
fn beams_fields<'a>(fields: &mut Fields<'a>) -> Option<(&'a Value, &'a Value)>
    ensures { option_map (λ p. (view p.0.now, view p.1.now, members_view fields.new.left)) result ≡ beams_fields (members_view fields.old.left) }
{
    let columns = fields.take("columns")?;
    let rows = fields.take("rows")?;
    Some((columns, rows))
}

// The values of the atoms, columns and rows of a step of this name.
fn atoms_parts<'a>(word: &str, value: &'a Value) -> Option<(&'a Value, &'a Value, &'a Value)>
    ensures { option_map (λ p. (view p.0.now, view p.1.now, view p.2.now)) result ≡ atoms_parts word.now (view value.now) }
{
    let mut fields = Fields::of(value)?;
    let atoms = fields.take("atoms")?;
    let (columns, rows) = beams_fields(&mut fields)?;
    if fields.ends_with("step", word) {
        Some((atoms, columns, rows))
    } else {
        None
    }
}

// The values of the columns and rows of a move.
fn move_parts(value: &Value) -> Option<(&Value, &Value)>
    ensures { option_map (λ p. (view p.0.now, view p.1.now)) result ≡ move_parts (view value.now) }
{
    let mut fields = Fields::of(value)?;
    let (columns, rows) = beams_fields(&mut fields)?;
    if fields.ends_with("step", "move") {
        Some((columns, rows))
    } else {
        None
    }
}

// Reads an activate of this AOD.
fn activate_in(
    alloc: Global,
    aod: u8,
    atoms: &Value,
    columns: &Value,
    rows: &Value,
) -> Result<Step, TextFault>
    ensures { Tells result (told_activate aod (view atoms.now, view columns.now, view rows.now)) }
{
    let atoms = list_in(alloc, atoms)?;
    let columns = list_in(alloc, columns)?;
    let rows = list_in(alloc, rows)?;
    Ok(Step::Activate {
        aod,
        rows,
        columns,
        atoms,
    })
}

// Reads a move of this AOD.
fn move_in(alloc: Global, aod: u8, columns: &Value, rows: &Value) -> Result<Step, TextFault>
    ensures { Tells result (told_move aod (view columns.now, view rows.now)) }
{
    let columns = list_in(alloc, columns)?;
    let rows = list_in(alloc, rows)?;
    Ok(Step::Move { aod, rows, columns })
}

// Reads a deactivate of this AOD.
fn deactivate_in(
    alloc: Global,
    aod: u8,
    atoms: &Value,
    columns: &Value,
    rows: &Value,
) -> Result<Step, TextFault>
    ensures { Tells result (told_deactivate aod (view atoms.now, view columns.now, view rows.now)) }
{
    let atoms = list_in(alloc, atoms)?;
    let columns = list_in(alloc, columns)?;
    let rows = list_in(alloc, rows)?;
    Ok(Step::Deactivate {
        aod,
        rows,
        columns,
        atoms,
    })
}

// Reads a step of a job of this AOD.
fn step_in(alloc: Global, aod: u8, value: &Value) -> Result<Step, TextFault>
    ensures { Tells result (told_step aod (view value.now)) }
{
    if let Some((atoms, columns, rows)) = atoms_parts("activate", value) {
        return activate_in(alloc, aod, atoms, columns, rows);
    }
    if let Some((columns, rows)) = move_parts(value) {
        return move_in(alloc, aod, columns, rows);
    }
    match atoms_parts("deactivate", value) {
        Some((atoms, columns, rows)) => deactivate_in(alloc, aod, atoms, columns, rows),
        None => Err(TextFault::Refused),
    }
}

/// Reads the steps of a job of this AOD.
pub(crate) fn steps_in(alloc: Global, aod: u8, value: &Value) -> Result<List<Step>, TextFault>
    ensures { Tells result (told_list (told_step aod) (view value.now)) }
{
    let Some(values) = values_in(value) else {
        return Err(TextFault::Refused);
    };
    let mut steps = Vec::with_capacity(alloc, values.len())?;
    for value in values {
        steps.push(step_in(alloc, aod, value)?)?;
    }
    Ok(List::of(steps))
}
