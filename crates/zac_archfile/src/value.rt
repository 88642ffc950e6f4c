//! The JSON value of a card.

ghost use Rattle.std.specs.Prelude.{◌≡◌, map, filter, not, IfOk};
ghost use Rattle.serde_json.specs.Data.{Data, array, object, no_members, put};
ghost use Rattle.serde_json.specs.View.{view, items_of, members_view};
ghost use Rattle.zac_arch.specs.Architecture.{is_storage};
ghost use Rattle.zac_arch.specs.Rules.{KeepsRules};
ghost use Rattle.zac_archfile.specs.Fields.{key_of};
ghost use Rattle.zac_archfile.specs.Writing.{with_numbers, figure_members};
ghost use Rattle.zac_archfile.specs.Values.{storage_value, entangling_value, storage_list, entangling_list, card_value};

use crate::Memory;
use crate::field::Field;
use serde_json::{Map, Value};
use std::alloc::Global;
use zac_arch::{Card, Figures, Zone, ZoneKind};

// Puts a value at the field's key.
fn put_value(
    alloc: Global,
    members: &mut Map<String, Value>,
    field: Field,
    value: Value,
) -> Result<(), Memory>
    ensures { IfOk result (λ _. members_view members.new.entries ≡ put (key_of field) (view value) (members_view members.old.entries)) }
{
    let key = String::from_str(alloc, field.key())?;
    drop(members.insert(key, value)?);
    Ok(())
}

// An object's members: each number at the key of its field.
fn numbers_json(alloc: Global, numbers: &[(Field, u32)]) -> Result<Map<String, Value>, Memory>
    ensures { IfOk result (λ members. members_view members.entries ≡ with_numbers no_members numbers.now) }
{
    let mut members = Map::new(alloc);
    for (field, number) in numbers {
        put_value(alloc, &mut members, *field, Value::from(*number))?;
    }
    Ok(members)
}

// The value of a storage zone.
fn storage_json(alloc: Global, zone: &Zone) -> Result<Value, Memory>
    ensures { IfOk result (λ v. view v ≡ storage_value zone.now) }
{
    let members = numbers_json(
        alloc,
        &[
            (Field::StorageX, zone.x),
            (Field::StorageY, zone.y),
            (Field::StorageDx, zone.dx),
            (Field::StorageDy, zone.dy),
            (Field::StorageColumns, zone.columns),
            (Field::StorageRows, zone.rows),
        ],
    )?;
    Ok(Value::Object(members))
}

// The value of an entangling zone.
fn entangling_json(alloc: Global, zone: &Zone) -> Result<Value, Memory>
    ensures { IfOk result (λ v. view v ≡ entangling_value zone.now) }
{
    let members = numbers_json(
        alloc,
        &[
            (Field::EntanglingX, zone.x),
            (Field::EntanglingY, zone.y),
            (Field::EntanglingDx, zone.dx),
            (Field::EntanglingDy, zone.dy),
            (Field::EntanglingPair, zone.pair),
            (Field::EntanglingColumns, zone.columns),
            (Field::EntanglingRows, zone.rows),
        ],
    )?;
    Ok(Value::Object(members))
}

// The array of the storage zones.
fn storage_list_json(alloc: Global, zones: &[Zone]) -> Result<Value, Memory>
    ensures { IfOk result (λ v. view v ≡ storage_list zones.now) }
{
    let mut values = Vec::new(alloc);
    for zone in zones {
        if matches!(zone.kind, ZoneKind::Storage) {
            values.push(storage_json(alloc, zone)?)?;
        }
    }
    Ok(Value::Array(values))
}

// The array of the entangling zones.
fn entangling_list_json(alloc: Global, zones: &[Zone]) -> Result<Value, Memory>
    ensures { IfOk result (λ v. view v ≡ entangling_list zones.now) }
{
    let mut values = Vec::new(alloc);
    for zone in zones {
        if matches!(zone.kind, ZoneKind::Entangling) {
            values.push(entangling_json(alloc, zone)?)?;
        }
    }
    Ok(Value::Array(values))
}

// The version and the figures.
fn figures_json(alloc: Global, figures: Figures) -> Result<Map<String, Value>, Memory>
    ensures { IfOk result (λ members. members_view members.entries ≡ figure_members figures) }
{
    numbers_json(
        alloc,
        &[
            (Field::Version, 1),
            (Field::Gap, figures.gap),
            (Field::Park, figures.park),
            (Field::Reach, figures.reach),
            (Field::Radius, figures.radius),
            (Field::Accel, figures.accel),
            (Field::Activate, figures.activate),
            (Field::Deactivate, figures.deactivate),
            (Field::One, figures.one),
            (Field::Pulse, figures.pulse),
            (Field::Readout, figures.readout),
            (Field::Aods, u32::from(figures.aods)),
            (Field::Rows, u32::from(figures.rows)),
            (Field::Columns, u32::from(figures.columns)),
        ],
    )
}

// The value of a card.
pub(crate) fn card_json(alloc: Global, card: &Card) -> Result<Value, Memory>
    ensures value { IfOk result (λ v. view v ≡ card_value card.now) }
    ensures rules { IfOk result (λ _. KeepsRules card.now) }
{
    let storage = storage_list_json(alloc, card.zones())?;
    let entangling = entangling_list_json(alloc, card.zones())?;
    let mut members = figures_json(alloc, card.figures())?;
    put_value(alloc, &mut members, Field::Storage, storage)?;
    put_value(alloc, &mut members, Field::Entangling, entangling)?;
    Ok(Value::Object(members))
}
