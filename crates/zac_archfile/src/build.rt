//! The architecture that a card's object tells.

ghost use Rattle.std.specs.Prelude.{◌≡◌, ◌++◌, ◌<◌, ◌^◌, map, filter, IfOk};
ghost use Rattle.std.specs.List.{AllByRecursion};
ghost use Rattle.serde_json.specs.View.{view};
ghost use Rattle.zac_archfile.specs.Entries.{is_object, zones_at};
ghost use Rattle.zac_archfile.specs.Fields.{figure_fields, storage_fields, entangling_fields};
ghost use Rattle.zac_archfile.specs.Values.{number_at, HasSmallNumbers, figures_of, storage_zone, entangling_zone, zones_of};

use crate::field::Field;
use crate::found::{Found, found_in_object, list_items};
use serde_json::Value;
use std::alloc::{AllocError, Global};
use zac_arch::{Figures, Zone, ZoneKind};

// The whole number that stands at a field, or 0 where none does.
fn number(value: &Value, field: Field) -> u32
    requires { number_at (view value.now) field < 2 ^ 32 }
    ensures { result ≡ number_at (view value.now) field }
{
    match found_in_object(value, field) {
        Found::Whole(n) => n as u32,
        Found::Absent | Found::Objects | Found::Other => 0,
    }
}

// The figures of a card's object.
pub(crate) fn figures_in(value: &Value) -> Figures
    requires { HasSmallNumbers figure_fields (view value.now) }
    ensures { result ≡ figures_of (view value.now) }
{
    Figures {
        gap: number(value, Field::Gap),
        park: number(value, Field::Park),
        reach: number(value, Field::Reach),
        radius: number(value, Field::Radius),
        accel: number(value, Field::Accel),
        activate: number(value, Field::Activate),
        deactivate: number(value, Field::Deactivate),
        one: number(value, Field::One),
        pulse: number(value, Field::Pulse),
        readout: number(value, Field::Readout),
        aods: number(value, Field::Aods) as u8,
        rows: number(value, Field::Rows) as u8,
        columns: number(value, Field::Columns) as u8,
    }
}

// The storage zone of an object.
fn storage_zone_in(value: &Value) -> Zone
    requires { HasSmallNumbers storage_fields (view value.now) }
    ensures { result ≡ storage_zone (view value.now) }
{
    Zone {
        kind: ZoneKind::Storage,
        x: number(value, Field::StorageX),
        y: number(value, Field::StorageY),
        dx: number(value, Field::StorageDx),
        dy: number(value, Field::StorageDy),
        pair: 0,
        columns: number(value, Field::StorageColumns),
        rows: number(value, Field::StorageRows),
    }
}

// The entangling zone of an object.
fn entangling_zone_in(value: &Value) -> Zone
    requires { HasSmallNumbers entangling_fields (view value.now) }
    ensures { result ≡ entangling_zone (view value.now) }
{
    Zone {
        kind: ZoneKind::Entangling,
        x: number(value, Field::EntanglingX),
        y: number(value, Field::EntanglingY),
        dx: number(value, Field::EntanglingDx),
        dy: number(value, Field::EntanglingDy),
        pair: number(value, Field::EntanglingPair),
        columns: number(value, Field::EntanglingColumns),
        rows: number(value, Field::EntanglingRows),
    }
}

// Adds the storage zones of the values that are objects.
fn add_storage(zones: &mut Vec<Zone>, values: &[Value]) -> Result<(), AllocError>
    requires { AllByRecursion (HasSmallNumbers storage_fields) (filter is_object (map view values.now)) }
    ensures { IfOk result (λ _. zones.new.items ≡ zones.old.items ++ map storage_zone (filter is_object (map view values.now))) }
{
    for value in values {
        if value.is_object() {
            zones.push(storage_zone_in(value))?;
        }
    }
    Ok(())
}

// Adds the entangling zones of the values that are objects.
fn add_entangling(zones: &mut Vec<Zone>, values: &[Value]) -> Result<(), AllocError>
    requires { AllByRecursion (HasSmallNumbers entangling_fields) (filter is_object (map view values.now)) }
    ensures { IfOk result (λ _. zones.new.items ≡ zones.old.items ++ map entangling_zone (filter is_object (map view values.now))) }
{
    for value in values {
        if value.is_object() {
            zones.push(entangling_zone_in(value))?;
        }
    }
    Ok(())
}

// The zones of a card's object, those of storage first.
pub(crate) fn zones_in(alloc: Global, value: &Value) -> Result<Vec<Zone>, AllocError>
    requires storage { AllByRecursion (HasSmallNumbers storage_fields) (zones_at (view value.now) Field.Storage) }
    requires entangling { AllByRecursion (HasSmallNumbers entangling_fields) (zones_at (view value.now) Field.Entangling) }
    ensures { IfOk result (λ zones. zones.items ≡ zones_of (view value.now)) }
{
    let mut zones = Vec::new(alloc);
    add_storage(&mut zones, list_items(value, Field::Storage))?;
    add_entangling(&mut zones, list_items(value, Field::Entangling))?;
    Ok(zones)
}
