//! What stands in a JSON value at the fields of a card.

ghost use Rattle.std.specs.Prelude.{◌≡◌, ◌++◌, map, filter, Some, IfOk};
ghost use Rattle.std.specs.List.{flat_map, list_all};
ghost use Rattle.serde_json.specs.View.{view};
ghost use Rattle.zac_archfile.specs.Entries.{is_object, found_value, found_at, entry_at, objects_in, zones_at, zone_entries, card_entries};
ghost use Rattle.zac_archfile.specs.Fields.{figure_fields, storage_fields, entangling_fields};

use crate::field::{ENTANGLING_FIELDS, FIGURE_FIELDS, Field, STORAGE_FIELDS};
use serde_json::Value;
use std::alloc::{AllocError, Global};

/// What stands at a field.
#[derive(Clone, Copy, Debug)]
pub enum Found {
    /// Nothing: the object has no such key.
    Absent,
    /// A whole number from 0 below 2^64, written without a sign, a point and an exponent.
    Whole(u64),
    /// An array whose items are all objects.
    Objects,
    /// Something else.
    Other,
}

/// A field that a card has, and what stands there.
#[derive(Clone, Copy, Debug)]
pub struct Entry {
    /// The field.
    pub field: Field,
    /// What stands there.
    pub found: Found,
}

// Whether each of the values is an object.
fn are_objects(values: &[Value]) -> bool
    ensures { result ≡ list_all (λ v. is_object (view v)) values.now }
{
    values.iter().all(|value| value.is_object())
}

// What a value is.
fn found_value_of(value: &Value) -> Found
    ensures { result ≡ found_value (view value.now) }
{
    match value {
        Value::Number(number) => match number.as_u64() {
            Some(n) => Found::Whole(n),
            None => Found::Other,
        },
        Value::Array(items) => {
            if are_objects(items.as_slice()) {
                Found::Objects
            } else {
                Found::Other
            }
        }
        Value::Null | Value::Bool(_) | Value::String(_) | Value::Object(_) => Found::Other,
    }
}

// What stands at a field of an object.
pub(crate) fn found_in_object(value: &Value, field: Field) -> Found
    ensures { result ≡ found_at (view value.now) field }
{
    match value.get(field.key()) {
        Some(inner) => found_value_of(inner),
        None => Found::Absent,
    }
}

// The items of an array; of another value, none.
fn array_items(value: &Value) -> &[Value]
    ensures { filter is_object (map view result.now) ≡ objects_in (Some (view value.now)) }
{
    match value {
        Value::Array(items) => items.as_slice(),
        _ => &[],
    }
}

// The items of a list of zones; where there is no list, none.
pub(crate) fn list_items(value: &Value, list: Field) -> &[Value]
    ensures { filter is_object (map view result.now) ≡ zones_at (view value.now) list }
{
    match value.get(list.key()) {
        Some(inner) => array_items(inner),
        None => &[],
    }
}

// Adds the entries of these fields of an object.
fn add_entries(entries: &mut Vec<Entry>, value: &Value, fields: &[Field]) -> Result<(), AllocError>
    ensures { IfOk result (λ _. entries.new.items ≡ entries.old.items ++ map (entry_at (view value.now)) fields.now) }
{
    for field in fields {
        let found = found_in_object(value, *field);
        entries.push(Entry {
            field: *field,
            found,
        })?;
    }
    Ok(())
}

// Adds the entries of these fields of each value that is an object.
fn add_objects(
    entries: &mut Vec<Entry>,
    values: &[Value],
    fields: &[Field],
) -> Result<(), AllocError>
    ensures { IfOk result (λ _. entries.new.items ≡ entries.old.items
        ++ flat_map (λ zone. map (entry_at zone) fields.now) (filter is_object (map view values.now))) }
{
    for value in values {
        if value.is_object() {
            add_entries(entries, value, fields)?;
        }
    }
    Ok(())
}

// Adds the entry of a list of zones, and those of its zones.
fn add_zones(
    entries: &mut Vec<Entry>,
    value: &Value,
    list: Field,
    fields: &[Field],
) -> Result<(), AllocError>
    ensures { IfOk result (λ _. entries.new.items ≡ entries.old.items ++ zone_entries (view value.now) list fields.now) }
{
    add_entries(entries, value, &[list])?;
    add_objects(entries, list_items(value, list), fields)
}

// All entries of a card.
pub(crate) fn entries_of(alloc: Global, value: &Value) -> Result<Vec<Entry>, AllocError>
    ensures { IfOk result (λ entries. entries.items ≡ card_entries (view value.now)) }
{
    let mut entries = Vec::new(alloc);
    add_entries(&mut entries, value, &FIGURE_FIELDS)?;
    add_zones(&mut entries, value, Field::Storage, &STORAGE_FIELDS)?;
    add_zones(&mut entries, value, Field::Entangling, &ENTANGLING_FIELDS)?;
    Ok(entries)
}
