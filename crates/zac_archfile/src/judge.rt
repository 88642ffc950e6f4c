//! What is wrong with the form of a card's object.

ghost use Rattle.std.specs.Prelude.{◌≡◌, not, map, string_bytes};
ghost use Rattle.std.specs.List.{list_any};
ghost use Rattle.std.specs.Map.{keys_of};
ghost use Rattle.serde_json.specs.View.{view};
ghost use Rattle.zac_archfile.specs.Entries.{is_key_of, has_other_key, has_unknown_key, card_entries, is_object, zones_at};
ghost use Rattle.zac_archfile.specs.Faults.{is_absent, is_fitting, is_in_range, first_field, form_fault};

use crate::fault::CardFault;
use crate::field::{ENTANGLING_FIELDS, Field, STORAGE_FIELDS, TOP_FIELDS};
use crate::found::{Entry, Found, list_items};
use serde_json::{Map, Value};

// Whether one of the fields has the key.
fn is_key(fields: &[Field], key: &str) -> bool
    ensures { result ≡ is_key_of fields.now key.now }
{
    fields.iter().any(|field| key == field.key())
}

// Whether some member's key is that of none of the fields.
fn has_other_member(members: &Map<String, Value>, fields: &[Field]) -> bool
    ensures { result ≡ list_any (λ k. not (is_key_of fields.now (string_bytes k))) (keys_of members.now.entries) }
{
    members.keys().any(|key| !is_key(fields, key.as_str()))
}

// Whether an object has a key that is that of none of the fields.
fn has_other(value: &Value, fields: &[Field]) -> bool
    ensures { result ≡ has_other_key fields.now (view value.now) }
{
    match value {
        Value::Object(members) => has_other_member(members, fields),
        _ => false,
    }
}

// Whether some value is an object with a key that is that of none of the fields.
fn any_has_other(values: &[Value], fields: &[Field]) -> bool
    ensures { result ≡ list_any (λ v. has_other_key fields.now (view v)) values.now }
{
    values.iter().any(|value| has_other(value, fields))
}

// Whether an object of the list has a key that is that of none of the fields.
fn has_other_in_zones(value: &Value, list: Field, fields: &[Field]) -> bool
    ensures { result ≡ list_any (has_other_key fields.now) (zones_at (view value.now) list) }
{
    any_has_other(list_items(value, list), fields)
}

// Whether a card's object, or one of its zones, has a key that no field has.
fn has_unknown(value: &Value) -> bool
    ensures { result ≡ has_unknown_key (view value.now) }
{
    has_other(value, &TOP_FIELDS)
        || has_other_in_zones(value, Field::Storage, &STORAGE_FIELDS)
        || has_other_in_zones(value, Field::Entangling, &ENTANGLING_FIELDS)
}

fn is_missing(entry: Entry) -> bool
    ensures { result ≡ is_absent entry.found }
{
    matches!(entry.found, Found::Absent)
}

// Whether at a list of zones stands an array of objects, or at another field a whole number.
fn is_filled(entry: Entry) -> bool
    ensures { result ≡ is_fitting entry }
{
    match entry.found {
        Found::Whole(_) => !entry.field.is_list(),
        Found::Objects => entry.field.is_list(),
        Found::Absent | Found::Other => false,
    }
}

fn lies_in_range(entry: Entry) -> bool
    ensures { result ≡ is_in_range entry }
{
    match entry.found {
        Found::Whole(n) => entry.field.admits(n),
        Found::Absent | Found::Objects | Found::Other => true,
    }
}

fn missing_in(entries: &[Entry]) -> Option<Field>
    ensures { result ≡ first_field (λ e. is_absent e.found) entries.now }
{
    let entry = entries.iter().find(|entry| is_missing(**entry))?;
    Some(entry.field)
}

fn not_whole_in(entries: &[Entry]) -> Option<Field>
    ensures { result ≡ first_field (λ e. not (is_fitting e)) entries.now }
{
    let entry = entries.iter().find(|entry| !is_filled(**entry))?;
    Some(entry.field)
}

fn out_of_range_in(entries: &[Entry]) -> Option<Field>
    ensures { result ≡ first_field (λ e. not (is_in_range e)) entries.now }
{
    let entry = entries.iter().find(|entry| !lies_in_range(**entry))?;
    Some(entry.field)
}

// What is wrong with the form of a card's object, whose entries these are, if anything is.
pub(crate) fn fault_of_form(value: &Value, entries: &[Entry]) -> Option<CardFault>
    requires { entries.now ≡ card_entries (view value.now) }
    ensures { result ≡ form_fault (view value.now) }
{
    if let Some(field) = missing_in(entries) {
        return Some(CardFault::Missing(field));
    }
    if has_unknown(value) {
        return Some(CardFault::Unknown);
    }
    if let Some(field) = not_whole_in(entries) {
        return Some(CardFault::NotWhole(field));
    }
    let field = out_of_range_in(entries)?;
    Some(CardFault::Range(field))
}
