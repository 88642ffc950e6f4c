//! Whole numbers, and arrays of two and three values.

ghost use Rattle.std.specs.Prelude.{◌≡◌, ◌≤◌, option_map, IfSome};
ghost use Rattle.serde_json.specs.Find.{as_array};
ghost use Rattle.serde_json.specs.View.{view, items_view};
ghost use Rattle.zair_read.specs.Told.{number_up_to, told_id, told_number, told_position, told_two, told_three};

use serde_json::Value;

/// The greatest number of an op, a qubit, a bit or a trap, and the greatest count.
pub(crate) const NUMBER: u64 = 4_294_967_295;

// The whole number that a value is, if it is at most this one.
pub(crate) fn number_up_to(most: u64, value: &Value) -> Option<u64>
    ensures number { result ≡ number_up_to most (view value.now) }
    ensures most { IfSome result (λ n. n ≤ most) }
{
    let n = value.as_u64()?;
    if n <= most { Some(n) } else { None }
}

// The id of a beam, or the number of an AOD.
pub(crate) fn id_in(value: &Value) -> Option<u8>
    ensures { result ≡ told_id (view value.now) }
{
    let id = number_up_to(255, value)?;
    Some(id as u8)
}

// The number of an op, a qubit, a bit or a trap.
pub(crate) fn number_in(value: &Value) -> Option<u32>
    ensures { result ≡ told_number (view value.now) }
{
    let number = number_up_to(NUMBER, value)?;
    Some(number as u32)
}

// A position.
pub(crate) fn position_in(value: &Value) -> Option<u32>
    ensures { result ≡ told_position (view value.now) }
{
    let position = number_up_to(1_000_000, value)?;
    Some(position as u32)
}

// The values of an array.
pub(crate) fn values_in(value: &Value) -> Option<&[Value]>
    ensures { option_map (λ s. items_view s.now) result ≡ as_array (view value.now) }
{
    let values = value.as_array()?;
    Some(values.as_slice())
}

// The two values of an array.
pub(crate) fn two_in(value: &Value) -> Option<(&Value, &Value)>
    ensures { option_map (λ p. (view p.0.now, view p.1.now)) result ≡ told_two (view value.now) }
{
    let values = values_in(value)?;
    if values.len() == 2 {
        Some((&values[0], &values[1]))
    } else {
        None
    }
}

// The three values of an array.
pub(crate) fn three_in(value: &Value) -> Option<(&Value, &Value, &Value)>
    ensures { option_map (λ p. (view p.0.now, view p.1.now, view p.2.now)) result ≡ told_three (view value.now) }
{
    let values = values_in(value)?;
    if values.len() == 3 {
        Some((&values[0], &values[1], &values[2]))
    } else {
        None
    }
}
