//! From text to a card.

ghost use Rattle.std.specs.Prelude.{◌≡◌, ◌⊎◌, IfOk, IfErr};
ghost use Rattle.serde_json.specs.Data.{Data};
ghost use Rattle.serde_json.specs.View.{view};
ghost use Rattle.zac_archfile.specs.Faults.{IsFault, IsObjectText};
ghost use Rattle.zac_archfile.specs.Texts.{IsCardText};

use crate::build::{figures_in, zones_in};
use crate::fault::CardFault;
use crate::found::entries_of;
use crate::judge::fault_of_form;
use serde_json::Value;
use std::alloc::Global;
use zac_arch::Card;

// The object that a text is.
fn object_of(alloc: Global, bytes: &[u8]) -> Result<Value, CardFault>
    ensures object { IfOk result (λ v. IsObjectText bytes.now (view v)) }
    ensures fault { IfErr result (λ e. (e ≡ CardFault.Memory)
        ⊎ ((e ≡ CardFault.NotJson) × ((d : Data) → ¬ IsObjectText bytes.now d))) }
{
    match Value::from_slice(alloc, bytes) {
        Ok(value) => {
            if value.is_object() {
                Ok(value)
            } else {
                Err(CardFault::NotJson)
            }
        }
        Err(e) => {
            if e.is_memory() {
                Err(CardFault::Memory)
            } else {
                Err(CardFault::NotJson)
            }
        }
    }
}

/// The card of a text.
///
/// It is answered exactly where the bytes read as the card's JSON value: the keys may come in any order and with blanks, and
/// of a key that comes twice the last value counts. Else the fault is the first of `CardFault` that holds.
pub fn read_card(alloc: Global, bytes: &[u8]) -> Result<Card, CardFault>
    ensures card { IfOk result (IsCardText bytes.now) }
    ensures fault { IfErr result (λ e. (e ≡ CardFault.Memory) ⊎ IsFault bytes.now e) }
{
    let value = object_of(alloc, bytes)?;
    let entries = entries_of(alloc, &value)?;
    if let Some(fault) = fault_of_form(&value, entries.as_slice()) {
        return Err(fault);
    }
    let zones = zones_in(alloc, &value)?;
    match Card::new(figures_in(&value), zones) {
        Ok(card) => Ok(card),
        Err(rule) => Err(CardFault::Invalid(rule)),
    }
}
