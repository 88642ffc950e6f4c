//! From a card to its text.

ghost use Rattle.std.specs.Prelude.{◌≡◌, IfOk};
ghost use Rattle.zac_archfile.specs.Texts.{card_text, IsCardText};

use crate::Memory;
use crate::value::card_json;
use std::alloc::Global;
use zac_arch::Card;
use zac_gates::{Bytes, List};

/// The text of a card: its JSON object on one line, written compactly with the keys in byte order, and no line end.
///
/// It reads back as the card's value.
pub fn write_card(alloc: Global, card: &Card) -> Result<Bytes, Memory>
    ensures text { IfOk result (λ bytes. bytes ≡ card_text card.now) }
    ensures reads_back { IfOk result (λ bytes. IsCardText bytes card.now) }
{
    let value = card_json(alloc, card)?;
    let bytes = value.to_vec(alloc)?;
    Ok(List::of(bytes))
}
