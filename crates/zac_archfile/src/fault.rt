//! Why a text is no card.

ghost use Rattle.std.specs.Prelude.{◌≡◌};

use crate::Memory;
use crate::field::Field;
use std::alloc::AllocError;

/// Why a text is no card: the first of these that holds of it, or a want of memory.
#[derive(Clone, Copy, Debug, PartialEq, Eq)]
pub enum CardFault {
    /// The bytes are no JSON object as `serde_json` reads them: no UTF-8, no JSON, nested past 127 levels, with a number
    /// too large for a float, or another value than an object.
    NotJson,
    /// The field is absent. It is the first absent one in the order of `Field`, where a zone's fields come zone by zone
    /// after their list, of those list members that are objects.
    Missing(Field),
    /// The object, or an object in a list of zones, has a key that no field has.
    Unknown,
    /// The field's value is not a whole number from 0 below 2^64, or that of a list of zones is not an array of objects.
    /// It is the first such one.
    NotWhole(Field),
    /// The number is not in the field's range. It is the first such one.
    Range(Field),
    /// The architecture breaks this rule, and none of a smaller number: 1, the numbers of zones, storage traps and sites;
    /// 2, the parking of beams; 3, the room between neighbouring traps; 4, the blockade; 5, the distance of zones; 6, the
    /// extent of the field.
    Invalid(u8),
    /// There was no memory.
    Memory,
}

impl From<AllocError> for CardFault {
    ghost use Rattle.zac_archfile.specs.declared.fault.CardFault.TheVariants.{Memory};

    ghost from_gives = { λ _ e. e ≡ Memory };

    fn from(_error: AllocError) -> CardFault {
        CardFault::Memory
    }
}
