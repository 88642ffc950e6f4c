//! The parts of a line.

ghost use Rattle.std.specs.Prelude.{◌≡◌, ◌++◌, OnOk, map};
ghost use Rattle.zair_text.specs.Lines.{joined};
ghost use Rattle.zac_fault.specs.Parts.{part_bytes};

use itoa::Buffer;
use zac_gates::Memory;

/// A part of a line.
#[derive(Clone, Copy, Drop)]
pub enum Part {
    /// A text as it is.
    Text(&'static str),
    /// A number in decimal digits.
    Number(u128),
}

/// Adds a part.
fn add_part(text: &mut Vec<u8>, part: Part) -> Result<(), Memory>
    ensures { OnOk result (text.new.items ≡ text.old.items ++ part_bytes part) }
{
    match part {
        Part::Text(it) => text.extend_from_slice(it.as_bytes())?,
        Part::Number(it) => text.extend_from_slice(Buffer::new().format(it).as_bytes())?,
    }
    Ok(())
}

/// Adds the parts, one behind the other.
pub fn add_parts(text: &mut Vec<u8>, parts: &[Part]) -> Result<(), Memory>
    ensures { OnOk result (text.new.items ≡ text.old.items ++ joined (map part_bytes parts.now)) }
{
    for part in parts.iter() {
        add_part(text, *part)?;
    }
    Ok(())
}
