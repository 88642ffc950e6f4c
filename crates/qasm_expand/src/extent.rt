//! Registers by their names, with the numbers of their places.

ghost use Rattle.std.specs.Prelude.{◌≡◌, ℕ, ◌≤◌, List, IfOk, OnOk, if◌then◌else◌, None, Some};
ghost use Rattle.std.specs.Option.{option_or};
ghost use Rattle.std.specs.Str.{bytes_eq};
ghost use Rattle.qasm_expand.specs.Numbering.{extent_in, extent_of};
ghost use Rattle.qasm_expand.specs.RegisterKinds.{place_count};

use crate::kind::RegisterKind;
use qasm_form::Stmt;
use std::alloc::Global;
use std::collections::HashMap;
use zac_gates::Memory;

/// The places of a register: the number of the first, and how many they are.
#[derive(Clone, Copy)]
pub(crate) struct Extent {
    /// The number of the first.
    pub start: u32,
    /// How many they are.
    pub size: u32,
}

/// Adds a register, unless one of this name is there.
fn note<'a>(
    extents: &mut HashMap<&'a [u8], Extent>,
    name: &'a [u8],
    extent: Extent,
) -> Result<(), Memory>
    ensures { OnOk result ((q : List ℕ) → extent_in extents.new q ≡ option_or (extent_in extents.old q) (if bytes_eq q name.now then Some extent else None)) }
{
    if !extents.contains_key(name) {
        extents.insert(name, extent)?;
    }
    Ok(())
}

/// The places of all registers of the kind. They are numbered over the registers in their order.
pub(crate) fn extents_of<'a>(
    alloc: Global,
    kind: RegisterKind,
    statements: &'a [Stmt],
) -> Result<HashMap<&'a [u8], Extent>, Memory>
    requires { place_count kind statements.now ≤ 65536 }
    ensures { IfOk result (λ m. (name : List ℕ) → extent_in m name ≡ extent_of kind statements.now name) }
{
    let mut extents = HashMap::new(alloc);
    let mut start = 0u32;
    for stmt in statements {
        if let Some((name, size)) = kind.register_in(stmt) {
            let size = size as u32;
            note(&mut extents, name, Extent { start, size })?;
            start += size;
        }
    }
    Ok(extents)
}
