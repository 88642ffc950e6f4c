//! Names with what they stand for.

use crate::meaning::Meaning;
use indexmap::IndexMap;
use std::alloc::Global;
use std::marker::Model;
use zac_gates::Memory;

/// Names in the order of their declarations, each with what it stands for. Contracts see the list of the pairs.
#[derive(Drop)]
pub(crate) struct NameTable {
    entries: IndexMap<Vec<u8>, Meaning>,
}

impl Model for NameTable {
    ghost use Rattle.qasm_names.specs.Names.{Declarations};

    ghost Value = { Declarations };

    ghost use Rattle.qasm_names.specs.Tables.{named_by_bytes};

    ghost view = { λ t. named_by_bytes t.entries.entries };
}

impl NameTable {
    ghost use Rattle.std.specs.Prelude.{◌≡◌, ◌++◌, [], ◌∷◌, None, is_some, OnOk, OnErr};
    ghost use Rattle.std.specs.Map.{lookup};
    ghost use Rattle.std.specs.Str.{bytes_eq};

    /// No names.
    pub(crate) fn new(alloc: Global) -> NameTable
        ensures { result ≡ [] }
    {
        NameTable {
            entries: IndexMap::new(alloc),
        }
    }

    /// What a name stands for.
    pub(crate) fn get(&self, name: &[u8]) -> Option<Meaning>
        ensures { result ≡ lookup (bytes_eq name.now) self.now }
    {
        self.entries.get(name).copied()
    }

    /// Whether a name is there.
    pub(crate) fn contains(&self, name: &[u8]) -> bool
        ensures { result ≡ is_some (lookup (bytes_eq name.now) self.now) }
    {
        self.get(name).is_some()
    }

    /// Adds a name that isn't there. Without memory nothing changes.
    pub(crate) fn insert(&mut self, name: Vec<u8>, meaning: Meaning) -> Result<(), Memory>
        requires { lookup (bytes_eq name.items) self.old ≡ None }
        ensures ok { OnOk result (self.new ≡ self.old ++ (name.items, meaning) ∷ []) }
        ensures err { OnErr result (self.new ≡ self.old) }
    {
        self.entries.insert(name, meaning)?;
        Ok(())
    }
}
