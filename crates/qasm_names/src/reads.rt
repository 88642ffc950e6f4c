//! Which places were read.

use indexmap::IndexMap;
use std::alloc::Global;
use std::collections::BTreeSet;
use std::marker::Model;
use zac_gates::Memory;

/// What was read of one register.
#[derive(Drop)]
pub(crate) struct RegisterReads {
    /// Whether it was read whole.
    pub whole: bool,
    /// The places that were read one by one.
    pub places: BTreeSet<u64>,
}

impl RegisterReads {
    ghost use Rattle.std.specs.Prelude.{◌≡◌, ℕ, ◌<◌, ◌↔◌, ◌||◌, IsTrue, false, Some, is_none, OnOk, OnErr};
    ghost use Rattle.std.specs.BTreeSet.{contains};
    ghost use Rattle.std.specs.Ordering.{nat_cmp};
    ghost use Rattle.qasm_names.specs.Reads.{is_at};

    /// Nothing was read.
    fn new(alloc: Global) -> RegisterReads
        ensures whole { result.whole ≡ false }
        ensures places { (k : ℕ) → contains nat_cmp result.places k ≡ false }
    {
        RegisterReads {
            whole: false,
            places: BTreeSet::new(alloc),
        }
    }

    /// Notes a read of the whole register, or of one place. Without memory nothing changes.
    fn note(&mut self, index: Option<u64>) -> Result<(), Memory>
        ensures whole { OnOk result (self.new.whole ≡ (is_none index || self.old.whole)) }
        ensures places { OnOk result ((k : ℕ) → contains nat_cmp self.new.places k ≡ (is_at index k || contains nat_cmp self.old.places k)) }
        ensures whole_stays { OnErr result (self.new.whole ≡ self.old.whole) }
        ensures places_stay { OnErr result ((k : ℕ) → contains nat_cmp self.new.places k ≡ contains nat_cmp self.old.places k) }
    {
        match index {
            None => self.whole = true,
            Some(at) => {
                self.places.insert(at)?;
            }
        }
        Ok(())
    }

    /// Whether a place below a bound was read by itself.
    fn has_place_below(&self, bound: u64) -> bool
        ensures { IsTrue result ↔ ((k : ℕ) × (k < bound) × IsTrue (contains nat_cmp self.now.places k)) }
    {
        match self.places.first() {
            Some(least) => *least < bound,
            None => false,
        }
    }
}

/// The reads of all registers, by their names. Contracts see the list of the names with their reads.
#[derive(Drop)]
pub(crate) struct Reads {
    alloc: Global,
    registers: IndexMap<Vec<u8>, RegisterReads>,
}

impl Model for Reads {
    ghost use Rattle.std.specs.Prelude.{ℕ, List};
    ghost use Rattle.qasm_names.specs.declared.reads.RegisterReads.{RegisterReads};

    ghost Value = { List (List ℕ × RegisterReads) };

    ghost use Rattle.qasm_names.specs.Tables.{named_by_bytes};

    ghost view = { λ r. named_by_bytes r.registers.entries };
}

impl Reads {
    ghost use Rattle.std.specs.Prelude.{◌≡◌, ℕ, ◌<◌, ◌↔◌, IsTrue, OnOk, OnErr};
    ghost use Rattle.std.specs.Map.{lookup};
    ghost use Rattle.std.specs.Option.{option_copied};
    ghost use Rattle.std.specs.Str.{bytes_eq};
    ghost use Rattle.qasm_names.specs.Reads.{no_reads, with_read};
    ghost use Rattle.qasm_names.specs.Registers.{reads_of};

    /// No reads.
    pub(crate) fn new(alloc: Global) -> Reads
        ensures { reads_of result ≡ no_reads }
    {
        Reads {
            alloc,
            registers: IndexMap::new(alloc),
        }
    }

    /// What was read of a register.
    fn register(&self, name: &[u8]) -> Option<&RegisterReads>
        ensures { option_copied result ≡ lookup (bytes_eq name.now) self.now }
    {
        self.registers.get(name)
    }

    /// Whether a register was read whole.
    pub(crate) fn is_whole(&self, name: &[u8]) -> bool
        ensures { result ≡ (reads_of self.now).whole name.now }
    {
        match self.register(name) {
            Some(register) => register.whole,
            None => false,
        }
    }

    /// Whether a place was read by itself.
    pub(crate) fn is_single(&self, name: &[u8], index: u64) -> bool
        ensures { result ≡ (reads_of self.now).single name.now index }
    {
        match self.register(name) {
            Some(register) => register.places.contains(&index),
            None => false,
        }
    }

    /// Whether a place of the register below a bound was read by itself.
    pub(crate) fn has_single_below(&self, name: &[u8], bound: u64) -> bool
        ensures { IsTrue result ↔ ((k : ℕ) × (k < bound) × IsTrue ((reads_of self.now).single name.now k)) }
    {
        match self.register(name) {
            Some(register) => register.has_place_below(bound),
            None => false,
        }
    }

    /// Notes a read of a whole register, or of one place of it. Without memory nothing changes.
    pub(crate) fn note(&mut self, word: &[u8], index: Option<u64>) -> Result<(), Memory>
        ensures ok { OnOk result (reads_of self.new ≡ with_read (reads_of self.old) word.now index) }
        ensures err { OnErr result (reads_of self.new ≡ reads_of self.old) }
    {
        match self.registers.get_mut(word) {
            Some(register) => register.note(index),
            None => {
                let mut register = RegisterReads::new(self.alloc);
                register.note(index)?;
                self.registers.insert(word.to_vec(self.alloc)?, register)?;
                Ok(())
            }
        }
    }
}
