//! The numbers of the places of registers.

ghost use Rattle.std.specs.Prelude.{◌≡◌, ℕ, ◌≤◌, List};
ghost use Rattle.qasm_expand.specs.Numbering.{extent_in, extent_of};
ghost use Rattle.qasm_expand.specs.RegisterKinds.{place_count};

use crate::extent::{Extent, extents_of};
use crate::kind::RegisterKind;
use qasm_form::{Arg, Stmt};
use smallvec::SmallVec;
use std::alloc::Global;
use std::collections::HashMap;
use zac_gates::Memory;

/// The numbers of all places in the registers of one kind, which the statements declare.
#[derive(Drop)]
pub(crate) struct Numbering<'a> {
    /// The kind.
    pub kind: RegisterKind,
    /// The statements.
    pub statements: &'a [Stmt],
    /// The registers' places, by their names.
    extents: HashMap<&'a [u8], Extent>,
    ghost few: { place_count kind statements.now ≤ 65536 },
    ghost numbered: { (name : List ℕ) → extent_in extents name ≡ extent_of kind statements.now name },
}

impl<'a> Numbering<'a> {
    ghost use Rattle.std.specs.Prelude.{◌<◌, IfOk, map};
    ghost use Rattle.std.specs.List.{AllByRecursion};
    ghost use Rattle.std.specs.Map.{lookup};
    ghost use Rattle.std.specs.Str.{bytes_eq};
    ghost use Rattle.qasm_names.specs.Applications.{applied};
    ghost use Rattle.qasm_expand.specs.RegisterKinds.{registers_of, place_number, IsPlaceIn};

    /// The places of this kind that the statements declare.
    pub(crate) fn new(
        alloc: Global,
        kind: RegisterKind,
        statements: &'a [Stmt],
    ) -> Result<Numbering<'a>, Memory>
        requires { place_count kind statements.now ≤ 65536 }
        ensures kind { IfOk result (λ n. n.kind ≡ kind) }
        ensures statements { IfOk result (λ n. n.statements.now ≡ statements.now) }
    {
        let extents = extents_of(alloc, kind, statements)?;
        Ok(Numbering {
            kind,
            statements,
            extents,
        })
    }

    /// The number of all places.
    pub(crate) fn count(&self) -> u32
        ensures { result ≡ place_count self.now.kind self.now.statements.now }
    {
        let mut count = 0u32;
        for stmt in self.statements {
            if let Some((_, size)) = self.kind.register_in(stmt) {
                count += size as u32;
            }
        }
        count
    }

    /// The places of a register.
    fn extent(&self, name: &[u8]) -> Option<Extent>
        ensures { result ≡ extent_of self.now.kind self.now.statements.now name.now }
    {
        self.extents.get(name).copied()
    }

    /// The size of a register.
    pub(crate) fn size(&self, name: &[u8]) -> Option<u32>
        ensures { result ≡ lookup (bytes_eq name.now) (registers_of self.now.kind self.now.statements.now) }
    {
        match self.extent(name) {
            Some(extent) => Some(extent.size),
            None => None,
        }
    }

    /// The number of a place of a register. A register of another name has none.
    pub(crate) fn number(&self, word: &[u8], index: u64) -> u32
        requires { IsPlaceIn self.now.kind self.now.statements.now (word.now, index) }
        ensures { result ≡ place_number self.now.kind self.now.statements.now (word.now, index) }
    {
        match self.extent(word) {
            Some(extent) => extent.start + index as u32,
            None => unreachable!(),
        }
    }

    /// The number of the place that an argument is in application k.
    pub(crate) fn applied(&self, arg: &Arg, k: u64) -> u32
        requires { IsPlaceIn self.now.kind self.now.statements.now (applied arg.now k) }
        ensures { result ≡ place_number self.now.kind self.now.statements.now (applied arg.now k) }
    {
        self.number(arg.word.as_slice(), arg.index.unwrap_or(k))
    }

    /// The numbers of the places that the arguments of a call are in application k.
    pub(crate) fn all_applied(
        &self,
        alloc: Global,
        args: &[Arg],
        k: u64,
    ) -> Result<SmallVec<u32, 4>, Memory>
        requires { AllByRecursion (λ arg. IsPlaceIn self.now.kind self.now.statements.now (applied arg k)) args.now }
        ensures { IfOk result (λ v. v.items ≡ map (λ arg. place_number self.now.kind self.now.statements.now (applied arg k)) args.now) }
    {
        let mut numbers = SmallVec::new(alloc);
        for arg in args {
            numbers.push(self.applied(arg, k))?;
        }
        Ok(numbers)
    }
}
