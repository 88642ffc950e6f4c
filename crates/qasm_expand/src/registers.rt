//! The registers of a program.

ghost use Rattle.std.specs.Prelude.{◌≡◌};

use crate::kind::RegisterKind;
use crate::numbering::Numbering;
use qasm_form::{Arg, Stmt};
use smallvec::SmallVec;
use std::alloc::Global;
use std::marker::Model;
use zac_gates::Memory;

/// The registers of a program, with the numbers of their places. Contracts see the program's statements.
#[derive(Drop)]
pub(crate) struct Registers<'a> {
    qubits: Numbering<'a>,
    bits: Numbering<'a>,
}

impl<'a> Model for Registers<'a> {
    ghost use Rattle.std.specs.Prelude.{◌≡◌, List};
    ghost use Rattle.qasm_form.specs.declared.stmt.Stmt.{Stmt};
    ghost use Rattle.qasm_expand.specs.declared.kind.RegisterKind.TheVariants.{Qubit, Bit};

    ghost Value = { List Stmt };

    ghost view = { λ r. r.qubits.statements.now };

    ghost invariant = { λ r. (r.qubits.kind ≡ Qubit) × (r.bits.kind ≡ Bit) × (r.bits.statements.now ≡ r.qubits.statements.now) };
}

impl<'a> Registers<'a> {
    ghost use Rattle.std.specs.Prelude.{None, ◌∷◌, [], IfOk, map};
    ghost use Rattle.std.specs.List.{AllByRecursion};
    ghost use Rattle.qasm_names.specs.Applications.{applications, applied};
    ghost use Rattle.qasm_expand.specs.Items.{qubit_number, bit_number, qubit_count, bit_count};
    ghost use Rattle.qasm_expand.specs.Limits.{passed_before_calls};
    ghost use Rattle.qasm_expand.specs.RegisterKinds.{IsPlaceIn};
    ghost use Rattle.qasm_expand.specs.Sized.{sized};
    ghost use Rattle.qasm_expand.specs.declared.kind.RegisterKind.{RegisterKind};

    /// The registers that the statements declare, which pass no limit.
    pub(crate) fn new(alloc: Global, statements: &'a [Stmt]) -> Result<Registers<'a>, Memory>
        requires { passed_before_calls statements.now ≡ None }
        ensures { IfOk result (λ r. r ≡ statements.now) }
    {
        Ok(Registers {
            qubits: Numbering::new(alloc, RegisterKind::Qubit, statements)?,
            bits: Numbering::new(alloc, RegisterKind::Bit, statements)?,
        })
    }

    /// The number of all qubits.
    pub(crate) fn qubit_count(&self) -> u32
        ensures { result ≡ qubit_count self.now }
    {
        self.qubits.count()
    }

    /// The number of all bits.
    pub(crate) fn bit_count(&self) -> u32
        ensures { result ≡ bit_count self.now }
    {
        self.bits.count()
    }

    /// How often a call on these arguments is applied: as often as its first whole register is large, or once.
    pub(crate) fn applications(&self, args: &[Arg]) -> u64
        ensures { result ≡ applications (sized self.now) args.now }
    {
        for arg in args {
            if arg.index.is_none() {
                return u64::from(self.qubits.size(arg.word.as_slice()).unwrap_or(0));
            }
        }
        1
    }

    /// How often a measurement of this argument is applied.
    pub(crate) fn readings(&self, from: &Arg) -> u64
        ensures { result ≡ applications (sized self.now) (from.now ∷ []) }
    {
        match from.index {
            None => u64::from(self.qubits.size(from.word.as_slice()).unwrap_or(0)),
            Some(_) => 1,
        }
    }

    /// The numbers of the qubits of a call in application k.
    pub(crate) fn qubits(
        &self,
        alloc: Global,
        args: &[Arg],
        k: u64,
    ) -> Result<SmallVec<u32, 4>, Memory>
        requires { AllByRecursion (λ arg. IsPlaceIn RegisterKind.Qubit self.now (applied arg k)) args.now }
        ensures { IfOk result (λ v. v.items ≡ map (λ arg. qubit_number self.now (applied arg k)) args.now) }
    {
        self.qubits.all_applied(alloc, args, k)
    }

    /// The number of the qubit that a measurement reads in application k.
    pub(crate) fn qubit(&self, from: &Arg, k: u64) -> u32
        requires { IsPlaceIn RegisterKind.Qubit self.now (applied from.now k) }
        ensures { result ≡ qubit_number self.now (applied from.now k) }
    {
        self.qubits.applied(from, k)
    }

    /// The number of the bit that it reads it into.
    pub(crate) fn bit(&self, into: &Arg, k: u64) -> u32
        requires { IsPlaceIn RegisterKind.Bit self.now (applied into.now k) }
        ensures { result ≡ bit_number self.now (applied into.now k) }
    {
        self.bits.applied(into, k)
    }
}
