//! The two kinds of registers.

use crate::fault::LimitKind;
use qasm_form::Stmt;

/// What a register's places are.
#[derive(Clone, Copy)]
pub(crate) enum RegisterKind {
    /// Qubits.
    Qubit,
    /// Bits.
    Bit,
}

impl RegisterKind {
    ghost use Rattle.std.specs.Prelude.{◌≡◌, option_to_list, option_map};
    ghost use Rattle.qasm_expand.specs.RegisterKinds.{limit_of, most_of, sizes_of, registers_in};

    /// What is limited.
    pub(crate) fn limit(self) -> LimitKind
        ensures { result ≡ limit_of self }
    {
        match self {
            RegisterKind::Qubit => LimitKind::Qubits,
            RegisterKind::Bit => LimitKind::Bits,
        }
    }

    /// The most places in all registers of the kind.
    pub(crate) fn most(self) -> u64
        ensures { result ≡ most_of self }
    {
        match self {
            RegisterKind::Qubit => 4096,
            RegisterKind::Bit => 65536,
        }
    }

    /// The register of this kind that the statement declares: its name and its size.
    pub(crate) fn register_in(self, stmt: &Stmt) -> Option<(&[u8], u64)>
        ensures named { option_to_list (option_map (λ r. (r.0.now, r.1)) result) ≡ registers_in self stmt.now }
        ensures sized { option_to_list (option_map (λ r. r.1) result) ≡ sizes_of self stmt.now }
    {
        match (self, stmt) {
            (RegisterKind::Qubit, Stmt::Qreg { name, size, .. }) => Some((name.as_slice(), *size)),
            (RegisterKind::Bit, Stmt::Creg { name, size, .. }) => Some((name.as_slice(), *size)),
            _ => None,
        }
    }
}
