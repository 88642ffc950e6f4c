//! What names stand for.

ghost use Rattle.std.specs.Prelude.{◌≡◌};
ghost use Rattle.std.specs.List.{list_any};
ghost use Rattle.std.specs.Str.{bytes_eq};
ghost use Rattle.qasm_names.specs.Fixed.{is_fixed};

use crate::binding::bound_gate;
use crate::gate::{GateDef, Target};
use crate::meaning::{Callee, Meaning};
use crate::table::NameTable;
use qasm_form::{BodyOp, Named, Stmt};
use std::alloc::Global;
use std::marker::Model;
use zac_gates::Memory;

/// The names of the header that a file can't declare beside it.
const FIXED_NAMES: [&[u8]; 23] = [
    b"u3", b"u2", b"u1", b"cx", b"id", b"x", b"y", b"z", b"h", b"s", b"sdg", b"t", b"tdg", b"rx",
    b"ry", b"rz", b"cy", b"ch", b"ccx", b"crz", b"cu1", b"cu3", b"cz",
];

/// What names stand for behind some statements, and the gates with a body. Contracts see it as an environment.
#[derive(Drop)]
pub struct Known {
    alloc: Global,
    header: NameTable,
    own: NameTable,
    included: bool,
    gates: Vec<GateDef>,
}

impl Model for Known {
    ghost use Rattle.qasm_names.specs.Names.{Environment};

    ghost Value = { Environment };

    ghost view = { λ k. record { header = k.header; own = k.own; included = k.included; gates = k.gates.items } };
}

impl Known {
    ghost use Rattle.std.specs.Prelude.{◌≡◌, ◌↔◌, IsTrue, None, Some, codes, is_some, IfOk, OnOk, OnErr};
    ghost use Rattle.std.specs.List.{list_any};
    ghost use Rattle.qasm_names.specs.Entering.{DeclaresNew};
    ghost use Rattle.qasm_names.specs.Environment.{enter, no_names, with_gate, with_name};
    ghost use Rattle.qasm_names.specs.Header.{fixed_names};
    ghost use Rattle.qasm_names.specs.Names.{callee, meaning, own_meaning, qubit_size, bit_size};
    ghost use Rattle.qasm_names.specs.Refusals.{IsDeclared, ClashesWithHeader};
    ghost use Rattle.qasm_names.specs.Scopes.{opening_behind};

    /// No names.
    pub(crate) fn new(alloc: Global) -> Known
        ensures { result ≡ no_names }
    {
        Known {
            alloc,
            header: NameTable::new(alloc),
            own: NameTable::new(alloc),
            included: false,
            gates: Vec::new(alloc),
        }
    }

    /// What holds behind a statement, which declares no name that the file has declared.
    /// Without memory nothing changes.
    pub(crate) fn enter(&mut self, stmt: &Stmt) -> Result<(), Memory>
        requires { DeclaresNew self.old stmt.now }
        ensures ok { OnOk result (self.new ≡ enter self.old stmt.now) }
        ensures err { OnErr result (self.new ≡ self.old) }
    {
        match stmt {
            Stmt::Include { .. } => {
                self.included = true;
                Ok(())
            }
            Stmt::Qreg { name, size, .. } => {
                let size = *size;
                self.declare(name.as_slice(), Meaning::Qubits { size })
            }
            Stmt::Creg { name, size, .. } => {
                let size = *size;
                self.declare(name.as_slice(), Meaning::Bits { size })
            }
            Stmt::Gate {
                name,
                params,
                args,
                body,
                ..
            } => self.define(
                name.as_slice(),
                params.as_slice(),
                args.as_slice(),
                body.as_slice(),
            ),
            Stmt::Opaque { name, .. } => self.declare(name.as_slice(), Meaning::Opaque),
            Stmt::Version { .. }
            | Stmt::Call { .. }
            | Stmt::Measure { .. }
            | Stmt::Reset { .. }
            | Stmt::Barrier { .. }
            | Stmt::If { .. } => Ok(()),
        }
    }

    /// One name more.
    fn declare(&mut self, name: &[u8], meaning: Meaning) -> Result<(), Memory>
        requires { own_meaning self.old name.now ≡ None }
        ensures ok { OnOk result (self.new ≡ with_name self.old name.now meaning) }
        ensures err { OnErr result (self.new ≡ self.old) }
    {
        let name = name.to_vec(self.alloc)?;
        self.own.insert(name, meaning)
    }

    /// One gate more, with its name.
    fn define(
        &mut self,
        name: &[u8],
        params: &[Named],
        args: &[Named],
        body: &[BodyOp],
    ) -> Result<(), Memory>
        requires { own_meaning self.old name.now ≡ None }
        ensures ok { OnOk result (self.new ≡ with_gate self.old name.now params.now args.now body.now) }
        ensures err { OnErr result (self.new ≡ self.old) }
    {
        let place = self.gates.len();
        let gate = bound_gate(self.alloc, self, params, args, body)?;
        let name = name.to_vec(self.alloc)?;
        self.gates.reserve(1)?;
        self.own.insert(
            name,
            Meaning::Gate {
                place,
                params: params.len(),
                args: args.len(),
            },
        )?;
        self.gates.push(gate).unwrap();
        Ok(())
    }

    /// What a file begins with, where these are the header's names and gates. `cz` isn't among the names.
    pub(crate) fn opened(self) -> Result<Known, Memory>
        requires { own_meaning self (codes "cz") ≡ None }
        ensures { IfOk result (λ opening. opening ≡ opening_behind self) }
    {
        let Known {
            alloc,
            header: _,
            own: mut header,
            included: _,
            gates,
        } = self;
        let name = b"cz".as_slice().to_vec(alloc)?;
        header.insert(name, Meaning::Native)?;
        Ok(Known {
            alloc,
            header,
            own: NameTable::new(alloc),
            included: false,
            gates,
        })
    }

    /// Whether the file has declared the name.
    pub fn has_own(&self, name: &[u8]) -> bool
        ensures { result ≡ is_some (own_meaning self.now name.now) }
    {
        self.own.contains(name)
    }

    /// The gates with a body.
    pub(crate) fn gates(&self) -> &[GateDef]
        ensures { result.now ≡ self.now.gates }
    {
        self.gates.as_slice()
    }

    /// What a name stands for.
    fn meaning(&self, name: &[u8]) -> Option<Meaning>
        ensures { result ≡ meaning self.now name.now }
    {
        match self.own.get(name) {
            Some(meaning) => Some(meaning),
            None => {
                if self.included {
                    self.header.get(name)
                } else {
                    None
                }
            }
        }
    }

    /// What a call's name stands for.
    pub fn callee(&self, name: &[u8]) -> Callee
        ensures { result ≡ callee self.now name.now }
    {
        if name == b"U".as_slice() {
            return Callee::Gate {
                target: Target::U,
                params: 3,
                args: 1,
            };
        }
        if name == b"CX".as_slice() {
            return Callee::Gate {
                target: Target::Cx,
                params: 0,
                args: 2,
            };
        }
        if name == b"barrier".as_slice() {
            return Callee::Barrier;
        }
        match self.meaning(name) {
            None | Some(Meaning::Qubits { .. }) | Some(Meaning::Bits { .. }) => Callee::Unknown,
            Some(Meaning::Native) => Callee::Gate {
                target: Target::Cz,
                params: 0,
                args: 2,
            },
            Some(
                Meaning::Gate {
                    place,
                    params,
                    args,
                },
            ) => {
                Callee::Gate {
                    target: Target::Gate { place },
                    params,
                    args,
                }
            }
            Some(Meaning::Opaque) => Callee::Opaque,
        }
    }

    /// The size of a register of qubits.
    pub fn qubit_size(&self, name: &[u8]) -> Option<u64>
        ensures { result ≡ qubit_size self.now name.now }
    {
        match self.meaning(name) {
            Some(Meaning::Qubits { size }) => Some(size),
            _ => None,
        }
    }

    /// The size of a register of bits.
    pub fn bit_size(&self, name: &[u8]) -> Option<u64>
        ensures { result ≡ bit_size self.now name.now }
    {
        match self.meaning(name) {
            Some(Meaning::Bits { size }) => Some(size),
            _ => None,
        }
    }

    /// Whether a name is declared: by the file, or as a fixed name of a header that is included.
    pub fn is_declared(&self, name: &[u8]) -> bool
        ensures { IsTrue result ↔ IsDeclared self.now name.now }
    {
        self.own.contains(name) || (self.included && is_fixed(name))
    }

    /// Whether the file has declared a fixed name of the header, which isn't included yet.
    pub fn clashes_with_header(&self) -> bool
        ensures { IsTrue result ↔ ClashesWithHeader self.now }
    {
        !self.included && self.has_fixed_name()
    }

    /// Whether the file has declared a fixed name of the header.
    fn has_fixed_name(&self) -> bool
        ensures { result ≡ list_any (λ name. is_some (own_meaning self.now name)) fixed_names }
    {
        self.has_one_of(&FIXED_NAMES)
    }

    /// Whether the file has declared one of these names.
    fn has_one_of(&self, names: &[&[u8]]) -> bool
        ensures { result ≡ list_any (λ name. is_some (own_meaning self.now name.now)) names.now }
    {
        let own = &self.own;
        names.iter().any(|name| own.contains(name))
    }
}

/// Whether a name is one of the fixed names.
fn is_fixed(name: &[u8]) -> bool
    ensures { result ≡ is_fixed name.now }
{
    is_one_of(name, &FIXED_NAMES)
}

/// Whether a name is one of these.
fn is_one_of(name: &[u8], names: &[&[u8]]) -> bool
    ensures { result ≡ list_any (λ one. bytes_eq name.now one.now) names.now }
{
    names.iter().any(|one| name == *one)
}
