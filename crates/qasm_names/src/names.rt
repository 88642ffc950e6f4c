//! What names stand for behind some statements, and what was read.

ghost use Rattle.std.specs.Prelude.{◌≡◌, OnOk, OnErr};
ghost use Rattle.qasm_names.specs.Reads.{IsMeasurement, with_reads_of};
ghost use Rattle.qasm_names.specs.Registers.{reads_of};

use crate::known::Known;
use crate::reads::Reads;
use qasm_form::Stmt;
use std::alloc::Global;
use std::marker::Model;
use zac_gates::{List, Memory};

/// The names that the statements so far declare, with these statements. Contracts see what names stand for, and the list
/// of the statements.
#[derive(Drop)]
pub struct Names {
    alloc: Global,
    known: Known,
    reads: Reads,
    statements: Vec<Stmt>,
}

impl Model for Names {
    ghost use Rattle.qasm_names.specs.Accepted.{Context};

    ghost Value = { Context };

    ghost use Rattle.qasm_names.specs.Reads.{AreReadsOf};
    ghost use Rattle.qasm_names.specs.Registers.{reads_of};

    ghost view = { λ n. record { environment = n.known; before = n.statements.items } };

    ghost invariant = { λ n. AreReadsOf (reads_of n.reads) n.statements.items };
}

/// Notes what a statement reads. Without memory nothing changes; only a measurement wants it.
fn note_read(reads: &mut Reads, stmt: &Stmt) -> Result<(), Memory>
    ensures ok { OnOk result (reads_of reads.new ≡ with_reads_of (reads_of reads.old) stmt.now) }
    ensures err { OnErr result (reads_of reads.new ≡ reads_of reads.old) }
    ensures measured { OnErr result (IsMeasurement stmt.now) }
{
    if let Stmt::Measure { from, .. } = stmt {
        return reads.note(from.word.as_slice(), from.index);
    }
    Ok(())
}

impl Names {
    ghost use Rattle.std.specs.Prelude.{◌≡◌, ℕ, ◌<◌, ◌↔◌, [], None, codes, IsTrue, IfOk, OnOk, OnErr};
    ghost use Rattle.qasm_names.specs.Accepted.{behind};
    ghost use Rattle.qasm_names.specs.Applications.{WasRead};
    ghost use Rattle.qasm_names.specs.Environment.{no_names};
    ghost use Rattle.qasm_names.specs.Names.{own_meaning};
    ghost use Rattle.qasm_names.specs.Refusals.{Refuses};
    ghost use Rattle.qasm_names.specs.Scopes.{opening_behind};
    ghost use Rattle.qasm_names.specs.declared.fault.ScopeKind.{ScopeKind};

    /// No statements, and no names.
    pub fn new(alloc: Global) -> Names
        ensures { result ≡ record { environment = no_names; before = [] } }
    {
        Names {
            alloc,
            known: Known::new(alloc),
            reads: Reads::new(alloc),
            statements: Vec::new(alloc),
        }
    }

    /// Enters a statement behind those before it, where it isn't refused. Without memory nothing changes.
    pub fn enter(&mut self, stmt: Stmt) -> Result<(), Memory>
        requires { (k : ScopeKind) (at : ℕ) → ¬ Refuses self.old.environment self.old.before stmt k at }
        ensures ok { OnOk result (self.new ≡ behind self.old stmt) }
        ensures err { OnErr result (self.new ≡ self.old) }
    {
        self.statements.reserve(1)?;
        self.known.enter(&stmt)?;
        note_read(&mut self.reads, &stmt)?;
        self.statements.push(stmt).unwrap();
        Ok(())
    }

    /// The statements, and the context in which a file begins behind them, where they are the header's. `cz` isn't
    /// among the names.
    pub(crate) fn opened(self) -> Result<(List<Stmt>, Names), Memory>
        requires { own_meaning self.environment (codes "cz") ≡ None }
        ensures header { IfOk result (λ r. r.0 ≡ self.before) }
        ensures opening { IfOk result (λ r. r.1 ≡ record { environment = opening_behind self.environment; before = [] }) }
    {
        let Names {
            alloc,
            known,
            reads: _,
            statements,
        } = self;
        let names = Names {
            alloc,
            known: known.opened()?,
            reads: Reads::new(alloc),
            statements: Vec::new(alloc),
        };
        Ok((List::of(statements), names))
    }

    /// Where memory comes from.
    pub(crate) fn alloc(&self) -> Global {
        self.alloc
    }

    /// What names stand for behind the statements.
    pub fn known(&self) -> &Known
        ensures { result.now ≡ self.now.environment }
    {
        &self.known
    }

    /// The statements.
    pub fn statements(&self) -> &[Stmt]
        ensures { result.now ≡ self.now.before }
    {
        self.statements.as_slice()
    }

    /// Whether a place was read.
    pub fn is_read(&self, name: &[u8], index: u64) -> bool
        ensures { IsTrue result ↔ WasRead self.now.environment self.now.before (name.now, index) }
    {
        self.reads.is_single(name, index)
            || (self.reads.is_whole(name) && index < self.known.qubit_size(name).unwrap_or(0))
    }

    /// Whether a place of a register below a bound was read.
    pub fn has_read_below(&self, name: &[u8], bound: u64) -> bool
        ensures { IsTrue result ↔ ((k : ℕ) × (k < bound) × WasRead self.now.environment self.now.before (name.now, k)) }
    {
        let places = bound.min(self.known.qubit_size(name).unwrap_or(0));
        self.reads.has_single_below(name, bound) || (self.reads.is_whole(name) && places > 0)
    }
}
