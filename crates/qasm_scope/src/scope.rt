//! The judgement of a program, statement by statement.

use crate::header::read_header;
use crate::judge::refusal_of;
use crate::laws::one_header;
use qasm_form::Stmt;
use qasm_names::{GateDef, ScopeFault, SourceProgram, Target};
use std::alloc::Global;
use std::marker::Model;
use zac_gates::Memory;

/// The statements of a program that were admitted so far, with what their names stand for. Contracts see the header's
/// statements and those that were admitted.
#[derive(Drop)]
pub struct Scope {
    program: SourceProgram,
}

impl Model for Scope {
    ghost use Rattle.qasm_names.specs.Accepted.{Program};

    ghost Value = { Program };

    ghost view = { λ s. s.program };
}

impl Scope {
    ghost use Rattle.std.specs.Prelude.{◌≡◌, ℕ, [], ◌∷◌, ◌++◌, Some, take, slice_get, IfOk, OnOk, OnErr, MatchResult};
    ghost use Rattle.qasm_form.specs.declared.stmt.BodyOp.{BodyOp};
    ghost use Rattle.qasm_form.specs.declared.stmt.Stmt.TheVariants as stmt;
    ghost use Rattle.qasm_names.specs.Accepted.{AreAdmissible, IsAdmissible};
    ghost use Rattle.qasm_names.specs.Bound.{IsWellBound};
    ghost use Rattle.qasm_names.specs.Environment.{environment};
    ghost use Rattle.qasm_names.specs.Header.{IsHeader};
    ghost use Rattle.qasm_names.specs.Names.{callee, target_of};
    ghost use Rattle.qasm_names.specs.Refusals.{IsFirstRefusal};
    ghost use Rattle.qasm_names.specs.Scopes.{IsSoundHeader};

    /// No statements, behind the header.
    pub fn new(alloc: Global) -> Result<Scope, Memory>
        ensures header { IfOk result (λ scope. IsHeader scope.header) }
        ensures none { IfOk result (λ scope. scope.statements ≡ []) }
    {
        one_header();
        let program = SourceProgram::behind(read_header(alloc)?)?;
        Ok(Scope { program })
    }

    /// Judges the statement that stands behind those that were admitted. Of several refusals the first is told: by kind,
    /// and then by offset. It takes no memory.
    pub fn check(&self, stmt: &Stmt) -> Result<(), ScopeFault>
        ensures { MatchResult result (λ _. IsAdmissible self.now.header self.now.statements stmt.now)
            (λ f. IsFirstRefusal (environment self.now.header self.now.statements) self.now.statements stmt.now f.kind f.at) }
    {
        match refusal_of(self.program.names(), stmt) {
            None => Ok(()),
            Some(fault) => Err(fault),
        }
    }

    /// Admits a statement that isn't refused. Without memory nothing changes.
    pub fn admit(&mut self, stmt: Stmt) -> Result<(), Memory>
        requires { IsAdmissible self.old.header self.old.statements stmt }
        ensures ok { OnOk result (self.new ≡ record { header = self.old.header; statements = self.old.statements ++ stmt ∷ [] }) }
        ensures err { OnErr result (self.new ≡ self.old) }
    {
        self.program.admit(stmt)
    }

    /// The program of the statements that were admitted.
    pub fn program(&self) -> &SourceProgram
        ensures { result.now ≡ self.now }
    {
        &self.program
    }

    /// The statements that were admitted, in order. Behind the header none of them is refused.
    pub fn statements(&self) -> &[Stmt]
        ensures list { result.now ≡ self.now.statements }
        ensures header { IsHeader self.now.header }
        ensures sound { IsSoundHeader self.now.header }
        ensures admissible { AreAdmissible self.now.header [] self.now.statements }
    {
        self.program.statements()
    }

    /// The gates with a body, those of the header first. A call's target names them by their places. Each call of a body
    /// is bound to a gate before its own.
    pub fn gates(&self) -> &[GateDef]
        ensures list { result.now ≡ (environment self.now.header self.now.statements).gates }
        ensures bound { (place : ℕ) → IsWellBound result.now place }
    {
        self.program.gates()
    }

    /// What the call at a place of the statements is bound to. A call stands there.
    pub fn target(&self, place: usize) -> Target
        requires { (call : BodyOp) × (slice_get self.now.statements place ≡ Some (stmt.Call call)) }
        ensures { (call : BodyOp) → slice_get self.now.statements place ≡ Some (stmt.Call call)
            → Some result ≡ target_of (callee (environment self.now.header (take place self.now.statements)) call.name) }
    {
        self.program.target(place)
    }
}
