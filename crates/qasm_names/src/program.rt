//! The statements of a program that were admitted so far.

use crate::binding::bound;
use crate::gate::{GateDef, Target};
use crate::known::Known;
use crate::names::Names;
use qasm_form::Stmt;
use std::marker::Model;
use zac_gates::{List, Memory};

/// The statements of a program that were admitted so far, none of which is refused, with what their names stand for.
/// Contracts see the header's statements and those that were admitted.
#[derive(Drop)]
pub struct SourceProgram {
    header: List<Stmt>,
    names: Names,
    targets: Vec<Target>,
}

impl Model for SourceProgram {
    ghost use Rattle.qasm_names.specs.Accepted.{Program};

    ghost Value = { Program };

    ghost use Rattle.qasm_names.specs.Scopes.{IsScope};

    ghost view = { λ s. record { header = s.header; statements = s.names.before } };

    ghost invariant = { λ s. IsScope s.header s.names s.targets.items };
}

impl SourceProgram {
    ghost use Rattle.std.specs.Prelude.{◌≡◌, ℕ, [], ◌∷◌, ◌++◌, Some, take, slice_get, IfOk, OnOk, OnErr};
    ghost use Rattle.qasm_form.specs.declared.stmt.BodyOp.{BodyOp};
    ghost use Rattle.qasm_form.specs.declared.stmt.Stmt.TheVariants as stmt;
    ghost use Rattle.qasm_names.specs.Accepted.{AreAdmissible, IsAdmissible};
    ghost use Rattle.qasm_names.specs.Bound.{IsWellBound};
    ghost use Rattle.qasm_names.specs.Environment.{enter_all, environment, no_names};
    ghost use Rattle.qasm_names.specs.Header.{IsHeader};
    ghost use Rattle.qasm_names.specs.Names.{callee, target_of};
    ghost use Rattle.qasm_names.specs.Scopes.{IsSoundHeader};

    /// No statements, behind these, which are the header's.
    pub fn behind(header: Names) -> Result<SourceProgram, Memory>
        requires header { IsHeader header.before }
        requires sound { IsSoundHeader header.before }
        requires means { header.environment ≡ enter_all no_names header.before }
        ensures { IfOk result (λ program. program ≡ record { header = header.before; statements = [] }) }
    {
        let alloc = header.alloc();
        let (header, names) = header.opened()?;
        Ok(SourceProgram {
            header,
            names,
            targets: Vec::new(alloc),
        })
    }

    /// Admits a statement that isn't refused. Without memory nothing changes.
    pub fn admit(&mut self, stmt: Stmt) -> Result<(), Memory>
        requires { IsAdmissible self.old.header self.old.statements stmt }
        ensures ok { OnOk result (self.new ≡ record { header = self.old.header; statements = self.old.statements ++ stmt ∷ [] }) }
        ensures err { OnErr result (self.new ≡ self.old) }
    {
        self.targets.reserve(1)?;
        let target = target_in(self.names.known(), &stmt);
        self.names.enter(stmt)?;
        self.targets.push(target).unwrap();
        Ok(())
    }

    /// The statements with what names stand for behind them.
    pub fn names(&self) -> &Names
        ensures { result.now ≡ record {
          environment = environment self.now.header self.now.statements;
          before = self.now.statements;
        } }
    {
        &self.names
    }

    /// The statements that were admitted, in order. Behind the header none of them is refused.
    pub fn statements(&self) -> &[Stmt]
        ensures list { result.now ≡ self.now.statements }
        ensures header { IsHeader self.now.header }
        ensures sound { IsSoundHeader self.now.header }
        ensures admissible { AreAdmissible self.now.header [] self.now.statements }
    {
        self.names.statements()
    }

    /// The gates with a body, those of the header first. A call's target names them by their places. Each call of a body
    /// is bound to a gate before its own.
    pub fn gates(&self) -> &[GateDef]
        ensures list { result.now ≡ (environment self.now.header self.now.statements).gates }
        ensures bound { (place : ℕ) → IsWellBound result.now place }
    {
        self.names.known().gates()
    }

    /// What the call at a place of the statements is bound to. A call stands there.
    pub fn target(&self, place: usize) -> Target
        requires { (call : BodyOp) × (slice_get self.now.statements place ≡ Some (stmt.Call call)) }
        ensures { (call : BodyOp) → slice_get self.now.statements place ≡ Some (stmt.Call call)
            → Some result ≡ target_of (callee (environment self.now.header (take place self.now.statements)) call.name) }
    {
        self.targets[place]
    }
}

ghost use Rattle.std.specs.Prelude.{◌≡◌};
ghost use Rattle.qasm_names.specs.Scopes.{bound_target};

/// What a statement's call is bound to; a barrier where it is no call.
fn target_in(known: &Known, stmt: &Stmt) -> Target
    ensures { result ≡ bound_target known.now stmt.now }
{
    match stmt {
        Stmt::Call { call } => bound(known.callee(call.name.as_slice())),
        _ => Target::Barrier,
    }
}
