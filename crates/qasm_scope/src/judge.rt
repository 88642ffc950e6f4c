//! The judgement of a statement.

ghost use Rattle.std.specs.Prelude.{◌≡◌, ℕ, MatchOption};
ghost use Rattle.qasm_names.specs.Refusals.{IsFirstRefusal, Refuses};
ghost use Rattle.qasm_names.specs.declared.fault.ScopeKind.{ScopeKind};
ghost use Rattle.qasm_scope.specs.Judged.{kinds_in_order};
ghost use Rattle.qasm_scope.specs.Least.{IsLeastOffset};

use crate::arguments::ArgFault;
use crate::calls::CallFault;
use crate::kinds::{
    after_read_at, argument_at, call_at, control_at, include_at, name_at, redeclared_at,
    repeated_at, reset_at, sizes_at, version_at,
};
use qasm_form::Stmt;
use qasm_names::{Names, ScopeFault, ScopeKind};

/// The kinds of refusals in their order.
fn kinds_in_order() -> [ScopeKind; 15]
    ensures { result ≡ kinds_in_order }
{
    [
        ScopeKind::Version,
        ScopeKind::Control,
        ScopeKind::Reset,
        ScopeKind::Include,
        ScopeKind::Redeclared,
        ScopeKind::NotDeclared,
        ScopeKind::UnknownGate,
        ScopeKind::Opaque,
        ScopeKind::Params,
        ScopeKind::Arity,
        ScopeKind::Sizes,
        ScopeKind::Index,
        ScopeKind::Repeated,
        ScopeKind::Name,
        ScopeKind::AfterRead,
    ]
}

/// The least offset of a refusal of this kind.
fn least_offset(names: &Names, kind: ScopeKind, stmt: &Stmt) -> Option<u32>
    ensures { IsLeastOffset
        (Refuses names.now.environment names.now.before stmt.now kind)
        result }
{
    let known = names.known();
    match kind {
        ScopeKind::Version => version_at(stmt),
        ScopeKind::Control => control_at(stmt),
        ScopeKind::Reset => reset_at(stmt),
        ScopeKind::Include => include_at(stmt),
        ScopeKind::Redeclared => redeclared_at(known, stmt),
        ScopeKind::NotDeclared => argument_at(known, ArgFault::NotDeclared, stmt),
        ScopeKind::UnknownGate => call_at(known, CallFault::Unknown, stmt),
        ScopeKind::Opaque => call_at(known, CallFault::Opaque, stmt),
        ScopeKind::Params => call_at(known, CallFault::Params, stmt),
        ScopeKind::Arity => call_at(known, CallFault::Arity, stmt),
        ScopeKind::Sizes => sizes_at(known, stmt),
        ScopeKind::Index => argument_at(known, ArgFault::Index, stmt),
        ScopeKind::Repeated => repeated_at(known, stmt),
        ScopeKind::Name => name_at(stmt),
        ScopeKind::AfterRead => after_read_at(names, stmt),
    }
}

/// The refusal of a statement: of several the first by kind, and then by offset. `None` where nothing is wrong.
pub(crate) fn refusal_of(names: &Names, stmt: &Stmt) -> Option<ScopeFault>
    ensures { MatchOption result
        ((k : ScopeKind) (at : ℕ) → ¬ Refuses names.now.environment names.now.before stmt.now k at)
        (λ f. IsFirstRefusal names.now.environment names.now.before stmt.now f.kind f.at) }
{
    for kind in kinds_in_order() {
        if let Some(at) = least_offset(names, kind, stmt) {
            return Some(ScopeFault { kind, at });
        }
    }
    None
}
