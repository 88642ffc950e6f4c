//! Why a source is refused.

ghost use Rattle.std.specs.Prelude.{◌≡◌};
ghost use Rattle.qasm_source.specs.Kinds.{scope_name};

use qasm_scope::{ScopeFault, ScopeKind};
use zac_gates::Memory;

/// The kind of a refusal.
#[derive(Clone, Copy, Debug, PartialEq, Eq)]
pub enum Refusal {
    /// No token, blank or comment begins there.
    Lex,
    /// The tokens begin no statement.
    Syntax,
    /// The statement is refused behind those before it.
    Scope { kind: ScopeKind },
}

impl Refusal {
    ghost use Rattle.qasm_source.specs.Kinds.{name_of};

    /// The name of the kind.
    pub fn name(&self) -> &'static str
        ensures { result.now ≡ name_of self.now }
    {
        match self {
            Refusal::Lex => "Lex",
            Refusal::Syntax => "Syntax",
            Refusal::Scope { kind } => scope_name(*kind),
        }
    }
}

/// The name of a statement's refusal.
fn scope_name(kind: ScopeKind) -> &'static str
    ensures { result.now ≡ scope_name kind }
{
    match kind {
        ScopeKind::Version => "Version",
        ScopeKind::Control => "Control",
        ScopeKind::Reset => "Reset",
        ScopeKind::Include => "Include",
        ScopeKind::Redeclared => "Redeclared",
        ScopeKind::NotDeclared => "NotDeclared",
        ScopeKind::UnknownGate => "UnknownGate",
        ScopeKind::Opaque => "Opaque",
        ScopeKind::Params => "Params",
        ScopeKind::Arity => "Arity",
        ScopeKind::Sizes => "Sizes",
        ScopeKind::Index => "Index",
        ScopeKind::Repeated => "Repeated",
        ScopeKind::Name => "Name",
        ScopeKind::AfterRead => "AfterRead",
    }
}

/// Why a source isn't read.
#[derive(Clone, Copy, Debug)]
pub enum SourceFault {
    /// It is refused, with this kind, at this offset in bytes from its start.
    Refused { kind: Refusal, at: u32 },
    /// There was no memory.
    Memory,
}

impl From<ScopeFault> for SourceFault {
    ghost use Rattle.std.specs.Prelude.{◌≡◌};
    ghost use Rattle.qasm_source.specs.declared.source_fault.Refusal.TheVariants as kind;
    ghost use Rattle.qasm_source.specs.declared.source_fault.SourceFault.TheVariants as fault;

    ghost from_gives = { λ e f. f ≡ fault.Refused (kind.Scope e.kind) e.at };

    fn from(e: ScopeFault) -> SourceFault {
        SourceFault::Refused {
            kind: Refusal::Scope { kind: e.kind },
            at: e.at,
        }
    }
}

impl From<Memory> for SourceFault {
    ghost use Rattle.std.specs.Prelude.{◌≡◌};
    ghost use Rattle.qasm_source.specs.declared.source_fault.SourceFault.TheVariants as fault;

    ghost from_gives = { λ _ f. f ≡ fault.Memory };

    fn from(_e: Memory) -> SourceFault {
        SourceFault::Memory
    }
}
