//! What holds of the header and of judgements, as laws. Each holds of every program.

ghost use Rattle.std.specs.Prelude.{◌≡◌, ◌⊎◌, ℕ, [], List};
ghost use Rattle.qasm_form.specs.Symbols.{Lexeme};
ghost use Rattle.qasm_form.specs.declared.stmt.Stmt.{Stmt};
ghost use Rattle.qasm_names.specs.Accepted.{AreAdmissible, IsAdmissible};
ghost use Rattle.qasm_names.specs.Environment.{environment};
ghost use Rattle.qasm_names.specs.Header.{IsHeader};
ghost use Rattle.qasm_names.specs.Refusals.{IsFirstRefusal};
ghost use Rattle.qasm_names.specs.Scopes.{IsSoundHeader};
ghost use Rattle.qasm_names.specs.declared.fault.ScopeKind.{ScopeKind};
ghost use Rattle.qasm_scope.specs.Refused.{GoToTheEnd, HasRefused, StopsAt};

use qasm_lex::laws::tokens_or_one_fault;
use qasm_parse::laws::{computed_statements_stand, statement_or_one_fault, tokens_fall_in_one_way};

/// The header's text falls into statements, in one way. Each of them may stand behind those before it, their numbers have at
/// most 40 bytes, and none declares `cz`.
pub fn one_header()
    ensures some { (header : List Stmt) × IsHeader header }
    ensures one { (one other : List Stmt) → IsHeader one → IsHeader other → one ≡ other }
    ensures sound { (header : List Stmt) → IsHeader header → IsSoundHeader header }
{
    computed_statements_stand();
    tokens_or_one_fault();
    tokens_fall_in_one_way();
}

/// A statement is admissible behind others, or has one first refusal, and never both.
pub fn one_judgement()
    ensures some { (header before : List Stmt) (s : Stmt) → IsAdmissible header before s
        ⊎ ((kind : ScopeKind) × (at : ℕ) × IsFirstRefusal (environment header before) before s kind at) }
    ensures one_refusal { (header before : List Stmt) (s : Stmt) (kind other : ScopeKind) (at more : ℕ)
        → IsFirstRefusal (environment header before) before s kind at
        → IsFirstRefusal (environment header before) before s other more → (kind ≡ other) × (at ≡ more) }
    ensures not_both { (header before : List Stmt) (s : Stmt) (kind : ScopeKind) (at : ℕ) → IsAdmissible header before s
        → ¬ IsFirstRefusal (environment header before) before s kind at }
{}

/// Of the statements of a program none is refused, or one is the first that is, and never both.
pub fn each_program_is_accepted_or_refused()
    ensures some { (header statements : List Stmt) → AreAdmissible header [] statements ⊎ HasRefused header statements }
    ensures not_both { (header statements : List Stmt) → AreAdmissible header [] statements → ¬ HasRefused header statements }
{}

/// The tokens of a source go to their end in statements none of which is refused, or stop at a place: at a fault of the syntax,
/// or at a statement that is refused.
pub fn tokens_go_to_the_end_or_stop()
    ensures { (header : List Stmt) (tokens : List Lexeme) (end : ℕ) → GoToTheEnd header tokens ⊎ StopsAt header tokens end }
{
    statement_or_one_fault();
}
