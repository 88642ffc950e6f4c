//! What "accepted" and "refused" mean of a source, as a law.

ghost use Rattle.std.specs.Prelude.{◌≡◌, ℕ, ◌⊎◌, List};
ghost use Rattle.zac_gates.specs.Ops.{NativeCircuit};
ghost use Rattle.qasm_expand.specs.Expansion.{IsExpansion, IsWithinLimits, PassesFirst};
ghost use Rattle.qasm_expand.specs.declared.fault.LimitKind.{LimitKind};
ghost use Rattle.qasm_names.specs.Accepted.{Program};
ghost use Rattle.qasm_source.specs.Source.{IsAccepted, IsRefusedAt};
ghost use Rattle.qasm_source.specs.declared.source_fault.Refusal.{Refusal};

use qasm_expand::each_program_expands;
use qasm_expand::laws::one_limit;
use qasm_lex::laws::tokens_or_one_fault;
use qasm_parse::laws::{each_token_is_seen, statement_or_one_fault, tokens_fall_in_one_way};
use qasm_scope::{one_header, one_judgement, tokens_go_to_the_end_or_stop};

/// A source has one answer: it is accepted as one program with a native list and within the limits, or it is accepted as one and
/// passes a limit first, or it is refused with one kind at one offset.
pub fn one_answer()
    ensures some { (source : List ℕ)
        → ((program : Program) × (circuit : NativeCircuit) × IsAccepted source program × IsWithinLimits program × IsExpansion program circuit)
        ⊎ ((program : Program) × (kind : LimitKind) × (count : ℕ) × IsAccepted source program × PassesFirst program kind count)
        ⊎ ((kind : Refusal) × (at : ℕ) × IsRefusedAt source kind at) }
    ensures one_program { (source : List ℕ) (program other : Program) → IsAccepted source program
        → IsAccepted source other → program ≡ other }
    ensures one_refusal { (source : List ℕ) (k l : Refusal) (at other : ℕ) → IsRefusedAt source k at
        → IsRefusedAt source l other → (k ≡ l) × (at ≡ other) }
    ensures not_both { (source : List ℕ) (program : Program) (k : Refusal) (at : ℕ) → IsAccepted source program
        → ¬ IsRefusedAt source k at }
{
    tokens_or_one_fault();
    each_token_is_seen();
    statement_or_one_fault();
    tokens_fall_in_one_way();
    one_header();
    one_judgement();
    tokens_go_to_the_end_or_stop();
    each_program_expands();
    one_limit();
}
