//! What the definitions say of a text, as a law.

ghost use Rattle.std.specs.Prelude.{◌≡◌, ◌≤◌, ◌⊎◌, ℕ, List};
ghost use Rattle.zac_arch.specs.Architecture.{Architecture};
ghost use Rattle.zac_archfile.specs.declared.fault.CardFault.{CardFault};
ghost use Rattle.zac_archfile.specs.Faults.{IsFault};
ghost use Rattle.zac_archfile.specs.Texts.{IsCardText};

/// Each text is that of one card, or has one fault, and not both. A fault `Invalid` names one of the first six rules.
pub fn card_or_one_fault()
    ensures one_card { (bytes : List ℕ) (a b : Architecture) → IsCardText bytes a → IsCardText bytes b → a ≡ b }
    ensures one_fault { (bytes : List ℕ) (e f : CardFault) → IsFault bytes e → IsFault bytes f → e ≡ f }
    ensures not_both { (bytes : List ℕ) (a : Architecture) (e : CardFault) → IsCardText bytes a → ¬ IsFault bytes e }
    ensures some { (bytes : List ℕ) → ((a : Architecture) × IsCardText bytes a) ⊎ ((e : CardFault) × IsFault bytes e) }
    ensures rule { (bytes : List ℕ) (n : ℕ) → IsFault bytes (CardFault.Invalid n) → (1 ≤ n) × (n ≤ 6) }
{}
