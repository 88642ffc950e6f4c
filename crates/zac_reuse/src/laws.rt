//! What keepable numbers have, as laws.

ghost use Rattle.std.specs.Prelude.{◌≡◌, ℕ, List};
ghost use Rattle.zac_gates.specs.declared.circuit.Op.{Op};
ghost use Rattle.zac_reuse.specs.Keeping.{IsKeepableNumber};

/// No two numbers are the keepable number of two pulses.
pub fn one_number_is_keepable()
    ensures { (ops : List Op) (first second : List ℕ) (one other : ℕ)
        → IsKeepableNumber ops first second one → IsKeepableNumber ops first second other → one ≡ other }
{}
