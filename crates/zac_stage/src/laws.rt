//! What right numbers and stages have, as laws. Each holds of every list of ops.

ghost use Rattle.std.specs.Prelude.{◌≡◌, ◌≢◌, ℕ, ◌≤◌, List, Some, length};
ghost use Rattle.std.specs.List.{slice_get, Contains};
ghost use Rattle.zac_gates.specs.declared.circuit.Op.{Op};
ghost use Rattle.zac_gates.specs.Ops.{NativeCircuit, IsValid, Names};
ghost use Rattle.zac_stage.specs.Numbers.{IsNumbering, NumbersFollow};
ghost use Rattle.zac_stage.specs.Staging.{Staging, IsStaging};

/// Right numbers follow what must follow.
pub fn numbers_follow()
    ensures { (ops : List Op) (sites : ℕ) (numbers : List ℕ) → IsNumbering ops sites numbers
        → NumbersFollow ops numbers }
{}

/// The ops of each circuit have right numbers, where a pulse has a site.
pub fn each_circuit_has_right_numbers()
    ensures { (c : NativeCircuit) (sites : ℕ) → IsValid c → 1 ≤ sites
        → (numbers : List ℕ) × IsNumbering c.ops sites numbers }
{}

/// No two numberings of a list are right.
pub fn one_numbering_is_right()
    ensures { (ops : List Op) (sites : ℕ) (one other : List ℕ) → IsNumbering ops sites one
        → IsNumbering ops sites other → one ≡ other }
{}

/// Each pulse has a pair, and at most as many as sites.
pub fn pulses_are_filled()
    ensures { (s : Staging) (t : ℕ) (pulse : List ℕ) → 1 ≤ s.sites → IsStaging s
        → slice_get s.pairs t ≡ Some pulse → (1 ≤ length pulse) × (length pulse ≤ s.sites) }
{}

/// No two ops of a pulse share a qubit.
pub fn pulses_share_no_qubit()
    ensures { (s : Staging) (t i j q : ℕ) (pulse : List ℕ) (a b : Op) → IsStaging s
        → slice_get s.pairs t ≡ Some pulse → Contains pulse i → Contains pulse j → i ≢ j
        → slice_get s.circuit.ops i ≡ Some a → slice_get s.circuit.ops j ≡ Some b
        → Names a q → ¬ Names b q }
{}
