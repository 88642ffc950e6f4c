//! What "a log realises a list of ops" means, as laws. Each holds of every list and every log.

ghost use Rattle.std.specs.Prelude.{◌≡◌, ℕ, ◌<◌, ◌↔◌, not, List, Some, length, count_by, slice_get, IsPermutation};
ghost use Rattle.zac_gates.specs.declared.circuit.Op.{Op};
ghost use Rattle.zac_gates.specs.Ops.{MustFollow, is_fence};
ghost use Rattle.zac_gates.specs.Checklist.{IsPerformable, IsAllPerformed};
ghost use Rattle.zac_gates.specs.Log.{Entry, Realises, gates_then_reads};

/// Each list is realised by a log: that of its gates in source order and then of its reads in source order.
pub fn each_list_is_realised()
    ensures { (ops : List Op) → Realises ops (gates_then_reads ops) }
{}

/// A log that realises a list has as many entries as the list has ops other than fences.
pub fn realising_logs_miss_nothing()
    ensures { (ops : List Op) (log : List Entry) → Realises ops log
        → length log ≡ count_by (λ op. not (is_fence op)) ops }
{}

/// Two logs that realise one list have the same entries.
pub fn realising_logs_are_alike()
    ensures { (ops : List Op) (one other : List Entry) → Realises ops one
        → Realises ops other → IsPermutation one other }
{}

/// In a log that realises a list, an op that must follow another stands behind it.
pub fn realising_logs_keep_the_order()
    ensures { (ops : List Op) (log : List Entry) (first second i j : ℕ) (a b : Op)
        → Realises ops log → MustFollow ops first second
        → slice_get log i ≡ Some (record { op = first; what = a })
        → slice_get log j ≡ Some (record { op = second; what = b }) → i < j }
{}

/// The logs that realise a list are those whose entries can be performed one after another until nothing but fences
/// is left.
pub fn realising_is_performing_all()
    ensures { (ops : List Op) (log : List Entry) → Realises ops log
        ↔ (IsPerformable ops log × IsAllPerformed ops log) }
{}
