//! The tree of left ends that a search reaches, and the flip of the path that it finds.

ghost use Rattle.std.specs.Prelude.{ℕ, ◌≡◌, ◌+◌, ◌<◌, Bool, None, Some, true, length, IsSome, vec_len};
ghost use Rattle.zac_pairing.specs.Pairing.{mate, free_count};
ghost use Rattle.zac_pairing.specs.Tree.{IsTree, HasPairs, AllPass, left_at};

use crate::pairing::Pairing;

/// A left end that a search reached, and the place of the step from whose left end it was reached;
/// the root names itself.
#[derive(Clone, Copy)]
pub struct Step {
    /// The left end.
    pub left: u32,
    /// The place of the step before it.
    pub from: usize,
}

/// Where a path ends: a right end with no partner, reached from the left end of a step.
#[derive(Clone, Copy)]
pub struct End {
    /// The place of that step.
    pub from: usize,
    /// The right end.
    pub right: u32,
}

/// Flips the path from the root to the end: each left end on it takes the right end that comes after
/// it. The root has a partner from then on, each other left end keeps one, and every pair passes any
/// test that the pairs and the steps passed.
pub fn flip(pairs: &mut Pairing, steps: &[Step], end: End)
    requires tree { IsTree pairs.old.left.items steps.now (length steps.now) }
    requires from_in { end.from < length steps.now }
    requires right_in { end.right < vec_len pairs.old.right }
    requires free { mate pairs.old.right.items end.right ≡ None }
    ensures left_len { vec_len pairs.new.left ≡ vec_len pairs.old.left }
    ensures right_len { vec_len pairs.new.right ≡ vec_len pairs.old.right }
    ensures fewer { free_count pairs.new.right.items + 1 ≡ free_count pairs.old.right.items }
    ensures pass { (test : ℕ → ℕ → Bool) → AllPass test pairs.old.left.items →
        HasPairs test pairs.old.left.items steps.now (length steps.now) →
        test (left_at steps.now end.from) end.right ≡ true → AllPass test pairs.new.left.items }
    ensures stay { (u v : ℕ) → mate pairs.old.left.items u ≡ Some v →
        IsSome (mate pairs.new.left.items u) }
    ensures kept { (v : ℕ) → mate pairs.new.right.items v ≡ None →
        mate pairs.old.right.items v ≡ None }
    ensures root { IsSome (mate pairs.new.left.items (left_at steps.now 0)) }
{
    let mut at = end.from;
    let mut right = end.right;
    loop {
        let step = steps[at];
        match pairs.join(step.left, right) {
            None => return,
            Some(before) => {
                right = before;
                at = step.from;
            }
        }
    }
}
