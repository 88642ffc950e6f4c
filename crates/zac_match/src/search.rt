//! The search for augmenting paths.

ghost use Rattle.std.specs.Prelude.{ℕ, ◌≡◌, ◌+◌, ◌<◌, ◌≤◌, ◌^◌, Bool, List, None, Some, true, length, IfOk, IfSome, IfNone, OnOk, MatchBool, vec_len};
ghost use Rattle.std.specs.List.{Contains};
ghost use Rattle.zac_match.specs.Chains.{AreChained};
ghost use Rattle.zac_match.specs.Choice.{EndsBelow};
ghost use Rattle.zac_pairing.specs.Pairing.{mate, free_count};
ghost use Rattle.zac_match.specs.Cover.{is_edge, IsMarked, IsClosed};
ghost use Rattle.zac_pairing.specs.Tree.{AllPass, HasPairs, IsTree, left_at};
ghost use Rattle.zac_match.specs.Search.{IsSearch, Closes, Visits, unmarked_count};

use crate::neighbours::Neighbours;
use std::alloc::AllocError;
use zac_pairing::{End, Pairing, Step, flip};

/// Looks at a right vertex from the vertex of one step: is it unmarked, with no mate? If it has a
/// mate, it is marked, and the mate is added to the steps.
fn visit(
    mates: &Pairing,
    marks: &mut Vec<bool>,
    steps: &mut Vec<Step>,
    right: u32,
    from: usize,
) -> Result<bool, AllocError>
    requires right_in { right < vec_len mates.now.right }
    requires marks_len { vec_len marks.old ≡ vec_len mates.now.right }
    ensures marks_len { vec_len marks.new ≡ vec_len marks.old }
    ensures outcome { IfOk result (λ is_end. MatchBool is_end
        ((mate mates.now.right.items right ≡ None) × (marks.new.items ≡ marks.old.items)
        × (steps.new.items ≡ steps.old.items))
        (Visits mates.now.right.items right from marks.old.items marks.new.items steps.old.items
        steps.new.items)) }
{
    if marks[right as usize] {
        return Ok(false);
    }
    match mates.right[right as usize] {
        None => Ok(true),
        Some(left) => {
            steps.push(Step { left, from })?;
            marks[right as usize] = true;
            Ok(false)
        }
    }
}

/// Looks at each edge of the vertex of one step, for a right vertex with no mate. Marks the others,
/// and adds their mates to the steps.
fn expand(
    pairs: &[(u32, u32)],
    neighbours: &Neighbours,
    mates: &Pairing,
    marks: &mut Vec<bool>,
    steps: &mut Vec<Step>,
    from: usize,
) -> Result<Option<u32>, AllocError>
    requires from_in { from < length steps.old.items }
    requires chained { AreChained pairs.now neighbours.now.last.items neighbours.now.before.items
        (length pairs.now) }
    requires in_range { EndsBelow (vec_len mates.now.left) (vec_len mates.now.right) pairs.now }
    requires marks_len { vec_len marks.old ≡ vec_len mates.now.right }
    requires last_len { vec_len neighbours.now.last ≡ vec_len mates.now.left }
    requires before_len { vec_len neighbours.now.before ≡ length pairs.now }
    requires left_in { left_at steps.old.items from < vec_len mates.now.left }
    ensures marks_len { vec_len marks.new ≡ vec_len marks.old }
    ensures keeps { OnOk result ((before : List Bool) →
        IsSearch pairs.now mates.now.left.items mates.now.right.items before marks.old.items
        steps.old.items →
        IsSearch pairs.now mates.now.left.items mates.now.right.items before marks.new.items
        steps.new.items) }
    ensures count { OnOk result (unmarked_count marks.new.items + vec_len steps.new
        ≡ unmarked_count marks.old.items + vec_len steps.old) }
    ensures longer { OnOk result (vec_len steps.old ≤ vec_len steps.new) }
    ensures steps_stay { OnOk result ((j : ℕ) → j < vec_len steps.old →
        left_at steps.new.items j ≡ left_at steps.old.items j) }
    ensures marks_stay { OnOk result ((v : ℕ) → IsMarked marks.old.items v →
        IsMarked marks.new.items v) }
    ensures found { IfOk result (λ end. IfSome end (λ v.
        (is_edge pairs.now (left_at steps.old.items from) v ≡ true)
        × (v < vec_len mates.now.right)
        × (mate mates.now.right.items v ≡ None))) }
    ensures failed { IfOk result (λ end. IfNone end ((v : ℕ) →
        Contains pairs.now (left_at steps.old.items from, v) → IsMarked marks.new.items v)) }
{
    let left = steps[from].left;
    let mut edge = neighbours.last[left as usize];
    while let Some(number) = edge {
        let right = pairs[number].1;
        if visit(mates, marks, steps, right, from)? {
            return Ok(Some(right));
        }
        edge = neighbours.before[number];
    }
    Ok(None)
}

/// Searches, nearest first, for an augmenting path that begins at `root`, past unmarked vertices
/// alone. The steps are those that it took.
fn search(
    pairs: &[(u32, u32)],
    neighbours: &Neighbours,
    mates: &Pairing,
    marks: &mut Vec<bool>,
    steps: &mut Vec<Step>,
    root: u32,
) -> Result<Option<End>, AllocError>
    requires chained { AreChained pairs.now neighbours.now.last.items neighbours.now.before.items
        (length pairs.now) }
    requires in_range { EndsBelow (vec_len mates.now.left) (vec_len mates.now.right) pairs.now }
    requires marks_len { vec_len marks.old ≡ vec_len mates.now.right }
    requires last_len { vec_len neighbours.now.last ≡ vec_len mates.now.left }
    requires before_len { vec_len neighbours.now.before ≡ length pairs.now }
    requires root_in { root < vec_len mates.now.left }
    requires root_free { mate mates.now.left.items root ≡ None }
    ensures marks_len { vec_len marks.new ≡ vec_len marks.old }
    ensures tree { IfOk result (λ end. IfSome end (λ e.
        IsTree mates.now.left.items steps.new.items (length steps.new.items))) }
    ensures edges { IfOk result (λ end. IfSome end (λ e.
        HasPairs (is_edge pairs.now) mates.now.left.items steps.new.items (length steps.new.items))) }
    ensures end { IfOk result (λ end. IfSome end (λ e. (e.from < length steps.new.items)
        × (is_edge pairs.now (left_at steps.new.items e.from) e.right ≡ true)
        × (e.right < vec_len mates.now.right)
        × (mate mates.now.right.items e.right ≡ None))) }
    ensures failed { IfOk result (λ end. IfNone end
        (Closes pairs.now mates.now.left.items mates.now.right.items marks.old.items
        marks.new.items root)) }
{
    steps.clear();
    steps.push(Step {
        left: root,
        from: 0,
    })?;
    let mut from = 0;
    while from < steps.len() {
        if let Some(right) = expand(pairs, neighbours, mates, marks, steps, from)? {
            return Ok(Some(End { from, right }));
        }
        from += 1;
    }
    Ok(None)
}

/// Searches from one left vertex, if it has no mate, and flips the path that it finds. It answers
/// whether it found one.
fn grow(
    pairs: &[(u32, u32)],
    neighbours: &Neighbours,
    mates: &mut Pairing,
    marks: &mut Vec<bool>,
    steps: &mut Vec<Step>,
    root: u32,
) -> Result<bool, AllocError>
    requires chained { AreChained pairs.now neighbours.now.last.items neighbours.now.before.items
        (length pairs.now) }
    requires in_range { EndsBelow (vec_len mates.old.left) (vec_len mates.old.right) pairs.now }
    requires edges { AllPass (is_edge pairs.now) mates.old.left.items }
    requires marks_len { vec_len marks.old ≡ vec_len mates.old.right }
    requires last_len { vec_len neighbours.now.last ≡ vec_len mates.old.left }
    requires before_len { vec_len neighbours.now.before ≡ length pairs.now }
    requires root_in { root < vec_len mates.old.left }
    ensures edges { AllPass (is_edge pairs.now) mates.new.left.items }
    ensures left_len { vec_len mates.new.left ≡ vec_len mates.old.left }
    ensures right_len { vec_len mates.new.right ≡ vec_len mates.old.right }
    ensures marks_len { vec_len marks.new ≡ vec_len marks.old }
    ensures outcome { IfOk result (λ grown. MatchBool grown
        (free_count mates.new.right.items < free_count mates.old.right.items)
        ((free_count mates.new.right.items ≡ free_count mates.old.right.items)
        × (IsClosed pairs.now mates.old.left.items mates.old.right.items marks.old.items root →
        IsClosed pairs.now mates.new.left.items mates.new.right.items marks.new.items
        (root + 1)))) }
{
    if mates.left[root as usize].is_some() {
        return Ok(false);
    }
    match search(pairs, neighbours, mates, marks, steps, root)? {
        None => Ok(false),
        Some(end) => {
            flip(mates, steps, end);
            Ok(true)
        }
    }
}

/// Searches from each left vertex with no mate, and flips each path that it finds. It marks each
/// right vertex at most once. It answers whether it found a path; if not, the marks prove that no
/// path is left.
pub fn pass(
    pairs: &[(u32, u32)],
    neighbours: &Neighbours,
    mates: &mut Pairing,
    marks: &mut Vec<bool>,
    steps: &mut Vec<Step>,
) -> Result<bool, AllocError>
    requires chained { AreChained pairs.now neighbours.now.last.items neighbours.now.before.items
        (length pairs.now) }
    requires in_range { EndsBelow (vec_len mates.old.left) (vec_len mates.old.right) pairs.now }
    requires edges { AllPass (is_edge pairs.now) mates.old.left.items }
    requires marks_len { vec_len marks.old ≡ vec_len mates.old.right }
    requires last_len { vec_len neighbours.now.last ≡ vec_len mates.old.left }
    requires before_len { vec_len neighbours.now.before ≡ length pairs.now }
    requires left_small { vec_len mates.old.left < 2 ^ 32 }
    ensures edges { AllPass (is_edge pairs.now) mates.new.left.items }
    ensures left_len { vec_len mates.new.left ≡ vec_len mates.old.left }
    ensures right_len { vec_len mates.new.right ≡ vec_len mates.old.right }
    ensures marks_len { vec_len marks.new ≡ vec_len marks.old }
    ensures outcome { IfOk result (λ grown. MatchBool grown
        (free_count mates.new.right.items < free_count mates.old.right.items)
        (IsClosed pairs.now mates.new.left.items mates.new.right.items marks.new.items
        (vec_len mates.new.left))) }
{
    for mark in marks.iter_mut() {
        *mark = false;
    }
    let mut grown = false;
    for root in 0..mates.left.len() {
        if grow(pairs, neighbours, mates, marks, steps, root as u32)? {
            grown = true;
        }
    }
    Ok(grown)
}
