//! What the definitions say of angles, and the limits of a program, as laws. Each holds of every angle, or of every program.

ghost use Rattle.std.specs.Prelude.{◌≡◌, ◌⊎◌, ℕ, [], List, map};
ghost use Rattle.qasm_form.specs.declared.stmt.Node.{Node};
ghost use Rattle.qasm_form.specs.Postfix.{IsPostfix};
ghost use Rattle.qasm_names.specs.Accepted.{Program, AreAdmissible};
ghost use Rattle.qasm_names.specs.Scopes.{AreAdmissibleInHeader};
ghost use Rattle.qasm_expand.specs.Angles as angle;
ghost use Rattle.qasm_expand.specs.Angles.{tree_of};
ghost use Rattle.qasm_expand.specs.Trees.{Tree, postfix, tree_with_angles};
ghost use Rattle.qasm_expand.specs.Expansion.{IsWithinLimits, PassesFirst};
ghost use Rattle.qasm_expand.specs.declared.fault.LimitKind.{LimitKind};

use qasm_names::gates_are_well_bound;

/// Trees and the lists of nodes that are expressions go one to one: a tree's nodes in postfix order are an expression, from
/// which the tree is read back, and an expression is the postfix order of the tree that is read from it. To put angles in
/// for parameters among the nodes is to put their trees in.
pub fn angles_are_trees()
    ensures reads { (t : Tree) → tree_of (postfix t) ≡ t }
    ensures each { (nodes : List Node) → IsPostfix nodes → postfix (tree_of nodes) ≡ nodes }
    ensures is_expression { (t : Tree) → IsPostfix (postfix t) }
    ensures substituted { (angles : List (List ℕ × Tree)) (t : Tree)
        → angle.substitute (map (λ (a : List ℕ × Tree). (a.0, postfix a.1)) angles) (postfix t) ≡ postfix (tree_with_angles angles t) }
{}

/// A program has one answer: it is within the limits, or it passes one limit first, with one count. That it has any asks
/// that none of its statements and of its header's is refused.
pub fn one_limit()
    ensures some { (p : Program) → AreAdmissibleInHeader [] p.header → AreAdmissible p.header [] p.statements
        → IsWithinLimits p ⊎ ((kind : LimitKind) × (count : ℕ) × PassesFirst p kind count) }
    ensures one_first { (p : Program) (kind other : LimitKind) (count more : ℕ) → PassesFirst p kind count
        → PassesFirst p other more → (kind ≡ other) × (count ≡ more) }
    ensures not_both { (p : Program) (kind : LimitKind) (count : ℕ) → IsWithinLimits p → ¬ PassesFirst p kind count }
{
    gates_are_well_bound();
}
