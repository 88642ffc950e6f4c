//! What replacing each call of a gate by its body comes to, as laws. Each holds of every program.

ghost use Rattle.std.specs.Prelude.{◌≡◌, ◌+◌, [], List, length};
ghost use Rattle.std.specs.List.{AllByRecursion, filter};
ghost use Rattle.zac_gates.specs.Ops.{NativeCircuit, IsValid};
ghost use Rattle.qasm_names.specs.Accepted.{Program, AreAdmissible};
ghost use Rattle.qasm_names.specs.Scopes.{AreAdmissibleInHeader};
ghost use Rattle.qasm_names.specs.declared.gate.GateDef.{GateDef};
ghost use Rattle.qasm_expand.specs.Calls.{Visit, VisitsInOrder, items_in};
ghost use Rattle.qasm_expand.specs.Expansion.{IsExpansion, IsWithinLimits};
ghost use Rattle.qasm_expand.specs.Items.{Item};
ghost use Rattle.qasm_expand.specs.Replacing.{CallsOneOf, Expands, is_plain, replacements};

use qasm_names::gates_are_well_bound;

/// A program has one native list at most.
pub fn one_expansion()
    ensures { (p : Program) (c d : NativeCircuit) → IsExpansion p c → IsExpansion p d → c ≡ d }
{}

/// A program has a native list, whichever limits it passes, where none of its statements and of its header's is refused.
/// In that list each op is in range, and none is on a qubit that was read before it.
pub fn each_program_expands()
    ensures some { (p : Program) → AreAdmissibleInHeader [] p.header → AreAdmissible p.header [] p.statements
        → (c : NativeCircuit) × IsExpansion p c }
    ensures valid { (p : Program) (c : NativeCircuit) → AreAdmissibleInHeader [] p.header
        → AreAdmissible p.header [] p.statements → IsExpansion p c → IsValid c }
{
    gates_are_well_bound();
}

/// The calls that the limits count are those that replacing makes: the ones without a body are what is left, in their
/// order, and each other one was replaced. Where each names a gate that is there, replacing comes to an end. So a program
/// within the limits has its native list from the calls that were counted.
pub fn calls_are_those_of_the_expansion()
    ensures left { (gates : List GateDef) (calls visited : List Visit) (items : List Item) → VisitsInOrder gates calls visited []
        → Expands gates (items_in calls) items → items ≡ filter is_plain (items_in visited) }
    ensures counted { (gates : List GateDef) (calls visited : List Visit) (items : List Item) → VisitsInOrder gates calls visited []
        → (e : Expands gates (items_in calls) items) → length visited ≡ replacements e + length items }
    ensures ends { (gates : List GateDef) (calls visited : List Visit) → VisitsInOrder gates calls visited []
        → AllByRecursion (CallsOneOf gates) (items_in visited)
        → Expands gates (items_in calls) (filter is_plain (items_in visited)) }
    ensures program { (p : Program) (c : NativeCircuit) → (within : IsWithinLimits p) → (expansion : IsExpansion p c)
        → (expansion.items ≡ filter is_plain (items_in within.visited))
        × (length within.visited ≡ replacements expansion.expands + length expansion.items) }
{}
