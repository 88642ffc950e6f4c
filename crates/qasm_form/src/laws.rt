//! What the definitions say of an expression's numbers, as laws. Each holds of every text, or of every list of nodes.

ghost use Rattle.std.specs.Prelude.{◌≡◌, ℕ, ◌<◌, List, Some, length, slice_get, IsTrue};
ghost use Rattle.std.specs.List.{AllByRecursion, list_all};
ghost use Rattle.zac_gates.specs.Angle.{is_angle_byte};
ghost use Rattle.qasm_form.specs.declared.stmt.Node.{Node};
ghost use Rattle.qasm_form.specs.Numbers.{HasNumber, IsNumber};

/// The text of a number has a byte at least, and each of its bytes may stand in the text of an angle.
pub fn numbers_have_angle_bytes()
    ensures { (text : List ℕ) → IsNumber text → (0 < length text) × IsTrue (list_all is_angle_byte text) }
{}

/// Where the text of each number node is a number, that of the node at any place is one.
pub fn each_node_has_its_number()
    ensures { (nodes : List Node) (k : ℕ) (node : Node) → AllByRecursion HasNumber nodes
        → slice_get nodes k ≡ Some node → HasNumber node }
{}
