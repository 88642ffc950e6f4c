//! Nodes of angles.

ghost use Rattle.std.specs.Prelude.{◌≡◌};
ghost use Rattle.qasm_expand.specs.AngleNodes.{arity_of};

use qasm_form::Node;

/// How many operands a node takes.
#[derive(Clone, Copy)]
pub(crate) enum Arity {
    Leaf,
    One,
    Two,
}

/// How many operands this node takes.
pub(crate) fn arity_of(node: &Node) -> Arity
    ensures { result ≡ arity_of node.now }
{
    match node {
        Node::Number { text: _ } | Node::Pi | Node::Name { name: _, at: _ } => Arity::Leaf,
        Node::Negate | Node::Apply { function: _ } => Arity::One,
        Node::Plus | Node::Minus | Node::Times | Node::Over | Node::Power => Arity::Two,
    }
}
