//! Copies of expressions.

ghost use Rattle.std.specs.Prelude.{◌≡◌, IfOk};

use crate::stmt::{Expr, Node};
use std::alloc::Global;
use zac_gates::{Bytes, List, Memory};

/// Equal bytes.
fn copy_bytes(alloc: Global, bytes: &Bytes) -> Result<Bytes, Memory>
    ensures { IfOk result (λ copy. copy ≡ bytes.now) }
{
    let copy = Vec::from_slice(alloc, bytes.as_slice())?;
    Ok(List::of(copy))
}

impl Node {
    /// An equal node.
    pub fn copy(&self, alloc: Global) -> Result<Node, Memory>
        ensures { IfOk result (λ copy. copy ≡ self.now) }
    {
        match self {
            Node::Number { text } => Ok(Node::Number {
                text: copy_bytes(alloc, text)?,
            }),
            Node::Name { name, at } => Ok(Node::Name {
                name: copy_bytes(alloc, name)?,
                at: *at,
            }),
            Node::Apply { function } => Ok(Node::Apply {
                function: *function,
            }),
            Node::Pi => Ok(Node::Pi),
            Node::Negate => Ok(Node::Negate),
            Node::Plus => Ok(Node::Plus),
            Node::Minus => Ok(Node::Minus),
            Node::Times => Ok(Node::Times),
            Node::Over => Ok(Node::Over),
            Node::Power => Ok(Node::Power),
        }
    }
}

impl Expr {
    /// An equal expression.
    pub fn copy(&self, alloc: Global) -> Result<Expr, Memory>
        ensures { IfOk result (λ copy. copy ≡ self.now) }
    {
        let mut nodes = Vec::new(alloc);
        for node in self.as_slice() {
            nodes.push(node.copy(alloc)?)?;
        }
        Ok(Expr {
            nodes: List::of(nodes),
        })
    }
}
