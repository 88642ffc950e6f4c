//! The texts of angles.

ghost use Rattle.std.specs.Prelude.{◌≡◌, ◌++◌, ℕ, ◌≤◌, List, length, reverse, codes, IfOk, OnOk};
ghost use Rattle.qasm_expand.specs.AngleNodes.{HasNoNames};
ghost use Rattle.qasm_expand.specs.AngleReadings.{leaf_text, one_text, sign_text, texts, two_text};
ghost use Rattle.qasm_expand.specs.Angles.{angle_text};
ghost use Rattle.qasm_expand.specs.StackReadings.{on_one, on_two, read_node};

use crate::angle_node::{Arity, arity_of};
use crate::angle_stack::{pop, push};
use qasm_form::laws::numbers_have_angle_bytes;
use qasm_form::{Expr, Function, Node};
use std::alloc::Global;
use zac_gates::{Angle, Bytes, List, Memory};

/// Equal bytes.
fn copy_bytes(alloc: Global, bytes: &[u8]) -> Result<Bytes, Memory>
    ensures { IfOk result (λ copy. copy ≡ bytes.now) }
{
    let copy = Vec::from_slice(alloc, bytes)?;
    Ok(List::of(copy))
}

/// The text of a leaf.
fn text_of_leaf(alloc: Global, node: &Node) -> Result<Bytes, Memory>
    ensures { IfOk result (λ text. text ≡ leaf_text node.now) }
{
    match node {
        Node::Number { text } => copy_bytes(alloc, text.as_slice()),
        Node::Name { name, at: _ } => copy_bytes(alloc, name.as_slice()),
        Node::Pi => copy_bytes(alloc, b"pi"),
        _ => Ok(List::of(Vec::new(alloc))),
    }
}

/// What stands before the operand of an operator that takes one.
fn opening(node: &Node) -> &'static [u8]
    ensures { (operand : List ℕ) → one_text node.now operand ≡ result.now ++ (operand ++ codes ")") }
{
    match node {
        Node::Apply { function } => match function {
            Function::Sin => b"sin(",
            Function::Cos => b"cos(",
            Function::Tan => b"tan(",
            Function::Exp => b"exp(",
            Function::Ln => b"ln(",
            Function::Sqrt => b"sqrt(",
        },
        _ => b"(-",
    }
}

/// The sign between the operands of an operator that takes two.
fn sign(node: &Node) -> &'static [u8]
    ensures { result.now ≡ sign_text node.now }
{
    match node {
        Node::Plus => b"+",
        Node::Minus => b"-",
        Node::Times => b"*",
        Node::Over => b"/",
        _ => b"^",
    }
}

/// The text of an operator that takes one operand.
fn text_of_one(alloc: Global, node: &Node, operand: &[u8]) -> Result<Bytes, Memory>
    ensures { IfOk result (λ text. text ≡ one_text node.now operand.now) }
{
    let mut text = Vec::from_slice(alloc, opening(node))?;
    text.extend_from_slice(operand)?;
    text.extend_from_slice(b")")?;
    Ok(List::of(text))
}

/// The text of an operator that takes two operands.
fn text_of_two(alloc: Global, node: &Node, left: &[u8], right: &[u8]) -> Result<Bytes, Memory>
    ensures { IfOk result (λ text. text ≡ two_text node.now left.now right.now) }
{
    let mut text = Vec::from_slice(alloc, b"(")?;
    text.extend_from_slice(left)?;
    text.extend_from_slice(sign(node))?;
    text.extend_from_slice(right)?;
    text.extend_from_slice(b")")?;
    Ok(List::of(text))
}

/// The text of an operand becomes that of its operator.
fn join_one(alloc: Global, stack: &mut Vec<Bytes>, node: &Node) -> Result<(), Memory>
    ensures { OnOk result (reverse stack.new.items ≡ on_one (one_text node.now) (reverse stack.old.items)) }
{
    match pop(stack) {
        None => Ok(()),
        Some(operand) => push(stack, text_of_one(alloc, node, operand.as_slice())?),
    }
}

/// The texts of two operands become that of their operator.
fn join_two(alloc: Global, stack: &mut Vec<Bytes>, node: &Node) -> Result<(), Memory>
    ensures { OnOk result (reverse stack.new.items ≡ on_two (two_text node.now) (reverse stack.old.items)) }
{
    let Some(right) = pop(stack) else {
        return Ok(());
    };
    match pop(stack) {
        None => push(stack, right),
        Some(left) => push(
            stack,
            text_of_two(alloc, node, left.as_slice(), right.as_slice())?,
        ),
    }
}

/// Reads a node with the texts of the operands before it.
fn read_text(alloc: Global, stack: &mut Vec<Bytes>, node: &Node) -> Result<(), Memory>
    ensures { OnOk result (reverse stack.new.items ≡ read_node texts node.now (reverse stack.old.items)) }
{
    match arity_of(node) {
        Arity::Leaf => push(stack, text_of_leaf(alloc, node)?),
        Arity::One => join_one(alloc, stack, node),
        Arity::Two => join_two(alloc, stack, node),
    }
}

/// The bytes of an expression's text.
pub(crate) fn text_bytes(alloc: Global, nodes: &[Node]) -> Result<Bytes, Memory>
    ensures { IfOk result (λ text. text ≡ angle_text nodes.now) }
{
    let mut stack = Vec::new(alloc);
    for node in nodes {
        read_text(alloc, &mut stack, node)?;
    }
    match pop(&mut stack) {
        None => Ok(List::of(Vec::new(alloc))),
        Some(text) => Ok(text),
    }
}

/// The text of an angle: a number as its source has it, each operator with its operands in parentheses.
pub(crate) fn angle_text_of(alloc: Global, angle: &Expr) -> Result<Angle, Memory>
    requires few { length angle.now ≤ 256 }
    requires closed { HasNoNames angle.now }
    ensures { IfOk result (λ text. text ≡ angle_text angle.now) }
{
    numbers_have_angle_bytes();
    let text = text_bytes(alloc, angle.as_slice())?;
    match Angle::new(text) {
        Ok(angle) => Ok(angle),
        Err(_) => unreachable!(),
    }
}
