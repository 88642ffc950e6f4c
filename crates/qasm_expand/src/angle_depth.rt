//! The depth of an angle.

ghost use Rattle.std.specs.Prelude.{◌≡◌, ◌+◌, ◌^◌, ◌<◌, suc, max, reverse, IfOk, OnOk};
ghost use Rattle.std.specs.List.{AllByRecursion};
ghost use Rattle.qasm_expand.specs.AngleReadings.{depths};
ghost use Rattle.qasm_expand.specs.Angles.{depth_of};
ghost use Rattle.qasm_expand.specs.StackReadings.{on_one, on_two, read_node};

use crate::angle_node::{Arity, arity_of};
use crate::angle_stack::{pop, push};
use qasm_form::{Expr, Node};
use std::alloc::Global;
use zac_gates::Memory;

/// The depth of an operand becomes that of its operator.
fn deepen_one(depths: &mut Vec<u64>) -> Result<(), Memory>
    requires { AllByRecursion (λ d. d + 1 < 2 ^ 64) (reverse depths.old.items) }
    ensures { OnOk result (reverse depths.new.items ≡ on_one (λ d. suc d) (reverse depths.old.items)) }
{
    match pop(depths) {
        None => Ok(()),
        Some(operand) => push(depths, operand + 1),
    }
}

/// The depths of two operands become that of their operator.
fn deepen_two(depths: &mut Vec<u64>) -> Result<(), Memory>
    requires { AllByRecursion (λ d. d + 1 < 2 ^ 64) (reverse depths.old.items) }
    ensures { OnOk result (reverse depths.new.items ≡ on_two (λ d e. suc (max d e)) (reverse depths.old.items)) }
{
    let Some(right) = pop(depths) else {
        return Ok(());
    };
    match pop(depths) {
        None => push(depths, right),
        Some(left) => push(depths, left.max(right) + 1),
    }
}

/// Reads a node with the depths of the operands before it.
fn read_depth(stack: &mut Vec<u64>, node: &Node) -> Result<(), Memory>
    requires { AllByRecursion (λ d. d + 1 < 2 ^ 64) (reverse stack.old.items) }
    ensures { OnOk result (reverse stack.new.items ≡ read_node depths node.now (reverse stack.old.items)) }
{
    match arity_of(node) {
        Arity::Leaf => push(stack, 1),
        Arity::One => deepen_one(stack),
        Arity::Two => deepen_two(stack),
    }
}

/// The depth of an angle, where a leaf has depth 1.
pub(crate) fn depth(alloc: Global, angle: &Expr) -> Result<u64, Memory>
    ensures { IfOk result (λ depth. depth ≡ depth_of angle.now) }
{
    let mut stack = Vec::new(alloc);
    for node in angle.as_slice() {
        read_depth(&mut stack, node)?;
    }
    Ok(pop(&mut stack).unwrap_or(0))
}
