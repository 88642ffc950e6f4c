//! Angles put in for the parameters of a gate.

ghost use Rattle.std.specs.Prelude.{◌≡◌, ◌++◌, length, zip, IfOk, OnOk};
ghost use Rattle.std.specs.Map.{lookup};
ghost use Rattle.std.specs.Option.{option_copied};
ghost use Rattle.std.specs.Str.{bytes_eq};
ghost use Rattle.qasm_expand.specs.AngleNodes.{StandsFor};
ghost use Rattle.qasm_expand.specs.Angles.{substitute, replaced};

use qasm_form::{Expr, Node};
use std::alloc::Global;
use zac_gates::{Bytes, List, Memory};

/// The angle for the parameter of this name: of parameters of one name the first. Each parameter has its angle at its place.
fn angle_for<'a>(name: &[u8], params: &[Bytes], angles: &'a [Expr]) -> Option<&'a Expr>
    ensures { option_copied result ≡ lookup (bytes_eq name.now) (zip params.now angles.now) }
{
    for (place, param) in params.iter().enumerate() {
        if name == param.as_slice() {
            return angles.get(place);
        }
    }
    None
}

/// How many nodes stand for this one once the angles are put in.
fn replaced_count(node: &Node, params: &[Bytes], angles: &[Expr]) -> usize
    ensures { result ≡ length (replaced (zip params.now angles.now) node.now) }
{
    match node {
        Node::Name { name, at: _ } => match angle_for(name.as_slice(), params, angles) {
            None => 1,
            Some(angle) => angle.as_slice().len(),
        },
        _ => 1,
    }
}

/// How many nodes an expression has once the angles are put in for the parameters. Nothing is built.
pub(crate) fn node_count(nodes: &[Node], params: &[Bytes], angles: &[Expr]) -> u128
    ensures { result ≡ length (substitute (zip params.now angles.now) nodes.now) }
{
    let mut count = 0;
    for node in nodes {
        count += replaced_count(node, params, angles) as u128;
    }
    count
}

/// Adds equal nodes at the end.
fn push_copies(alloc: Global, nodes: &mut Vec<Node>, more: &[Node]) -> Result<(), Memory>
    ensures { OnOk result (nodes.new.items ≡ nodes.old.items ++ more.now) }
{
    for node in more {
        let copy = node.copy(alloc)?;
        nodes.push(copy)?;
    }
    Ok(())
}

/// Adds what stands for a node once the angles are put in.
fn push_replaced(
    alloc: Global,
    nodes: &mut Vec<Node>,
    node: &Node,
    params: &[Bytes],
    angles: &[Expr],
) -> Result<(), Memory>
    ensures nodes { OnOk result (nodes.new.items ≡ nodes.old.items ++ replaced (zip params.now angles.now) node.now) }
    ensures stands { OnOk result (StandsFor node.now (replaced (zip params.now angles.now) node.now)) }
{
    if let Node::Name { name, at: _ } = node {
        if let Some(angle) = angle_for(name.as_slice(), params, angles) {
            return push_copies(alloc, nodes, angle.as_slice());
        }
    }
    let copy = node.copy(alloc)?;
    nodes.push(copy)?;
    Ok(())
}

/// An expression with the angles put in for the parameters, each at its place. A name that is no parameter stays.
pub(crate) fn substitute(
    alloc: Global,
    expr: &Expr,
    params: &[Bytes],
    angles: &[Expr],
) -> Result<Expr, Memory>
    ensures { IfOk result (λ made. made ≡ substitute (zip params.now angles.now) expr.now) }
{
    let mut nodes = Vec::new(alloc);
    for node in expr.as_slice() {
        push_replaced(alloc, &mut nodes, node, params, angles)?;
    }
    Ok(Expr {
        nodes: List::of(nodes),
    })
}
