//! The numbers in expressions, each of at most 40 bytes.

ghost use Rattle.std.specs.Prelude.{◌≡◌};
ghost use Rattle.std.specs.List.{flat_map};
ghost use Rattle.qasm_expand.specs.Limits.{literal_of, literals_in, statement_literals, passed_by_literals};
ghost use Rattle.qasm_expand.specs.Literals.{body_literals};

use crate::fault::LimitKind;
use qasm_form::{BodyOp, Expr, Node, Stmt};

/// The most bytes of a number.
const MOST: usize = 40;

/// Whether the node is a number that is too long, with its length.
fn passed_by_number(node: &Node) -> Option<(LimitKind, u64)>
    ensures { result ≡ passed_by_literals (literal_of node.now) }
{
    match node {
        Node::Number { text } if text.as_slice().len() > MOST => {
            Some((LimitKind::Literal, text.as_slice().len() as u64))
        }
        _ => None,
    }
}

/// The first number that is too long, among these nodes.
pub(crate) fn passed_in_nodes(nodes: &[Node]) -> Option<(LimitKind, u64)>
    ensures { result ≡ passed_by_literals (flat_map literal_of nodes.now) }
{
    for node in nodes {
        let passed = passed_by_number(node);
        if passed.is_some() {
            return passed;
        }
    }
    None
}

/// The first number that is too long, among these expressions.
fn passed_in_exprs(exprs: &[Expr]) -> Option<(LimitKind, u64)>
    ensures { result ≡ passed_by_literals (literals_in exprs.now) }
{
    for expr in exprs {
        let passed = passed_in_nodes(expr.as_slice());
        if passed.is_some() {
            return passed;
        }
    }
    None
}

/// The first number that is too long, in this body.
fn passed_in_body(body: &[BodyOp]) -> Option<(LimitKind, u64)>
    ensures { result ≡ passed_by_literals (body_literals body.now) }
{
    for op in body {
        let passed = passed_in_exprs(op.exprs.as_slice());
        if passed.is_some() {
            return passed;
        }
    }
    None
}

/// The first number that is too long, in this statement.
fn passed_in_statement(stmt: &Stmt) -> Option<(LimitKind, u64)>
    ensures { result ≡ passed_by_literals (statement_literals stmt.now) }
{
    match stmt {
        Stmt::Call { call } => passed_in_exprs(call.exprs.as_slice()),
        Stmt::Gate { body, .. } => passed_in_body(body.as_slice()),
        _ => None,
    }
}

/// The first number that is too long, in the order of the source.
pub(crate) fn passed_by_literals(statements: &[Stmt]) -> Option<(LimitKind, u64)>
    ensures { result ≡ passed_by_literals (flat_map statement_literals statements.now) }
{
    for stmt in statements {
        let passed = passed_in_statement(stmt);
        if passed.is_some() {
            return passed;
        }
    }
    None
}
