//! The limits of angles.

ghost use Rattle.std.specs.Prelude.{◌≡◌, ℕ, [], ◌∷◌, zip, Some, None, IfOk, IsErrOf};
ghost use Rattle.qasm_expand.specs.Angles.{substitute};
ghost use Rattle.qasm_expand.specs.Limits.{beyond, passed_by_angles};

use crate::angle_depth::depth;
use crate::fault::{ExpandFault, LimitKind};
use crate::substitution::{node_count, substitute};
use qasm_form::Expr;
use std::alloc::Global;
use zac_gates::{Bytes, Memory};

/// The most nodes of an angle.
const MOST_NODES: u128 = 256;

/// The greatest depth of an angle.
const MOST_DEPTH: u128 = 64;

/// The most nodes of all angles.
const MOST_TOTAL: u128 = 4_194_304;

/// The limit with the count, where the count passes it.
pub(crate) fn past(kind: LimitKind, most: u128, count: u128) -> Option<(LimitKind, u64)>
    ensures { result ≡ beyond kind most count }
{
    if count <= most {
        None
    } else if count <= u64::MAX as u128 {
        Some((kind, count as u64))
    } else {
        Some((kind, u64::MAX))
    }
}

/// The first limit that an angle passes behind angles of so many nodes.
pub(crate) fn angle_limit(
    alloc: Global,
    before: u64,
    angle: &Expr,
) -> Result<Option<(LimitKind, u64)>, Memory>
    ensures { IfOk result (λ passed. passed ≡ passed_by_angles before (angle.now ∷ [])) }
{
    let count = angle.as_slice().len() as u128;
    if let Some(passed) = past(LimitKind::AngleNodes, MOST_NODES, count) {
        return Ok(Some(passed));
    }
    let deepest = depth(alloc, angle)?;
    if let Some(passed) = past(LimitKind::AngleDepth, MOST_DEPTH, deepest as u128) {
        return Ok(Some(passed));
    }
    Ok(past(LimitKind::AngleTotal, MOST_TOTAL, before as u128 + count))
}

/// An expression with the angles put in for the parameters, behind angles of so many nodes. The nodes are counted before
/// any is made.
///
/// `Limit` tells the first limit that the angle passes.
pub(crate) fn substitute_within(
    alloc: Global,
    before: u64,
    expr: &Expr,
    params: &[Bytes],
    angles: &[Expr],
) -> Result<Expr, ExpandFault>
    ensures ok { IfOk result (λ made. (made ≡ substitute (zip params.now angles.now) expr.now)
        × (passed_by_angles before (substitute (zip params.now angles.now) expr.now ∷ []) ≡ None)) }
    ensures limit { (kind : LimitKind) → (count : ℕ) → IsErrOf result (ExpandFault.Limit kind count)
        → passed_by_angles before (substitute (zip params.now angles.now) expr.now ∷ []) ≡ Some (kind, count) }
{
    let count = node_count(expr.as_slice(), params, angles);
    if let Some((kind, count)) = past(LimitKind::AngleNodes, MOST_NODES, count) {
        return Err(ExpandFault::Limit { kind, count });
    }
    let made = substitute(alloc, expr, params, angles)?;
    match angle_limit(alloc, before, &made)? {
        None => Ok(made),
        Some((kind, count)) => Err(ExpandFault::Limit { kind, count }),
    }
}
