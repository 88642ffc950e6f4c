//! What a walk over calls has counted and written.

ghost use Rattle.std.specs.Prelude.{◌≤◌};

use crate::angle_limit::{past, substitute_within};
use crate::fault::{ExpandFault, LimitKind};
use crate::limit::refuse;
use qasm_form::Expr;
use std::alloc::Global;
use zac_gates::{Bytes, List, Op};

/// The most calls of a program.
const MOST_CALLS: u128 = 262_144;

/// The greatest depth of a call.
const MOST_DEPTH: u128 = 64;

/// How many calls and nodes of angles were counted, and the ops that were written.
#[derive(Drop)]
pub(crate) struct Walk {
    /// The calls.
    pub calls: u64,
    /// The nodes of their angles.
    pub nodes: u64,
    /// The ops.
    pub ops: Vec<Op>,
    ghost few_calls: { calls ≤ 262144 },
    ghost few_nodes: { nodes ≤ 4194304 },
}

impl Walk {
    ghost use Rattle.std.specs.Prelude.{◌≡◌, [], ◌∷◌, zip, OnOk, IfOk, IfErr};
    ghost use Rattle.qasm_expand.specs.Angles.{substitute};
    ghost use Rattle.qasm_expand.specs.Faults.{IsLimit, IsFault};
    ghost use Rattle.qasm_expand.specs.Limits.{passed_by_angles};
    ghost use Rattle.qasm_expand.specs.Walks.{CountsCall, CountsAngles, passed_by_call, angles_in};

    /// Nothing is counted or written.
    pub(crate) fn new(alloc: Global) -> Walk
        ensures calls { result.calls ≡ 0 }
        ensures nodes { result.nodes ≡ 0 }
        ensures ops { result.ops.items ≡ [] }
    {
        Walk {
            calls: 0,
            nodes: 0,
            ops: Vec::new(alloc),
        }
    }

    /// The ops that were written, in their order.
    pub(crate) fn into_ops(self) -> List<Op>
        ensures { result ≡ self.ops.items }
    {
        List::of(self.ops)
    }

    /// Counts a call of this depth.
    ///
    /// `Limit` tells the first limit that is passed.
    pub(crate) fn count_call(&mut self, depth: u64) -> Result<(), ExpandFault>
        ensures ok { OnOk result (CountsCall self.old self.new depth) }
        ensures err { IfErr result (IsLimit (passed_by_call self.old.calls depth)) }
    {
        let calls = self.calls + 1;
        refuse(past(LimitKind::Calls, MOST_CALLS, calls as u128))?;
        refuse(past(LimitKind::Depth, MOST_DEPTH, depth as u128))?;
        self.calls = calls;
        Ok(())
    }

    /// An angle of a call in a body, counted before it is built.
    fn angle(
        &mut self,
        alloc: Global,
        expr: &Expr,
        params: &[Bytes],
        outer: &[Expr],
    ) -> Result<Expr, ExpandFault>
        ensures is { IfOk result (λ angle. angle ≡ substitute (zip params.now outer.now) expr.now) }
        ensures ok { IfOk result (λ angle. CountsAngles self.old self.new (angle ∷ [])) }
        ensures err { IfErr result
            (IsFault (passed_by_angles self.old.nodes (substitute (zip params.now outer.now) expr.now ∷ []))) }
    {
        let angle = substitute_within(alloc, self.nodes, expr, params, outer)?;
        self.nodes += angle.as_slice().len() as u64;
        Ok(angle)
    }

    /// The angles of a call in a body, of a gate with these parameters that is called with the outer angles. Each is
    /// counted before it is built.
    pub(crate) fn angles(
        &mut self,
        alloc: Global,
        exprs: &[Expr],
        params: &[Bytes],
        outer: &[Expr],
    ) -> Result<List<Expr>, ExpandFault>
        ensures are { IfOk result (λ angles. angles ≡ angles_in params.now outer.now exprs.now) }
        ensures ok { IfOk result (λ angles. CountsAngles self.old self.new angles) }
        ensures err { IfErr result (IsFault (passed_by_angles self.old.nodes (angles_in params.now outer.now exprs.now))) }
    {
        let mut angles = Vec::new(alloc);
        for expr in exprs {
            let angle = self.angle(alloc, expr, params, outer)?;
            angles.push(angle)?;
        }
        Ok(List::of(angles))
    }
}
