//! The walk over a call and the calls below it: a stack of the bodies that are being performed.

ghost use Rattle.std.specs.Prelude.{◌≡◌, ◌≢◌, ℕ, ◌<◌, ◌+◌, ◌^◌, [], ◌∷◌, length, map, zip, get_or, take, reverse, OnOk, IfOk, IfErr};
ghost use Rattle.std.specs.List.{AllByRecursion};
ghost use Rattle.std.specs.Option.{option_or};

use crate::angle_stack::{pop, push};
use crate::fault::ExpandFault;
use crate::frame::{Frame, qubits_at};
use crate::walk::Walk;
use crate::write::write_ops;
use qasm_form::Expr;
use qasm_names::{Bound, GateDef, Target};
use smallvec::SmallVec;
use std::alloc::Global;
use zac_gates::{Bytes, List, Op};

impl Walk {
    ghost use Rattle.qasm_expand.specs.Calls.{at_depth};
    ghost use Rattle.qasm_expand.specs.Faults.{IsFault};
    ghost use Rattle.qasm_expand.specs.Items.Item.{Applied, Barrier, Measured};
    ghost use Rattle.qasm_expand.specs.Limits.{passed_by_angles, passed_by_calls};
    ghost use Rattle.qasm_expand.specs.Native.{ops_on};
    ghost use Rattle.qasm_expand.specs.Replacing.{body_call};
    ghost use Rattle.qasm_expand.specs.Walks.{
      AreFit,
      Counts,
      IsSmall,
      OpensFrame,
      Passes,
      Steps,
      VisitsCall,
      Walks,
      AddsOps,
      angles_in,
      behind_call,
      passed_by_call,
      pending,
    };
    ghost use Rattle.qasm_expand.specs.AngleNodes.{HasNoNames, IsExprOver};
    ghost use Rattle.qasm_expand.specs.Fit.{IsFit};
    ghost use Rattle.qasm_expand.specs.Top.{HaveShortNumbers};
    ghost use Rattle.qasm_names.specs.Bound.{IsWellBound};

    /// Counts a call of this depth with its angles, where it stands in the body of a gate with these parameters that is
    /// called with the outer angles.
    fn count(
        &mut self,
        alloc: Global,
        depth: u64,
        exprs: &[Expr],
        params: &[Bytes],
        outer: &[Expr],
    ) -> Result<List<Expr>, ExpandFault>
        ensures are { IfOk result (λ angles. angles ≡ angles_in params.now outer.now exprs.now) }
        ensures ok { IfOk result (λ angles. Counts self.old self.new depth angles) }
        ensures err { IfErr result (IsFault (option_or (passed_by_call self.old.calls depth)
            (passed_by_angles self.old.nodes (angles_in params.now outer.now exprs.now)))) }
    {
        self.count_call(depth)?;
        self.angles(alloc, exprs, params, outer)
    }

    /// Performs a call that was counted: its body stands before the others, or its ops are written.
    fn perform(
        &mut self,
        alloc: Global,
        frames: &mut Vec<Frame>,
        target: Target,
        angles: List<Expr>,
        qubits: SmallVec<u32, 4>,
    ) -> Result<(), ExpandFault>
        requires closed { AllByRecursion HasNoNames angles }
        requires small { AllByRecursion IsSmall angles }
        ensures frames { OnOk result (OpensFrame (reverse frames.old.items) target angles qubits.items (reverse frames.new.items)) }
        ensures ops { OnOk result (AddsOps self.old self.new (ops_on target angles qubits.items)) }
        ensures err { IfErr result (λ e. e ≡ ExpandFault.Memory) }
    {
        if let Target::Gate { place } = target {
            let frame = Frame {
                place,
                next: 0,
                angles,
                qubits,
            };
            push(frames, frame)?;
        } else {
            write_ops(
                alloc,
                &mut self.ops,
                target,
                angles.as_slice(),
                qubits.as_slice(),
            )?;
        }
        Ok(())
    }

    /// Visits a barrier of this depth.
    ///
    /// `Limit` tells the first limit that is passed.
    pub(crate) fn fence(&mut self, depth: u64) -> Result<(), ExpandFault>
        ensures ok { OnOk result (VisitsCall self.old self.new (record { depth = depth; item = Barrier })) }
        ensures err { IfErr result
            (IsFault (passed_by_calls self.old.calls self.old.nodes (record { depth = depth; item = Barrier } ∷ []))) }
    {
        self.count_call(depth)?;
        self.ops.push(Op::Fence)?;
        Ok(())
    }

    /// A barrier in a body.
    fn fence_in(&mut self, frames: &mut Vec<Frame>, frame: Frame) -> Result<(), ExpandFault>
        requires next { frame.next + 1 < 2 ^ 64 }
        ensures frames { OnOk result (reverse frames.new.items ≡ behind_call frame ∷ reverse frames.old.items) }
        ensures ok { OnOk result
            (VisitsCall self.old self.new (record { depth = length frames.old.items + 2; item = Barrier })) }
        ensures err { IfErr result (IsFault (passed_by_calls self.old.calls self.old.nodes
            (record { depth = length frames.old.items + 2; item = Barrier } ∷ []))) }
    {
        self.fence(frames.len() as u64 + 2)?;
        let next = frame.next + 1;
        push(frames, Frame { next, ..frame })?;
        Ok(())
    }

    /// A call in a body other than a barrier.
    fn call_in(
        &mut self,
        alloc: Global,
        gate: &GateDef,
        call: &Bound,
        frames: &mut Vec<Frame>,
        frame: Frame,
    ) -> Result<(), ExpandFault>
        requires calls { call.now.target ≢ Target.Barrier }
        requires next { frame.next + 1 < 2 ^ 64 }
        requires over { AllByRecursion (λ (e : Expr). IsExprOver gate.now.params e) call.now.exprs }
        requires below { AllByRecursion (λ i. i < length frame.qubits.items) call.now.args }
        requires params { length frame.angles ≡ length gate.now.params }
        requires closed { AllByRecursion HasNoNames frame.angles }
        ensures frames { OnOk result (OpensFrame (behind_call frame ∷ reverse frames.old.items) call.now.target
            (angles_in gate.now.params frame.angles call.now.exprs) (map (λ i. get_or frame.qubits.items i 0) call.now.args)
            (reverse frames.new.items)) }
        ensures ok { OnOk result (VisitsCall self.old self.new (record {
          depth = length frames.old.items + 2;
          item = body_call (zip gate.now.params frame.angles) frame.qubits.items call.now;
        })) }
        ensures err { IfErr result (IsFault (passed_by_calls self.old.calls self.old.nodes (record {
          depth = length frames.old.items + 2;
          item = body_call (zip gate.now.params frame.angles) frame.qubits.items call.now;
        } ∷ []))) }
    {
        let depth = frames.len() as u64 + 2;
        let params = gate.params.as_slice();
        let angles = self.count(
            alloc,
            depth,
            call.exprs.as_slice(),
            params,
            frame.angles.as_slice(),
        )?;
        let qubits = qubits_at(alloc, frame.qubits.as_slice(), call.args.as_slice())?;
        let next = frame.next + 1;
        push(frames, Frame { next, ..frame })?;
        self.perform(alloc, frames, call.target, angles, qubits)
    }

    /// A call in a body.
    fn visit_in(
        &mut self,
        alloc: Global,
        gate: &GateDef,
        call: &Bound,
        frames: &mut Vec<Frame>,
        frame: Frame,
    ) -> Result<(), ExpandFault>
        requires next { frame.next + 1 < 2 ^ 64 }
        requires over { AllByRecursion (λ (e : Expr). IsExprOver gate.now.params e) call.now.exprs }
        requires below { AllByRecursion (λ i. i < length frame.qubits.items) call.now.args }
        requires params { length frame.angles ≡ length gate.now.params }
        requires closed { AllByRecursion HasNoNames frame.angles }
        ensures frames { OnOk result (OpensFrame (behind_call frame ∷ reverse frames.old.items) call.now.target
            (angles_in gate.now.params frame.angles call.now.exprs) (map (λ i. get_or frame.qubits.items i 0) call.now.args)
            (reverse frames.new.items)) }
        ensures ok { OnOk result (VisitsCall self.old self.new (record {
          depth = length frames.old.items + 2;
          item = body_call (zip gate.now.params frame.angles) frame.qubits.items call.now;
        })) }
        ensures err { IfErr result (IsFault (passed_by_calls self.old.calls self.old.nodes (record {
          depth = length frames.old.items + 2;
          item = body_call (zip gate.now.params frame.angles) frame.qubits.items call.now;
        } ∷ []))) }
    {
        if let Target::Barrier = call.target {
            self.fence_in(frames, frame)
        } else {
            self.call_in(alloc, gate, call, frames, frame)
        }
    }

    /// Visits the first call that is left of the innermost body, or leaves the body where none is left.
    fn step(
        &mut self,
        alloc: Global,
        gates: &[GateDef],
        frames: &mut Vec<Frame>,
        frame: Frame,
    ) -> Result<(), ExpandFault>
        requires bound { (place : ℕ) → IsWellBound gates.now place }
        requires short { HaveShortNumbers gates.now }
        requires fit { AreFit gates.now (frame ∷ reverse frames.old.items) }
        ensures ok { OnOk result
            (Steps gates.now self.old self.new (frame ∷ reverse frames.old.items) (reverse frames.new.items)) }
        ensures err { IfErr result (IsFault (passed_by_calls self.old.calls self.old.nodes
            (take 1 (pending gates.now (frame ∷ reverse frames.old.items))))) }
    {
        let gate = &gates[frame.place];
        let body = gate.body.as_slice();
        let next = frame.next;
        if next < body.len() {
            let call = &body[next];
            self.visit_in(alloc, gate, call, frames, frame)?;
        }
        Ok(())
    }

    /// Performs what is left of the bodies.
    fn finish(
        &mut self,
        alloc: Global,
        gates: &[GateDef],
        mut frames: Vec<Frame>,
    ) -> Result<(), ExpandFault>
        requires bound { (place : ℕ) → IsWellBound gates.now place }
        requires short { HaveShortNumbers gates.now }
        requires fit { AreFit gates.now (reverse frames.items) }
        ensures ok { OnOk result (Walks gates.now self.old self.new (pending gates.now (reverse frames.items))) }
        ensures err { IfErr result (Passes gates.now self.old (pending gates.now (reverse frames.items))) }
    {
        while let Some(frame) = pop(&mut frames) {
            self.step(alloc, gates, &mut frames, frame)?;
        }
        Ok(())
    }

    /// Visits a call of the top, and all calls below it: a call of this target with these angles on these qubits.
    ///
    /// `Limit` tells the first limit that is passed.
    pub(crate) fn apply(
        &mut self,
        alloc: Global,
        gates: &[GateDef],
        target: Target,
        angles: &[Expr],
        qubits: SmallVec<u32, 4>,
    ) -> Result<(), ExpandFault>
        requires bound { (place : ℕ) → IsWellBound gates.now place }
        requires short { HaveShortNumbers gates.now }
        requires fit { IsFit gates.now (Applied target angles.now qubits.items) }
        ensures ok { OnOk result
            (Walks gates.now self.old self.new (at_depth 1 (Applied target angles.now qubits.items ∷ []))) }
        ensures err { IfErr result (Passes gates.now self.old (at_depth 1 (Applied target angles.now qubits.items ∷ []))) }
    {
        let mut frames = Vec::new(alloc);
        let angles = self.count(alloc, 1, angles, &[], &[])?;
        self.perform(alloc, &mut frames, target, angles, qubits)?;
        self.finish(alloc, gates, frames)
    }

    /// Visits a measurement of a qubit into a bit.
    ///
    /// `Limit` tells the first limit that is passed.
    pub(crate) fn measure(&mut self, qubit: u32, bit: u32) -> Result<(), ExpandFault>
        ensures ok { OnOk result
            (VisitsCall self.old self.new (record { depth = 1; item = Measured qubit bit })) }
        ensures err { IfErr result
            (IsFault (passed_by_calls self.old.calls self.old.nodes (record { depth = 1; item = Measured qubit bit } ∷ []))) }
    {
        self.count_call(1)?;
        self.ops.push(Op::Read { q: qubit, bit })?;
        Ok(())
    }
}
