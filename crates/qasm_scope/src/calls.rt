//! What is wrong with calls, at the top and in bodies, one by one.

ghost use Rattle.std.specs.Prelude.{◌↔◌, IsTrue};
ghost use Rattle.qasm_scope.specs.Judged.{HasCallFault, HasCallFaultAt};
ghost use Rattle.qasm_scope.specs.Least.{IsLeastOffset};
ghost use Rattle.qasm_names.specs.Refusals.{HasOtherArity, HasOtherParams, RepeatsWord};

use crate::least::earlier;
use crate::pairs::{PairFault, has_faulty_pair};
use qasm_form::BodyOp;
use qasm_names::{Callee, Known};

/// What is wrong with a call.
#[derive(Clone, Copy)]
pub(crate) enum CallFault {
    /// It names no gate.
    Unknown,
    /// It names an opaque gate.
    Opaque,
    /// It has another number of angles than its gate.
    Params,
    /// It has another number of arguments than its gate.
    Arity,
    /// In a body, it has an argument twice.
    Repeated,
}

/// Whether a call of this callee has another number of angles.
fn has_other_params(callee: Callee, call: &BodyOp) -> bool
    ensures { IsTrue result ↔ HasOtherParams callee call.now }
{
    match callee {
        Callee::Gate { params, .. } => call.exprs.as_slice().len() != params,
        _ => false,
    }
}

/// Whether a call of this callee has another number of arguments.
fn has_other_arity(callee: Callee, call: &BodyOp) -> bool
    ensures { IsTrue result ↔ HasOtherArity callee call.now }
{
    match callee {
        Callee::Gate { args, .. } => call.args.as_slice().len() != args,
        _ => false,
    }
}

/// Whether a call in a body has an argument twice; a barrier may.
fn repeats_word(known: &Known, call: &BodyOp) -> bool
    ensures { IsTrue result ↔ RepeatsWord call.now }
{
    call.name.as_slice() != b"barrier".as_slice()
        && has_faulty_pair(known, PairFault::Words, call.args.as_slice())
}

/// Whether this is wrong with the call.
fn has_call_fault(known: &Known, fault: CallFault, call: &BodyOp) -> bool
    ensures { IsTrue result ↔ HasCallFault known.now fault call.now }
{
    let callee = known.callee(call.name.as_slice());
    match fault {
        CallFault::Unknown => matches!(callee, Callee::Unknown),
        CallFault::Opaque => matches!(callee, Callee::Opaque),
        CallFault::Params => has_other_params(callee, call),
        CallFault::Arity => has_other_arity(callee, call),
        CallFault::Repeated => repeats_word(known, call),
    }
}

/// The least offset of a call with which this is wrong.
pub(crate) fn least_call(known: &Known, fault: CallFault, calls: &[BodyOp]) -> Option<u32>
    ensures { IsLeastOffset (HasCallFaultAt known.now fault calls.now) result }
{
    let mut least = None;
    for call in calls {
        let refused = has_call_fault(known, fault, call);
        least = earlier(least, refused.then_some(call.at));
    }
    least
}
