//! What the calls of a gate's body are bound to.

ghost use Rattle.std.specs.Prelude.{◌≡◌, List, length, map, IfOk};
ghost use Rattle.qasm_names.specs.Environment.{bound_call, bound_gate};
ghost use Rattle.qasm_names.specs.Names.{target_of, value_or};
ghost use Rattle.qasm_names.specs.declared.gate.Target.TheVariants as target;

use crate::copy::{copy_exprs, copy_words};
use crate::gate::{Bound, GateDef, Target};
use crate::known::Known;
use crate::meaning::Callee;
use crate::places::Places;
use qasm_form::{BodyOp, Named};
use std::alloc::Global;
use zac_gates::{List, Memory};

/// What a callee is bound to; a barrier where it is no gate.
pub(crate) fn bound(callee: Callee) -> Target
    ensures { result ≡ value_or (target_of callee) target.Barrier }
{
    match callee {
        Callee::Gate { target, .. } => target,
        Callee::Unknown | Callee::Opaque | Callee::Barrier => Target::Barrier,
    }
}

/// A call of a body, bound.
fn bound_call(alloc: Global, known: &Known, places: &Places, call: &BodyOp) -> Result<Bound, Memory>
    ensures { IfOk result (λ bound. bound ≡ bound_call known.now places.now call.now) }
{
    let target = bound(known.callee(call.name.as_slice()));
    let exprs = copy_exprs(alloc, call.exprs.as_slice())?;
    let args = places.all(alloc, call.args.as_slice())?;
    Ok(Bound {
        target,
        exprs,
        args,
    })
}

/// The calls of a body, bound.
fn bound_body(
    alloc: Global,
    known: &Known,
    places: &Places,
    body: &[BodyOp],
) -> Result<List<Bound>, Memory>
    ensures { IfOk result (λ bound. bound ≡ map (bound_call known.now places.now) body.now) }
{
    let mut bound = Vec::new(alloc);
    for call in body {
        bound.push(bound_call(alloc, known, places, call)?)?;
    }
    Ok(List::of(bound))
}

/// A gate with a body.
pub(crate) fn bound_gate(
    alloc: Global,
    known: &Known,
    params: &[Named],
    args: &[Named],
    body: &[BodyOp],
) -> Result<GateDef, Memory>
    ensures { IfOk result (λ gate. gate ≡ bound_gate known.now params.now args.now body.now) }
{
    let count = args.len();
    let params = copy_words(alloc, params)?;
    let places = Places::of(alloc, args)?;
    let body = bound_body(alloc, known, &places, body)?;
    Ok(GateDef {
        params,
        args: count,
        body,
    })
}
