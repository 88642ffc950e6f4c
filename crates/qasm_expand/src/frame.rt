//! The calls of gates whose bodies are being performed.

ghost use Rattle.std.specs.Prelude.{◌≡◌, ◌<◌, length, IfOk, map, get_or};
ghost use Rattle.std.specs.List.{AllByRecursion};

use qasm_form::Expr;
use smallvec::SmallVec;
use std::alloc::Global;
use zac_gates::{List, Memory};

/// The call of a gate whose body is being performed.
#[derive(Drop)]
pub(crate) struct Frame {
    /// The place of the gate.
    pub place: usize,
    /// The place in the body of the call that comes next.
    pub next: usize,
    /// The angles that the gate is called with.
    pub angles: List<Expr>,
    /// The qubits that it is called on.
    pub qubits: SmallVec<u32, 4>,
}

/// The qubits at these places.
pub(crate) fn qubits_at(
    alloc: Global,
    qubits: &[u32],
    places: &[usize],
) -> Result<SmallVec<u32, 4>, Memory>
    requires { AllByRecursion (λ i. i < length qubits.now) places.now }
    ensures { IfOk result (λ chosen. chosen.items ≡ map (λ i. get_or qubits.now i 0) places.now) }
{
    let mut chosen = SmallVec::new(alloc);
    for place in places {
        chosen.push(qubits[*place])?;
    }
    Ok(chosen)
}
