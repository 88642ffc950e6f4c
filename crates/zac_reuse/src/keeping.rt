//! The gates that are kept between two pulses.

ghost use Rattle.std.specs.Prelude.{◌≡◌, ◌+◌, ◌<◌, length, IfOk};
ghost use Rattle.zac_reuse.specs.Keeping.{IsKeeping, IsGreatest, IsKeepableNumberOf, pulse_of};

use crate::sharing::{edges_between, numbers_of};
use std::alloc::Global;
use zac_gates::{Circuit, List};
use zac_match::matching;
use zac_memory::Memory;
use zac_stage::Stages;
use zac_stage::laws::pulses_share_no_qubit;

/// The gates that are kept.
#[derive(Drop)]
pub struct Kept {
    /// Each as the op number of a gate of the pulse and that of the gate of the next pulse that takes its site.
    pub pairs: List<(u32, u32)>,
}

/// The gates that are kept between pulse `t` and the next one: pairs of a gate of each that share a qubit, with no gate
/// twice, and as many as can be. Of several greatest sets it takes one. The stages are those of the circuit. The only
/// error is that memory ran out.
///
/// The time grows with the gates of the two pulses, times at most the logarithm of their number, and with nothing else of
/// the circuit.
pub fn keep(alloc: Global, circuit: &Circuit, stages: &Stages<'_>, t: u32) -> Result<Kept, Memory>
    requires circuit { stages.now.circuit ≡ circuit.now }
    requires pulses { t + 1 < length stages.now.pairs }
    ensures keeping { IfOk result (λ kept. IsKeeping circuit.now.ops (pulse_of stages.now t)
        (pulse_of stages.now (t + 1)) kept.pairs) }
    ensures greatest { IfOk result (λ kept. IsGreatest circuit.now.ops (pulse_of stages.now t)
        (pulse_of stages.now (t + 1)) kept.pairs) }
    ensures keepable { IfOk result (λ kept. IsKeepableNumberOf stages.now t (length kept.pairs)) }
{
    pulses_share_no_qubit();
    let _pulses = stages.pulses();
    let ops = circuit.ops();
    let first = stages.pairs(t);
    let second = stages.pairs(t + 1);
    let edges = edges_between(alloc, ops, first, second)?;
    let matched = matching(alloc, &edges)?;
    let pairs = numbers_of(alloc, first, second, matched.pairs.as_slice())?;
    Ok(Kept {
        pairs: List::of(pairs),
    })
}
