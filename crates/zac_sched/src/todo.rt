//! What is to be done.

use zac_aod::Job;
use zac_gates::List;
use zair_form::{OneGate, PairOf, ReadOf};

/// What one instruction is to do: gates, pulses and readouts of the laser, and jobs, whose AOD is still open.
#[derive(Drop)]
pub enum Todo<'a> {
    /// One-qubit gates, one after another.
    Gates { ones: List<OneGate> },
    /// One pulse.
    Rydberg { pairs: List<PairOf> },
    /// One rearrangement.
    Job { job: Job<'a> },
    /// One readout.
    Readout { reads: List<ReadOf> },
}
