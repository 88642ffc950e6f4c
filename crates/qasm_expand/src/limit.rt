//! Faults of limits.

ghost use Rattle.std.specs.Prelude.{◌≡◌, None, OnOk, IfErr};
ghost use Rattle.qasm_expand.specs.Faults.{IsLimit};

use crate::fault::{ExpandFault, LimitKind};

/// Refuses what passes a limit.
pub(crate) fn refuse(passed: Option<(LimitKind, u64)>) -> Result<(), ExpandFault>
    ensures ok { OnOk result (passed ≡ None) }
    ensures err { IfErr result (IsLimit passed) }
{
    match passed {
        None => Ok(()),
        Some((kind, count)) => Err(ExpandFault::Limit { kind, count }),
    }
}
