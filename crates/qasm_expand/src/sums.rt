//! The limits that are tested before the calls.

ghost use Rattle.std.specs.Prelude.{◌≡◌};
ghost use Rattle.std.specs.List.{flat_map};
ghost use Rattle.qasm_expand.specs.Limits.{passed_by_sizes, passed_before_calls};
ghost use Rattle.qasm_expand.specs.RegisterKinds.{limit_of, most_of, sizes_of};

use crate::fault::LimitKind;
use crate::kind::RegisterKind;
use crate::literals::passed_by_literals;
use qasm_form::Stmt;

/// The first sum of the sizes of the kind's registers that passes their limit.
fn passed_by_sizes(kind: RegisterKind, statements: &[Stmt]) -> Option<(LimitKind, u64)>
    ensures { result ≡ passed_by_sizes (limit_of kind) (most_of kind) 0 (flat_map (sizes_of kind) statements.now) }
{
    let mut sum = 0u64;
    for stmt in statements {
        if let Some((_, size)) = kind.register_in(stmt) {
            sum = sum.saturating_add(size);
            if sum > kind.most() {
                return Some((kind.limit(), sum));
            }
        }
    }
    None
}

/// The first limit that the statements pass, of those that are tested before the calls: the lengths of numbers, and the
/// sums of the sizes of the registers.
pub(crate) fn passed_before_calls(statements: &[Stmt]) -> Option<(LimitKind, u64)>
    ensures { result ≡ passed_before_calls statements.now }
{
    passed_by_literals(statements)
        .or_else(|| passed_by_sizes(RegisterKind::Qubit, statements))
        .or_else(|| passed_by_sizes(RegisterKind::Bit, statements))
}
