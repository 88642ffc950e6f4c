//! The least of some offsets.

ghost use Rattle.std.specs.Prelude.{◌≡◌};
ghost use Rattle.qasm_scope.specs.Least.{earlier};

/// The lesser of two offsets, of those that there are.
pub(crate) fn earlier(a: Option<u32>, b: Option<u32>) -> Option<u32>
    ensures { result ≡ earlier a b }
{
    match (a, b) {
        (Some(a), Some(b)) => Some(a.min(b)),
        (Some(a), None) => Some(a),
        (None, b) => b,
    }
}
