//! A stack for reading nodes in postfix order. Contracts see its top first.

ghost use Rattle.std.specs.Prelude.{◌≡◌, ◌∷◌, [], reverse, OnOk, MatchOption};

use std::alloc::Global;
use zac_gates::Memory;

/// Puts a value on the stack.
pub(crate) fn push<T: Drop>(stack: &mut Vec<T>, value: T) -> Result<(), Memory>
    ensures { OnOk result (reverse stack.new.items ≡ value ∷ reverse stack.old.items) }
{
    stack.push(value)?;
    Ok(())
}

/// Takes the top off the stack, if there is one.
pub(crate) fn pop<T>(stack: &mut Vec<T>) -> Option<T>
    ensures { MatchOption result ((reverse stack.old.items ≡ []) × (reverse stack.new.items ≡ []))
        (λ top. reverse stack.old.items ≡ top ∷ reverse stack.new.items) }
{
    stack.pop()
}
