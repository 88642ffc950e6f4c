//! The columns that the search chose.

ghost use Rattle.std.specs.Prelude.{ℕ, ◌≡◌, ◌<◌, Some, IfOk, IsSome, vec_len, slice_index};
ghost use Rattle.zac_pairing.specs.Pairing.{mate};

use std::alloc::{AllocError, Global};
use zac_pairing::Pairing;

/// The column of each row.
pub fn chosen_columns(alloc: Global, pairs: &Pairing) -> Result<Vec<u32>, AllocError>
    requires { (r : ℕ) → r < vec_len pairs.now.left → IsSome (mate pairs.now.left.items r) }
    ensures len { IfOk result (λ chosen. vec_len chosen ≡ vec_len pairs.now.left) }
    ensures own { IfOk result (λ chosen. (r : ℕ) → r < vec_len pairs.now.left →
        mate pairs.now.left.items r ≡ Some (slice_index chosen.items r)) }
{
    let mut chosen = Vec::with_capacity(alloc, pairs.left.len())?;
    for column in &pairs.left {
        match column {
            Some(column) => chosen.push(*column)?,
            None => unreachable!(),
        }
    }
    Ok(chosen)
}
