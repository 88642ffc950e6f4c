//! The edges that the search chose.

ghost use Rattle.std.specs.Prelude.{◌<◌, ◌^◌, IfOk, vec_len};
ghost use Rattle.zac_match.specs.Cover.{Lists};

use std::alloc::{AllocError, Global};
use zac_pairing::Pairing;

/// The pairs, by rising left vertex.
pub fn chosen_edges(alloc: Global, mates: &Pairing) -> Result<Vec<(u32, u32)>, AllocError>
    requires { vec_len mates.now.left < 2 ^ 32 }
    ensures { IfOk result (λ edges. Lists mates.now.left.items edges.items) }
{
    let mut edges = Vec::new(alloc);
    for left in 0..mates.left.len() {
        if let Some(right) = mates.left[left] {
            edges.push((left as u32, right))?;
        }
    }
    Ok(edges)
}
