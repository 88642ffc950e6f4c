//! The edges of each left vertex, as chains of edge numbers.

ghost use Rattle.std.specs.Prelude.{ℕ, ◌≡◌, ◌<◌, length, IfOk, vec_len};
ghost use Rattle.zac_match.specs.Chains.{AreChained, left_end};

use std::alloc::{AllocError, Global};

/// For each left vertex its last edge, and for each edge the one before it at the same left vertex.
#[derive(Drop)]
pub struct Neighbours {
    pub last: Vec<Option<usize>>,
    pub before: Vec<Option<usize>>,
}

impl Neighbours {
    /// The chains of these edges.
    pub fn of(alloc: Global, left: usize, pairs: &[(u32, u32)]) -> Result<Neighbours, AllocError>
        requires { (k : ℕ) → k < length pairs.now → left_end pairs.now k < left }
        ensures chained { IfOk result (λ n. AreChained pairs.now n.last.items n.before.items
            (length pairs.now)) }
        ensures last_len { IfOk result (λ n. vec_len n.last ≡ left) }
        ensures before_len { IfOk result (λ n. vec_len n.before ≡ length pairs.now) }
    {
        let mut last = vec![in alloc; None; left]?;
        let mut before = Vec::with_capacity(alloc, pairs.len())?;
        for (number, pair) in pairs.iter().enumerate() {
            let end = pair.0 as usize;
            before.push(last[end])?;
            last[end] = Some(number);
        }
        Ok(Neighbours { last, before })
    }
}
