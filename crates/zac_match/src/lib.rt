//! A greatest matching of a bipartite graph.
//!
//! No other choice of the given edges with no end twice has more members: the contract of
//! [`matching`] says so of every such choice, and names neither a path nor a tree. The search is by
//! augmenting paths (Berge 1957), in passes that mark each right vertex at most once; a pass that
//! finds no path leaves a vertex cover as large as the matching (Koenig 1931), which proves that it
//! is the greatest.
#![tactic(auto)]

mod chosen;
mod neighbours;
mod search;

ghost use Rattle.std.specs.Prelude.{IfOk};
ghost use Rattle.zac_match.specs.Choice.{EndsBelow, IsChoice, IsGreatest};

use chosen::chosen_edges;
use neighbours::Neighbours;
use search::pass;
use std::alloc::Global;
use zac_gates::List;
pub use zac_memory::Memory;
use zac_pairing::Pairing;

/// The edges of a bipartite graph.
#[derive(Drop)]
pub struct Edges {
    /// How many vertices are on the left.
    pub left: u32,
    /// How many vertices are on the right.
    pub right: u32,
    /// Each edge as its left end and its right end. An edge may come more than once.
    pub pairs: List<(u32, u32)>,
}

/// The chosen edges.
#[derive(Drop)]
pub struct Matched {
    /// Each as its left end and its right end, by rising left end.
    pub pairs: List<(u32, u32)>,
}

/// A greatest matching: edges with no end twice, and no set of the given edges with no end twice is
/// larger. The only error is that memory ran out.
pub fn matching(alloc: Global, edges: &Edges) -> Result<Matched, Memory>
    requires in_range { EndsBelow edges.now.left edges.now.right edges.now.pairs }
    ensures choice { IfOk result (λ matched. IsChoice edges.now.pairs matched.pairs) }
    ensures greatest { IfOk result (λ matched. IsGreatest edges.now.pairs matched.pairs) }
{
    let pairs = edges.pairs.as_slice();
    let neighbours = Neighbours::of(alloc, edges.left as usize, pairs)?;
    let mut mates = Pairing::none(alloc, edges.left as usize, edges.right as usize)?;
    let mut marks = vec![in alloc; false; edges.right as usize]?;
    let mut steps = Vec::new(alloc);
    while pass(pairs, &neighbours, &mut mates, &mut marks, &mut steps)? {}
    let chosen = chosen_edges(alloc, &mates)?;
    Ok(Matched {
        pairs: List::of(chosen),
    })
}
