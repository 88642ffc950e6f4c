//! Greatest matchings of worked graphs: that the call succeeds where there is memory.

ghost use Rattle.zac_match.specs.Choice.{EndsBelow};

use std::alloc::Global;
use std::test::Fail;
use zac_gates::List;
use zac_match::{Edges, matching};

/// How many edges are chosen.
fn size(alloc: Global, edges: &Edges) -> Option<usize>
    requires { EndsBelow edges.now.left edges.now.right edges.now.pairs }
{
    match matching(alloc, edges) {
        Ok(matched) => Some(matched.pairs.as_slice().len()),
        Err(_memory) => None,
    }
}

#[test]
fn takes_one_of_two_edges_at_one_vertex(rt: HostRuntime) -> Result<(), Fail> {
    let pairs = [(0, 0), (0, 1)].to_vec(rt.alloc())?;
    let edges = Edges {
        left: 1,
        right: 2,
        pairs: List::of(pairs),
    };
    assert_eq!(rt; size(rt.alloc(), &edges), Some(1));
    Ok(())
}

#[test]
fn takes_both_where_the_first_edge_stands_in_the_way(rt: HostRuntime) -> Result<(), Fail> {
    let pairs = [(0, 0), (0, 1), (1, 0)].to_vec(rt.alloc())?;
    let edges = Edges {
        left: 2,
        right: 2,
        pairs: List::of(pairs),
    };
    assert_eq!(rt; size(rt.alloc(), &edges), Some(2));
    Ok(())
}
