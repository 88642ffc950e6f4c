//! Matches large sparse graphs, to measure how long that takes. It reads nothing.
#![tactic(auto)]

ghost use Rattle.std.specs.Prelude.{IfOk};
ghost use Rattle.zac_match.specs.Choice.{EndsBelow};

use std::alloc::{AllocError, Global};
use std::io;
use zac_gates::List;
use zac_match::{Edges, Memory, matching};

/// How many vertices each side has.
const SIDE: u32 = 99_991;

/// Up to four edges at each vertex of either side, each taken or left by a coin.
fn sparse(alloc: Global) -> Result<Edges, AllocError>
    ensures { IfOk result (λ edges. EndsBelow edges.left edges.right edges.pairs) }
{
    let mut pairs = Vec::new(alloc);
    let mut state = 1u64;
    for left in 0..SIDE {
        for factor in [3u32, 17, 101, 977] {
            state = state
                .wrapping_mul(6_364_136_223_846_793_005)
                .wrapping_add(1_442_695_040_888_963_407);
            if state >> 63 == 1 {
                let right = left.wrapping_mul(factor) % SIDE;
                pairs.push((left, right))?;
            }
        }
    }
    Ok(Edges {
        left: SIDE,
        right: SIDE,
        pairs: List::of(pairs),
    })
}

/// Each left vertex has an edge to its own place and one to the next place, which is taken first:
/// the last vertex turns the whole chain.
fn chain(alloc: Global) -> Result<Edges, AllocError>
    ensures { IfOk result (λ edges. EndsBelow edges.left edges.right edges.pairs) }
{
    let mut pairs = Vec::new(alloc);
    for left in 0..SIDE {
        pairs.push((left, left))?;
        pairs.push((left, (left + 1) % SIDE))?;
    }
    pairs.push((SIDE - 1, SIDE - 1))?;
    Ok(Edges {
        left: SIDE,
        right: SIDE,
        pairs: List::of(pairs),
    })
}

/// Says how many edges there are, and how many were matched.
fn report(rt: &(impl Print + AllocGlobal), name: &str, edges: &Edges) -> io::Result<()>
    requires { EndsBelow edges.now.left edges.now.right edges.now.pairs }
{
    let given = edges.pairs.as_slice().len();
    match matching(rt.alloc(), edges) {
        Ok(matched) => {
            let chosen = matched.pairs.as_slice().len();
            println!(rt; "{name}: {chosen} of {given} edges")
        }
        Err(Memory) => println!(rt; "{name}: out of memory"),
    }
}

fn main(rt: HostRuntime) -> io::Result<()> {
    let edges = sparse(rt.alloc())?;
    report(&rt, "sparse", &edges)?;
    let edges = chain(rt.alloc())?;
    report(&rt, "chain", &edges)
}
