//! Assigns random points of a grid to a grid of sites by their distances, to measure how long that
//! takes. Each line of the input is a number of rows and a number of columns.
#![tactic(auto)]

ghost use Rattle.std.specs.Prelude.{◌≡◌, ◌<◌, IfOk};

use std::alloc::Global;
use std::io;
use zac_assign::{Assigned, Costs, Memory, assign};

/// How many sites a line of the grid has.
const LINE: u32 = 40;
/// How far two sites are apart.
const APART: u32 = 30;
/// The points lie in a square of this side.
const SIDE: u32 = 1200;

/// Random numbers, by a linear congruence (Knuth, MMIX).
fn next(state: &mut u64) -> u32 {
    *state = state
        .wrapping_mul(6_364_136_223_846_793_005)
        .wrapping_add(1_442_695_040_888_963_407);
    (*state >> 33) as u32
}

/// The distances along the axes of as many random points as there are rows from the sites of a
/// grid.
fn distances(alloc: Global, rows: u32, columns: u32) -> Result<Costs, Memory>
    ensures { IfOk result (λ costs. (costs.rows ≡ rows) × (costs.columns ≡ columns)) }
{
    let mut costs = Costs::new(alloc, rows, columns)?;
    let mut state = 1u64;
    for row in 0..rows {
        let x = next(&mut state) % SIDE;
        let y = next(&mut state) % SIDE;
        for column in 0..columns {
            let across = x.abs_diff(column % LINE * APART);
            let along = y.abs_diff(column / LINE % LINE * APART);
            costs.set(row, column, across + along);
        }
    }
    Ok(costs)
}

/// What the rows pay at their columns.
fn total(costs: &Costs, columns: &[u32]) -> u64 {
    let mut total = 0u64;
    for row in 0..costs.rows() {
        if let Some(&column) = columns.get(row as usize)
            && column < costs.columns()
        {
            total = total.saturating_add(u64::from(costs.cost(row, column)));
        }
    }
    total
}

/// Assigns, and says what the rows pay in all.
fn report(rt: &(impl Print + AllocGlobal), rows: u32, columns: u32) -> io::Result<()> {
    if rows > columns {
        return println!(rt; "{rows} rows, {columns} columns: too few columns");
    }
    let Ok(costs) = distances(rt.alloc(), rows, columns) else {
        return println!(rt; "out of memory");
    };
    match assign(rt.alloc(), &costs) {
        Ok(
            Assigned {
                columns: chosen,
                ..
            },
        ) => {
            let pay = total(&costs, chosen.as_slice());
            println!(rt; "{rows} rows, {columns} columns: {pay}")
        }
        Err(Memory) => println!(rt; "out of memory"),
    }
}

fn main(rt: HostRuntime) -> io::Result<()> {
    for line in rt.lines(rt.alloc()) {
        let line = line?;
        if let Some((rows, columns)) = line.as_str().split_once(' ')
            && let Ok(rows) = rows.parse::<u32>()
            && let Ok(columns) = columns.parse::<u32>()
        {
            report(&rt, rows, columns)?;
        }
    }
    Ok(())
}
