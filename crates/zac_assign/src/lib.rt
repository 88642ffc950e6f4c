//! A least assignment: to each row a column of its own, so that the rows pay as little as they can
//! in all.
//!
//! The answer carries prices of the rows and the columns that prove it least: every cost is at
//! least the sum of its two prices, with equality on the chosen pairs; column prices are at most 0,
//! and 0 on columns that are not chosen. The search goes row by row along shortest augmenting paths
//! and keeps the prices between rows (Jonker and Volgenant 1987), so a row explores only the
//! columns that it needs.
#![tactic(auto)]

mod chosen;
mod prices;
mod search;
mod table;

ghost use Rattle.std.specs.Prelude.{◌≤◌, IfOk};
ghost use Rattle.zac_assign.specs.Assignment.{IsAssignment, ProvesLeast, IsLeast, PricesBoundEveryChoice};

use chosen::chosen_columns;
use prices::{column_prices, row_prices};
use search::{Room, add_rows};
use std::alloc::Global;
pub use table::Costs;
use zac_gates::List;
pub use zac_memory::Memory;
use zac_pairing::Pairing;

/// A least assignment, and prices that prove it.
#[derive(Drop)]
pub struct Assigned {
    /// The column of each row.
    pub columns: List<u32>,
    /// The price of each row.
    pub row_price: List<i64>,
    /// The price of each column: at most 0, and 0 on columns that are not chosen.
    pub column_price: List<i64>,
}

/// Assigns a column to each row, no column twice, at the least cost in all. There are at least as
/// many columns as rows. The only error is that memory ran out.
pub fn assign(alloc: Global, costs: &Costs) -> Result<Assigned, Memory>
    requires { costs.now.rows ≤ costs.now.columns }
    ensures assignment { IfOk result (λ assigned. IsAssignment costs.now assigned.columns) }
    ensures prices { IfOk result (λ assigned.
        ProvesLeast costs.now assigned.columns assigned.row_price assigned.column_price) }
    ensures least { IfOk result (λ assigned. IsLeast costs.now assigned.columns) }
{
    let rows = costs.rows() as usize;
    let columns = costs.columns() as usize;
    let mut pairs = Pairing::none(alloc, rows, columns)?;
    let mut row_price = vec![in alloc; 0; rows]?;
    let mut column_fee = vec![in alloc; 0; columns]?;
    let mut room = Room::new(alloc, columns)?;
    let price = row_price.as_mut_slice();
    let fee = column_fee.as_mut_slice();
    add_rows(costs, &mut pairs, price, fee, &mut room)?;
    Ok(Assigned {
        columns: List::of(chosen_columns(alloc, &pairs)?),
        row_price: List::of(row_prices(alloc, price)?),
        column_price: List::of(column_prices(alloc, fee)?),
    })
}

/// A law: prices as [`assign`] answers them bound every other choice of columns, whatever the
/// table.
pub fn prices_bound_every_choice()
    ensures { PricesBoundEveryChoice }
{}
