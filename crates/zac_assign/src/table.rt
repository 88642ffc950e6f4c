//! The table of costs.

use crate::Memory;
use std::alloc::Global;
use std::marker::Model;

/// What each row pays at each column: whole numbers from 0 to 8,000,000.
#[derive(Drop)]
pub struct Costs {
    rows: u32,
    columns: u32,
    items: Vec<u32>,
}

impl Model for Costs {
    ghost use Rattle.zac_assign.specs.Assignment.{Table};
    ghost use Rattle.zac_assign.specs.Costs.{FillsTable};

    ghost Value = { Table };

    ghost view = { λ c. record { rows = c.rows; columns = c.columns; costs = c.items.items } };

    ghost invariant = { λ c. FillsTable c.rows c.columns c.items.items };
}

impl Costs {
    ghost use Rattle.std.specs.Prelude.{ℕ, ◌≡◌, ◌≢◌, ◌≤◌, ◌<◌, ◌⊎◌, IfOk};
    ghost use Rattle.zac_assign.specs.Assignment.{cost_at};

    /// The table with all costs 0. The only error is that memory ran out.
    pub fn new(alloc: Global, rows: u32, columns: u32) -> Result<Costs, Memory>
        ensures rows { IfOk result (λ costs. costs.rows ≡ rows) }
        ensures columns { IfOk result (λ costs. costs.columns ≡ columns) }
        ensures zero { IfOk result (λ costs. (r c : ℕ) → cost_at costs r c ≡ 0) }
    {
        let items = vec![in alloc; 0; rows as usize * columns as usize]?;
        Ok(Costs {
            rows,
            columns,
            items,
        })
    }

    /// How many rows there are.
    pub fn rows(&self) -> u32
        ensures { result ≡ self.now.rows }
    {
        self.rows
    }

    /// How many columns there are. No cost is above 8,000,000.
    pub fn columns(&self) -> u32
        ensures columns { result ≡ self.now.columns }
        ensures small { (r c : ℕ) → cost_at self.now r c ≤ 8000000 }
    {
        self.columns
    }

    /// Sets the cost of a row at a column. The other costs stay.
    pub fn set(&mut self, row: u32, column: u32, cost: u32)
        requires row_in { row < self.old.rows }
        requires column_in { column < self.old.columns }
        requires small { cost ≤ 8000000 }
        ensures rows { self.new.rows ≡ self.old.rows }
        ensures columns { self.new.columns ≡ self.old.columns }
        ensures set { cost_at self.new row column ≡ cost }
        ensures others { (r c : ℕ) → c < self.old.columns → (r ≢ row) ⊎ (c ≢ column) →
            cost_at self.new r c ≡ cost_at self.old r c }
    {
        let at = row as usize * self.columns as usize + column as usize;
        self.items[at] = cost;
    }

    /// The cost of a row at a column.
    pub fn cost(&self, row: u32, column: u32) -> u32
        requires row_in { row < self.now.rows }
        requires column_in { column < self.now.columns }
        ensures cost { result ≡ cost_at self.now row column }
        ensures small { result ≤ 8000000 }
    {
        self.items[row as usize * self.columns as usize + column as usize]
    }
}
