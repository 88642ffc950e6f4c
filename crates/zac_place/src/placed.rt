//! Places of their own at the least cost.

ghost use Rattle.std.specs.Prelude.{◌≡◌, ◌≢◌, ◌<◌, ◌≤◌, ℕ, All, IfOk, length, map, slice_index};
ghost use Rattle.std.specs.List.{AllPairs};
ghost use Rattle.zac_place.specs.Placing.{IsPlacing, ProvesPlacing};
ghost use Rattle.zac_place.specs.Tables.{Tabulates};

use std::alloc::Global;
use zac_assign::{Costs, assign};
use zac_gates::List;
use zac_memory::Memory;

/// A place for each row, and prices that prove that no other way costs less.
#[derive(Drop)]
pub struct Placed {
    /// The place of each row: the number of a trap or of a site.
    pub targets: List<u32>,
    /// The price of each row.
    pub row_price: List<i64>,
    /// The price of each place that is offered, by rising number: at most 0, and 0 where no row is placed.
    pub column_price: List<i64>,
}

/// The places at these columns of the offer.
fn places_at(alloc: Global, offered: &[u32], columns: &[u32]) -> Result<Vec<u32>, Memory>
    requires { All (λ c. c < length offered.now) columns.now }
    ensures { IfOk result (λ places. places.items ≡ map (slice_index offered.now) columns.now) }
{
    let mut places = Vec::with_capacity(alloc, columns.len())?;
    for column in columns {
        places.push(offered[*column as usize])?;
    }
    Ok(places)
}

/// A least placing of the rows of a table, whose columns are the offered places. No place is offered twice, and there are
/// at least as many as rows.
pub(crate) fn place(alloc: Global, offered: &[u32], costs: &Costs) -> Result<Placed, Memory>
    requires columns { costs.now.columns ≡ length offered.now }
    requires rows { costs.now.rows ≤ costs.now.columns }
    requires distinct { AllPairs (λ a b. a ≢ b) offered.now }
    ensures placing { IfOk result (λ placed. IsPlacing offered.now costs.now.rows placed.targets) }
    ensures prices { IfOk result (λ placed. (cost : ℕ → ℕ → ℕ)
        → Tabulates cost offered.now costs.now.rows costs.now
        → ProvesPlacing cost offered.now costs.now.rows placed.targets placed.row_price placed.column_price) }
{
    let assigned = assign(alloc, costs)?;
    let targets = places_at(alloc, offered, assigned.columns.as_slice())?;
    Ok(Placed {
        targets: List::of(targets),
        row_price: assigned.row_price,
        column_price: assigned.column_price,
    })
}
