//! The prices as whole numbers with a sign.

ghost use Rattle.std.specs.Prelude.{ℕ, ◌≡◌, ◌<◌, pos, neg_ℤ, length, IfOk, slice_index, vec_len};
ghost use Rattle.zac_assign.specs.Assignment.{price_at};

use std::alloc::{AllocError, Global};

/// The prices of the rows.
pub fn row_prices(alloc: Global, price: &[u32]) -> Result<Vec<i64>, AllocError>
    ensures len { IfOk result (λ prices. vec_len prices ≡ length price.now) }
    ensures each { IfOk result (λ prices. (k : ℕ) → k < length price.now →
        price_at prices.items k ≡ pos (slice_index price.now k)) }
{
    let mut prices = Vec::with_capacity(alloc, price.len())?;
    for one in price {
        prices.push(i64::from(*one))?;
    }
    Ok(prices)
}

/// The prices of the columns: what is to be paid on top at a column lowers its price.
pub fn column_prices(alloc: Global, fee: &[u32]) -> Result<Vec<i64>, AllocError>
    ensures len { IfOk result (λ prices. vec_len prices ≡ length fee.now) }
    ensures each { IfOk result (λ prices. (k : ℕ) → k < length fee.now →
        price_at prices.items k ≡ neg_ℤ (pos (slice_index fee.now k))) }
{
    let mut prices = Vec::with_capacity(alloc, fee.len())?;
    for one in fee {
        prices.push(-i64::from(*one))?;
    }
    Ok(prices)
}
