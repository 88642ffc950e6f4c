//! Numbers that are a step apart: the nearest one, and those within reach.

ghost use Rattle.std.specs.Prelude.{◌≡◌, ℕ, ◌+◌, ◌-◌, ◌*◌, ◌<◌, ◌≤◌, ◌↔◌, ◌^◌};
ghost use Rattle.zac_arch.specs.Distances.{difference};

/// How far `n` is from the nearest of `count` numbers, of which `first` is the least and each further one is `step`
/// greater than the one before it.
pub(crate) fn least_distance(first: u32, step: u32, count: u32, n: u32) -> u32
    requires rises { 1 ≤ step }
    requires some { 1 ≤ count }
    requires fits { first + (count - 1) * step < 2 ^ 32 }
    ensures reached { (i : ℕ) × (i < count) × (result ≡ difference n (first + i * step)) }
    ensures least { (i : ℕ) → i < count → result ≤ difference n (first + i * step) }
{
    if n <= first {
        return first - n;
    }
    let last = first + (count - 1) * step;
    if last <= n {
        return n - last;
    }
    let past = (n - first) % step;
    past.min(step - past)
}

/// Which of these numbers are at most `reach` from `n`: the place of the first of them, and one past that of the
/// last one.
pub(crate) fn within_reach(first: u32, step: u32, count: u32, n: u32, reach: u32) -> (u32, u32)
    requires rises { 1 ≤ step }
    requires fits { n + reach < 2 ^ 31 }
    ensures ordered { result.0 ≤ result.1 }
    ensures counted { result.1 ≤ count }
    ensures near { (i : ℕ) → i < count →
        (difference n (first + i * step) ≤ reach) ↔ ((result.0 ≤ i) × (i < result.1)) }
{
    if n + reach < first {
        return (0, 0);
    }
    let end = ((n + reach - first) / step + 1).min(count);
    let begin = n.saturating_sub(reach).saturating_sub(first).div_ceil(step);
    (begin.min(end), end)
}

/// How many of these numbers are below `n`.
pub(crate) fn count_below(first: u32, step: u32, count: u32, n: u32) -> u32
    requires rises { 1 ≤ step }
    ensures counted { result ≤ count }
    ensures below { (i : ℕ) → i < result → first + i * step < n }
    ensures others { (i : ℕ) → result ≤ i → i < count → n ≤ first + i * step }
{
    n.saturating_sub(first).div_ceil(step).min(count)
}
