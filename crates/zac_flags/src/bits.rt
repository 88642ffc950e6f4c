//! The bits of one word.

ghost use Rattle.std.specs.Prelude.{◌≡◌, ℕ, ◌<◌, false, nat_lt, MatchOption};
ghost use Rattle.zac_flags.specs.Words.{AreBits, IsHighest, IsLowest, has_bit};

/// How many bits a word has.
pub(crate) const WORD: u32 = 64;

/// The word in which the first `count` bits are set, and no others; in which all are where `count` is 64 or more.
pub(crate) fn bits_below(count: u32) -> u64
    ensures { AreBits result (λ i. nat_lt i count) }
{
    if count < WORD {
        (1 << count) - 1
    } else {
        u64::MAX
    }
}

/// The lowest bit that is set; none exactly where none is.
pub(crate) fn lowest(word: u64) -> Option<u32>
    ensures { MatchOption result ((i : ℕ) → i < 64 → has_bit word i ≡ false) (IsLowest word) }
{
    if word == 0 {
        return None;
    }
    Some(word.trailing_zeros())
}

/// The highest bit that is set; none exactly where none is.
pub(crate) fn highest(word: u64) -> Option<u32>
    ensures { MatchOption result ((i : ℕ) → i < 64 → has_bit word i ≡ false) (IsHighest word) }
{
    if word == 0 {
        return None;
    }
    Some(WORD - 1 - word.leading_zeros())
}
