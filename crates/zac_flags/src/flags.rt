//! A list of flags, 64 in a word.

ghost use Rattle.std.specs.Prelude.{◌≡◌, ℕ, ◌+◌, ◌*◌, ◌<◌, true, false, IfOk, MatchOption, length, replicate, slice_index_or, slice_set};
ghost use Rattle.zac_flags.specs.Flags.{AreSet, IsFirstUnset, IsLastUnset, is_unset_within};
ghost use Rattle.zac_flags.specs.Words.{AreBits};

use crate::bits::{WORD, bits_below, highest, lowest};
use std::alloc::Global;
use std::marker::Model;
use zac_memory::Memory;

/// A list of flags, kept as bits. Contracts see the list. Past its end no flag is set.
#[derive(Drop)]
pub struct Flags {
    /// The flag of a place is bit `place % 64` of word `place / 64`. The bits past the last flag aren't set.
    words: Vec<u64>,
    /// How many flags there are.
    count: usize,
}

impl Model for Flags {
    ghost use Rattle.std.specs.Prelude.{Bool, List};
    ghost use Rattle.zac_flags.specs.Words.{IsKept, flags_of};

    ghost Value = { List Bool };

    ghost view = { λ f. flags_of f.words.items f.count };

    ghost invariant = { λ f. IsKept f.words.items f.count };
}

impl Flags {
    /// So many flags, none of them set. The only error is that memory ran out.
    pub fn none(alloc: Global, count: usize) -> Result<Flags, Memory>
        ensures { IfOk result (λ flags. flags ≡ replicate count false) }
    {
        let words = vec![in alloc; 0; count.div_ceil(WORD as usize)]?;
        Ok(Flags { words, count })
    }

    /// How many flags there are.
    pub fn count(&self) -> usize
        ensures { result ≡ length self.now }
    {
        self.count
    }

    /// Whether the flag of a place is set.
    pub fn is_set(&self, place: u32) -> bool
        ensures { result ≡ slice_index_or self.now place false }
    {
        (self.word(place / WORD) >> (place % WORD)) & 1 == 1
    }

    /// Sets the flag of a place. All others stay.
    pub fn set(&mut self, place: u32)
        requires { place < length self.old }
        ensures { self.new ≡ slice_set self.old place true }
    {
        self.words[(place / WORD) as usize] |= 1 << (place % WORD);
    }

    /// Clears the flag of a place. All others stay.
    pub fn clear(&mut self, place: u32)
        requires { place < length self.old }
        ensures { self.new ≡ slice_set self.old place false }
    {
        self.words[(place / WORD) as usize] &= !(1 << (place % WORD));
    }

    /// The first place from `begin` to before `end` at which neither list has its flag set; none exactly where there is
    /// none. The work is in the words of 64 places up to the answer.
    pub fn first_unset(&self, other: &Flags, begin: u32, end: u32) -> Option<u32>
        ensures { MatchOption result (AreSet self.now other.now begin end)
            (IsFirstUnset self.now other.now begin end) }
    {
        for number in begin / WORD..end.div_ceil(WORD) {
            if let Some(bit) = lowest(self.unset(other, number, begin, end)) {
                return Some(number * WORD + bit);
            }
        }
        None
    }

    /// The last place from `begin` to before `end` at which neither list has its flag set; none exactly where there is
    /// none. The work is in the words of 64 places down to the answer.
    pub fn last_unset(&self, other: &Flags, begin: u32, end: u32) -> Option<u32>
        ensures { MatchOption result (AreSet self.now other.now begin end)
            (IsLastUnset self.now other.now begin end) }
    {
        let first = begin / WORD;
        let mut number = end.div_ceil(WORD);
        while first < number {
            number -= 1;
            if let Some(bit) = highest(self.unset(other, number, begin, end)) {
                return Some(number * WORD + bit);
            }
        }
        None
    }

    /// The word of a number. Its bits are the flags of the 64 places from 64 times the number on.
    fn word(&self, number: u32) -> u64
        ensures { AreBits result (λ i. slice_index_or self.now (number * 64 + i) false) }
    {
        self.words.get(number as usize).copied().unwrap_or(0)
    }

    /// The places of the word of a number that are from `begin` to before `end` and at which neither list has its flag
    /// set, as the bits of a word.
    fn unset(&self, other: &Flags, number: u32, begin: u32, end: u32) -> u64
        requires { number * 64 < end }
        ensures { AreBits result (λ i. is_unset_within self.now other.now begin end (number * 64 + i)) }
    {
        let first = number * WORD;
        let within = bits_below(end - first) & !bits_below(begin.saturating_sub(first));
        !(self.word(number) | other.word(number)) & within
    }
}
