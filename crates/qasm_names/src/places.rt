//! The places of arguments among those of their gate.

use crate::copy::copy_words;
use qasm_form::{Arg, Named};
use std::alloc::Global;
use std::marker::Model;
use zac_gates::{Bytes, List, Memory};

/// The names of a gate's arguments. Contracts see the list of their words.
#[derive(Drop)]
pub(crate) struct Places {
    words: List<Bytes>,
}

impl Model for Places {
    ghost use Rattle.std.specs.Prelude.{ℕ, List};

    ghost Value = { List (List ℕ) };

    ghost view = { λ p. p.words };
}

impl Places {
    ghost use Rattle.std.specs.Prelude.{◌≡◌, map, IfOk};
    ghost use Rattle.std.specs.List.{position_or_len};
    ghost use Rattle.std.specs.Str.{bytes_eq};
    ghost use Rattle.qasm_form.specs.declared.stmt.Arg.{Arg};
    ghost use Rattle.qasm_names.specs.Environment.{words_of};

    /// The arguments of a gate.
    pub(crate) fn of(alloc: Global, names: &[Named]) -> Result<Places, Memory>
        ensures { IfOk result (λ places. places ≡ words_of names.now) }
    {
        let words = copy_words(alloc, names)?;
        Ok(Places { words })
    }

    /// The place of a word, or the number of the arguments where it isn't there.
    fn place(&self, word: &[u8]) -> usize
        ensures { result ≡ position_or_len (bytes_eq word.now) self.now }
    {
        let words = self.words.as_slice();
        for (place, other) in words.iter().enumerate() {
            if word == other.as_slice() {
                return place;
            }
        }
        words.len()
    }

    /// The places of a call's arguments.
    pub(crate) fn all(&self, alloc: Global, args: &[Arg]) -> Result<List<usize>, Memory>
        ensures { IfOk result (λ places. places ≡ map (λ (arg : Arg). position_or_len (bytes_eq arg.word) self.now) args.now) }
    {
        let mut places = Vec::new(alloc);
        for arg in args {
            places.push(self.place(arg.word.as_slice()))?;
        }
        Ok(List::of(places))
    }
}
