//! The adapter from files of the system to a shelf.
ghost use Rattle.std.specs.Prelude.{◌≡◌, [], None, IsTrue, IsErr, IfOk, OnOk, OnErr, is_some, is_ok};
ghost use Rattle.zac_io.specs.Outside.{HasCause, is_missing, Holds, Gives};

use crate::{Failed, Shelf};
use std::fs;
use std::io::Read;
use std::rt::Files;

/// Files of the system, as a shelf that tells nothing of what they hold.
///
/// That the system's files are such a shelf is trusted.
#[derive(Drop)]
pub struct FileShelf<'a, R: Files> {
    rt: &'a R,
    picked: Option<R::File>,
    faults: u64,
}

impl<'a, R: Files> FileShelf<'a, R> {
    ghost use Rattle.zac_io.specs.Adapters.{file_faults, picked_file};

    /// A shelf of the files that this runtime opens, with none picked.
    pub fn new(rt: &'a R) -> FileShelf<'a, R>
        ensures picked { picked_file result ≡ None }
        ensures faults { file_faults result ≡ 0 }
    {
        FileShelf {
            rt,
            picked: None,
            faults: 0,
        }
    }

    /// How many calls failed; it stays at 2^64 - 1.
    pub fn faults(&self) -> u64
        ensures { result ≡ file_faults self.now }
    {
        self.faults
    }
}

impl<'a, R: Files> Shelf for FileShelf<'a, R> {
    ghost use Rattle.zac_io.specs.Outside.{next_count};
    ghost use Rattle.zac_io.specs.Adapters.{file_faults, picked_file, ReadsPicked};

    ghost files = { λ _. None };

    ghost left = { λ _. [] };

    ghost faults = { file_faults };

    ghost strays = { λ _. 0 };

    fn pick(&mut self, name: &str) -> Result<(), Failed>
        // What a shelf promises.
        ensures whole { OnOk result (Holds None name.now []) }
        ensures missing { IsTrue (is_missing None name.now) → IsErr result }
        ensures cause { HasCause result (file_faults self.old) (file_faults self.new) }

        // The file was opened, or none is picked; a failure counts once.
        ensures picked { is_some (picked_file self.new) ≡ is_ok result }
        ensures one_fault { OnErr result (file_faults self.new ≡ next_count (file_faults self.old)) }
    {
        match fs::open(self.rt, name) {
            Ok(file) => {
                self.picked = Some(file);
                Ok(())
            }
            Err(_) => {
                self.picked = None;
                self.faults = self.faults.saturating_add(1);
                Err(Failed)
            }
        }
    }

    fn read(&mut self, into: &mut [u8]) -> Result<usize, Failed>
        // What a shelf promises.
        ensures bytes { IfOk result (Gives None [] [] into.new) }
        ensures cause { HasCause result (file_faults self.old) (file_faults self.new) }

        // It is a read of the picked file; a failure counts once.
        ensures read { ReadsPicked R.File.remaining (picked_file self.old) (picked_file self.new) result into.new }
        ensures one_fault { OnErr result (file_faults self.new ≡ next_count (file_faults self.old)) }
    {
        let Some(file) = &mut self.picked else {
            return Ok(0);
        };
        match file.read(into) {
            Ok(count) => Ok(count),
            Err(_) => {
                self.faults = self.faults.saturating_add(1);
                Err(Failed)
            }
        }
    }
}
