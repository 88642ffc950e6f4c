//! A shelf over memory.
ghost use Rattle.std.specs.Prelude.{◌≡◌, ◌||◌, ◌+◌, ◌-◌, ◌^◌, ◌<◌, ℕ, List, [], Some, min, length, take, drop, IsTrue, IsErr, OnOk, OnErr, IfOk, is_err, is_none, if◌then◌else◌};
ghost use Rattle.zac_io.specs.Outside.{HasCause, RoseWhere, is_missing, Holds, Gives};
ghost use Rattle.zac_io.specs.Files.{place_of, bytes_at};

use crate::calls::Calls;
use crate::{Failed, Shelf};
use zac_gates::{Bytes, List};

/// Files in memory, by name, of which the first of a name counts.
///
/// Calls are counted from 1, and the listed ones fail, pass no byte and pick no file. A name that the shelf doesn't
/// have fails too, and is a stray. A failed call leaves what is left of the picked file as it was.
#[derive(Drop)]
pub struct MemShelf {
    files: List<(Bytes, Bytes)>,
    calls: Calls,
    picked: Option<usize>,
    at: usize,
    faults: u64,
    strays: u64,
}

impl MemShelf {
    ghost use Rattle.zac_io.specs.MemShelf.{pairs_of, left_of, shelf_calls, shelf_faults, shelf_strays};

    /// A shelf of these files, each a name and its bytes, with none picked. Calls with a number in `failing` fail.
    pub fn new(files: List<(Bytes, Bytes)>, failing: List<u64>) -> MemShelf
        ensures files { pairs_of result ≡ files }
        ensures left { left_of result ≡ [] }
        ensures calls { shelf_calls result ≡ record { made = 0; failing = failing } }
        ensures faults { shelf_faults result ≡ 0 }
        ensures strays { shelf_strays result ≡ 0 }
    {
        MemShelf {
            files,
            calls: Calls { made: 0, failing },
            picked: None,
            at: 0,
            faults: 0,
            strays: 0,
        }
    }

    /// How many calls failed; it stays at 2^64 - 1.
    pub fn faults(&self) -> u64
        ensures { result ≡ shelf_faults self.now }
    {
        self.faults
    }

    /// How many calls picked a name that the shelf doesn't have; it stays at 2^64 - 1.
    pub fn strays(&self) -> u64
        ensures { result ≡ shelf_strays self.now }
    {
        self.strays
    }
}

// The place of the first file of this name.
fn place_in(files: &[(Bytes, Bytes)], name: &[u8]) -> Option<usize>
    ensures { result ≡ place_of files.now name.now }
{
    files.iter().position(|file| file.0.as_slice() == name)
}

// The bytes of the file at this place.
fn content(files: &[(Bytes, Bytes)], place: usize) -> &[u8]
    ensures { result.now ≡ bytes_at files.now place }
{
    match files.get(place) {
        Some(file) => file.1.as_slice(),
        None => &[],
    }
}

// Puts as many of the bytes from `at` on as fit into the front of the buffer, and answers how many.
fn copy_from(bytes: &[u8], at: usize, into: &mut [u8]) -> usize
    ensures count { result ≡ min (length into.old) (length bytes.now - at) }
    ensures front { take result into.new ≡ take result (drop at bytes.now) }
    ensures fits { at + result < 2 ^ 64 }
{
    if at >= bytes.len() {
        return 0;
    }
    let rest = &bytes[at..];
    let count = into.len().min(rest.len());
    into[..count].copy_from_slice(&rest[..count]);
    count
}

impl Shelf for MemShelf {
    ghost use Rattle.zac_io.specs.Outside.{next_count};
    ghost use Rattle.zac_io.specs.Calls.{fails_next, after_call};
    ghost use Rattle.zac_io.specs.Files.{file_of};
    ghost use Rattle.zac_io.specs.MemShelf.{pairs_of, left_of, shelf_calls, shelf_faults, shelf_strays};

    ghost files = { λ shelf. Some (file_of (pairs_of shelf)) };

    ghost left = { left_of };

    ghost faults = { shelf_faults };

    ghost strays = { shelf_strays };

    fn pick(&mut self, name: &str) -> Result<(), Failed>
        // What a shelf promises.
        ensures same_files { Some (file_of (pairs_of self.new)) ≡ Some (file_of (pairs_of self.old)) }
        ensures whole { OnOk result (Holds (Some (file_of (pairs_of self.old))) name.now (left_of self.new)) }
        ensures cause { HasCause result (shelf_faults self.old) (shelf_faults self.new) }
        ensures missing { IsTrue (is_missing (Some (file_of (pairs_of self.old))) name.now) → IsErr result }
        ensures stray { RoseWhere (is_missing (Some (file_of (pairs_of self.old))) name.now) (shelf_strays self.old) (shelf_strays self.new) }

        // It fails exactly at a listed call and at a name that isn't there, and counts it.
        ensures pairs { pairs_of self.new ≡ pairs_of self.old }
        ensures counted { shelf_calls self.new ≡ after_call (shelf_calls self.old) }
        ensures fails { is_err result ≡ (fails_next (shelf_calls self.old) || is_none (file_of (pairs_of self.old) name.now)) }
        ensures one_fault { OnErr result (shelf_faults self.new ≡ next_count (shelf_faults self.old)) }
        ensures one_stray { shelf_strays self.new ≡ (if is_none (file_of (pairs_of self.old) name.now) then next_count (shelf_strays self.old) else shelf_strays self.old) }
        ensures failed { OnErr result (left_of self.new ≡ left_of self.old) }
    {
        let listed = self.calls.fails();
        let place = place_in(self.files.as_slice(), name.as_bytes());
        if place.is_none() {
            self.strays = self.strays.saturating_add(1);
        }
        if listed || place.is_none() {
            self.faults = self.faults.saturating_add(1);
            return Err(Failed);
        }
        self.picked = place;
        self.at = 0;
        Ok(())
    }

    fn read(&mut self, into: &mut [u8]) -> Result<usize, Failed>
        // What a shelf promises.
        ensures same_files { Some (file_of (pairs_of self.new)) ≡ Some (file_of (pairs_of self.old)) }
        ensures bytes { IfOk result (Gives (Some (file_of (pairs_of self.old))) (left_of self.old) (left_of self.new) into.new) }
        ensures cause { HasCause result (shelf_faults self.old) (shelf_faults self.new) }
        ensures same_strays { shelf_strays self.new ≡ shelf_strays self.old }

        // It fails exactly at a listed call, counts it and passes no byte. Else it gives as much as the buffer takes.
        ensures pairs { pairs_of self.new ≡ pairs_of self.old }
        ensures counted { shelf_calls self.new ≡ after_call (shelf_calls self.old) }
        ensures fails { is_err result ≡ fails_next (shelf_calls self.old) }
        ensures one_fault { OnErr result (shelf_faults self.new ≡ next_count (shelf_faults self.old)) }
        ensures failed { OnErr result ((left_of self.new ≡ left_of self.old) × (into.new ≡ into.old)) }
        ensures count { IfOk result (λ count. count ≡ min (length into.old) (length (left_of self.old))) }
    {
        if self.calls.fails() {
            self.faults = self.faults.saturating_add(1);
            return Err(Failed);
        }
        let Some(place) = self.picked else {
            return Ok(0);
        };
        let count = copy_from(content(self.files.as_slice(), place), self.at, into);
        self.at += count;
        Ok(count)
    }
}
