//! What a program needs of the outside: a shelf of named files that it reads, and sinks that it writes to.
ghost use Rattle.std.specs.Prelude.{◌≡◌, ℕ, List, Option, Bool, IsTrue, IsErr, OnOk, IfOk};
ghost use Rattle.zac_io.specs.Outside.{NamedFiles, HasCause, RoseWhere, is_missing, Holds, Gives, Writes};

/// A call on the outside failed. Nothing more is known of it than that a count of faults rose.
#[derive(Clone, Copy, Debug)]
pub struct Failed;

/// A shelf of named files, of which one at a time is picked and read.
///
/// A count of faults tells when a call failed. A count of strays rises at a pick of a name that a shelf which tells its
/// files doesn't have, and at no other call; so that of a shelf which tells nothing never rises. Neither count falls, and
/// at 2^64 - 1 it stays. No call changes what the names hold, nor whether that is told.
pub trait Shelf {
    /// What each name holds, where the shelf tells that.
    ghost files: { Self → Option NamedFiles };

    /// What is left of the picked file, where the shelf tells its files; nothing before a file is picked.
    ghost left: { Self → List ℕ };

    /// How often a call failed.
    ghost faults: { Self → ℕ };

    /// How often a name was picked that the shelf tells it doesn't have.
    ghost strays: { Self → ℕ };

    /// Picks the file of this name, all of which is left then.
    ///
    /// Where the shelf tells its files and has none of this name, it is a stray, and fails. Nothing else is a stray.
    fn pick(&mut self, name: &str) -> Result<(), Failed>
        ensures same_files { files self.new ≡ files self.old }
        ensures whole { OnOk result (Holds (files self.old) name.now (left self.new)) }
        ensures cause { HasCause result (faults self.old) (faults self.new) }
        ensures missing { IsTrue (is_missing (files self.old) name.now) → IsErr result }
        ensures stray { RoseWhere (is_missing (files self.old) name.now) (strays self.old) (strays self.new) };

    /// Puts the next bytes of the picked file into the front of the buffer, and answers how many.
    ///
    /// 0 for a buffer that isn't empty comes only at the end. Before any file is picked, it is at the end.
    fn read(&mut self, into: &mut [u8]) -> Result<usize, Failed>
        ensures same_files { files self.new ≡ files self.old }
        ensures bytes { IfOk result (Gives (files self.old) (left self.old) (left self.new) into.new) }
        ensures cause { HasCause result (faults self.old) (faults self.new) }
        ensures same_strays { strays self.new ≡ strays self.old };
}

/// What is written to. A count of faults tells when a call failed; it never falls, and at 2^64 - 1 it stays.
pub trait Sink {
    /// The bytes written so far, where the sink tells that.
    ghost written: { Self → Option (List ℕ) };

    /// How often a call failed.
    ghost faults: { Self → ℕ };

    /// Writes all bytes, or fails after a prefix of them.
    fn write(&mut self, bytes: &[u8]) -> Result<(), Failed>
        ensures bytes { Writes (written self.old) (written self.new) bytes.now result }
        ensures cause { HasCause result (faults self.old) (faults self.new) };
}
