//! The adapter from writers of the system to a sink.
ghost use Rattle.std.specs.Prelude.{◌≡◌, None, OnOk, OnErr};
ghost use Rattle.std.specs.Io.KnownBytes.{Appends as AppendsKnown};
ghost use Rattle.zac_io.specs.Outside.{HasCause, Writes};

use crate::{Failed, Sink};
use std::io::Write;

/// A writer, as a sink that tells nothing of what was written.
///
/// That the system's writers are such a sink is trusted.
#[derive(Drop)]
pub struct OutSink<W: Write + Drop> {
    writer: W,
    faults: u64,
}

impl<W: Write + Drop> OutSink<W> {
    ghost use Rattle.zac_io.specs.Adapters.{out_faults, writer_of};

    /// A sink that writes to this writer.
    pub fn new(writer: W) -> OutSink<W>
        ensures writer { writer_of result ≡ writer }
        ensures faults { out_faults result ≡ 0 }
    {
        OutSink { writer, faults: 0 }
    }

    /// How many calls failed; it stays at 2^64 - 1.
    pub fn faults(&self) -> u64
        ensures { result ≡ out_faults self.now }
    {
        self.faults
    }
}

// Writes all bytes and then flushes. It fails where the writer does, or takes nothing of what is not empty.
fn write_and_flush<W: Write>(writer: &mut W, bytes: &[u8]) -> Result<(), Failed>
    ensures { OnOk result (AppendsKnown (W.contents writer.old) (W.contents writer.new) bytes.now) }
{
    let mut rest = bytes;
    while !rest.is_empty() {
        match writer.write(rest) {
            Ok(0) | Err(_) => return Err(Failed),
            Ok(count) => rest = &rest[count..],
        }
    }
    match writer.flush() {
        Ok(()) => Ok(()),
        Err(_) => Err(Failed),
    }
}

impl<W: Write + Drop> Sink for OutSink<W> {
    ghost use Rattle.zac_io.specs.Outside.{next_count};
    ghost use Rattle.zac_io.specs.Adapters.{out_faults, writer_of};

    ghost written = { λ _. None };

    ghost faults = { out_faults };

    /// Loops until the writer has taken all bytes, and then flushes it; a flush that fails is a failure too.
    fn write(&mut self, bytes: &[u8]) -> Result<(), Failed>
        // What a sink promises.
        ensures bytes { Writes None None bytes.now result }
        ensures cause { HasCause result (out_faults self.old) (out_faults self.new) }

        // The writer was given all bytes, where it tells what it has.
        ensures passed { OnOk result (AppendsKnown (W.contents (writer_of self.old)) (W.contents (writer_of self.new)) bytes.now) }

        // A failure counts once.
        ensures one_fault { OnErr result (out_faults self.new ≡ next_count (out_faults self.old)) }
    {
        match write_and_flush(&mut self.writer, bytes) {
            Ok(()) => Ok(()),
            Err(failed) => {
                self.faults = self.faults.saturating_add(1);
                Err(failed)
            }
        }
    }
}
