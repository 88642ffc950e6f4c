//! How a case ends.

use std::{io, str};

/// How many lines of a text are printed at most.
const LINES: usize = 20;

/// How many bytes of a text are printed at most.
const BYTES: usize = 100_000;

/// The status, what `err` and `out` hold, and of each watch of the panel its name and its sum.
#[derive(Drop)]
pub struct End {
    pub status: u8,
    pub err: Vec<u8>,
    pub out: Vec<u8>,
    pub sums: Vec<(&'static str, u128)>,
}

impl End {
    /// Whether the status and what is written are those of another end.
    pub fn is_as(&self, other: &End) -> bool {
        self.status == other.status
            && self.err.as_slice() == other.err.as_slice()
            && self.out.as_slice() == other.out.as_slice()
    }

    /// Prints the status, what `err` holds, what `out` holds, and the name and the sum of each watch.
    pub fn print(&self, rt: &HostRuntime) -> io::Result<()> {
        println!(rt; "  status {}", self.status)?;
        print_text(rt, "err", self.err.as_slice())?;
        print_text(rt, "out", self.out.as_slice())?;
        for (name, sum) in &self.sums {
            println!(rt; "  shown {name} {sum}")?;
        }
        Ok(())
    }
}

/// Prints each line of a text behind a name, or how many there are and how many bytes they have. Bytes that stand
/// behind the last line feed are called the front of a line.
fn print_text(rt: &HostRuntime, name: &str, bytes: &[u8]) -> io::Result<()> {
    let lines = bytes.iter().filter(|byte| **byte == b'\n').count();
    if lines > LINES || bytes.len() > BYTES {
        return println!(rt; "  {name} has {lines} lines, {} bytes", bytes.len());
    }
    let Ok(text) = str::from_utf8(bytes) else {
        return println!(rt; "  {name} is no text");
    };
    let mut left = text;
    for _ in 0..lines {
        let Some((line, rest)) = left.split_once('\n') else {
            break;
        };
        println!(rt; "  {name}: {line}")?;
        left = rest;
    }
    if !left.is_empty() {
        println!(rt; "  {name} front: {left}")?;
    }
    Ok(())
}
