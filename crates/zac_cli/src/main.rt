//! The program `zac`: a compiler from quantum circuits to machines of neutral atoms in zones.
#![tactic(auto)]

use std::alloc::AllocError;
use std::env;
use std::io::{self, ErrorKind};
use std::process::ExitCode;
use zac_flow::{Status, run};
use zac_io::{FileShelf, OutSink};
use zac_watch::{Counter, Kind, Watch};

/// The words after the program's name.
fn words(rt: &HostRuntime) -> io::Result<Vec<String>> {
    let words = env::args(rt)?.skip(1).collect(rt.alloc())?;
    Ok(words)
}

/// Does what the words say, over real files and the standard streams, with a watch of each kind, in the order of their names.
fn run_words(rt: &HostRuntime, words: &[String]) -> Result<Status, AllocError> {
    let mut panel: Vec<Box<dyn Watch>> = Vec::new(rt.alloc());
    for kind in [
        Kind::Gates,
        Kind::Moves,
        Kind::Pairs,
        Kind::Picks,
        Kind::Pulses,
        Kind::Reads,
    ] {
        panel.push(Box::new(rt.alloc(), Counter::new(kind))?)?;
    }
    let mut shelf = FileShelf::new(rt);
    let mut out = OutSink::new(rt.stdout());
    let mut err = OutSink::new(rt.stderr());
    Ok(run(
        rt.alloc(),
        words,
        &mut shelf,
        &mut out,
        &mut err,
        &mut panel,
    ))
}

/// The status of the command. Words that are no text are no command; without memory for them, or for the watches, it is
/// `NoMemory`.
fn status(rt: &HostRuntime) -> Status {
    let ended = match words(rt) {
        Ok(words) => run_words(rt, words.as_slice()),
        Err(e) => match e.kind() {
            ErrorKind::OutOfMemory => Ok(Status::NoMemory),
            _ => run_words(rt, &[]),
        },
    };
    match ended {
        Ok(status) => status,
        Err(_) => Status::NoMemory,
    }
}

fn main(rt: HostRuntime) -> ExitCode {
    ExitCode::from(status(&rt).code())
}
