//! A case, and how it ends.

use crate::end::End;
use crate::escape::unescaped;
use crate::files::{add_bytes, change, fronted, lines_of};
use crate::table::{Row, Side};
use std::alloc::{AllocError, Global};
use std::{fs, io};
use zac_flow::run;
use zac_gates::{Bytes, List};
use zac_io::{MemShelf, MemSink};
use zac_watch::{Counter, Kind, Watch};

/// How many bytes a sink takes where no row says it.
const ROOM: usize = 16_777_216;

/// A command, the files of its shelf, the watches of its panel, which calls fail, and how much room there is.
#[derive(Drop)]
pub struct Case {
    words: String,
    files: Vec<(Vec<u8>, Vec<u8>)>,
    kinds: Vec<Kind>,
    shelf: Vec<u64>,
    out: Vec<u64>,
    err: Vec<u64>,
    room: usize,
    fronts: Option<String>,
}

impl Case {
    /// A case with these words, no file, an empty panel, and no call that fails.
    pub fn new(alloc: Global, words: &str) -> Result<Case, AllocError> {
        Ok(Case {
            words: words.to_string(alloc)?,
            files: Vec::new(alloc),
            kinds: Vec::new(alloc),
            shelf: Vec::new(alloc),
            out: Vec::new(alloc),
            err: Vec::new(alloc),
            room: ROOM,
            fronts: None,
        })
    }

    /// Adds a row. False where no case has such a row, a text has an escape that is none, a number is no line of its file, a
    /// kind is none, or what is to be changed isn't there.
    pub fn add(&mut self, rt: &HostRuntime, row: Row<'_>) -> io::Result<bool> {
        match row {
            Row::Bytes { name, times, text } => self.add_text(rt.alloc(), name, times, text),
            Row::File { name, path } => {
                let bytes = fs::read(rt, path)?;
                add_bytes(rt.alloc(), &mut self.files, name, bytes.as_slice())?;
                Ok(true)
            }
            Row::Lines {
                name,
                path,
                numbers,
            } => self.add_lines(rt, name, path, numbers),
            Row::Change { name, old, new } => self.change(rt.alloc(), name, old, new),
            Row::Fail { side, call } => {
                self.fail(side, call)?;
                Ok(true)
            }
            Row::Room(room) => {
                self.room = room;
                Ok(true)
            }
            Row::Panel(names) => self.add_watches(names),
            Row::Fronts(name) => {
                self.fronts = Some(name.to_string(rt.alloc())?);
                Ok(true)
            }
            _ => Ok(false),
        }
    }

    /// Adds a text to a file so many times.
    fn add_text(&mut self, alloc: Global, name: &str, times: u32, text: &str) -> io::Result<bool> {
        let Some(bytes) = unescaped(alloc, text)? else {
            return Ok(false);
        };
        for _ in 0..times {
            add_bytes(alloc, &mut self.files, name, bytes.as_slice())?;
        }
        Ok(true)
    }

    /// Adds lines of a real file to a file.
    fn add_lines(
        &mut self,
        rt: &HostRuntime,
        name: &str,
        path: &str,
        numbers: &str,
    ) -> io::Result<bool> {
        let bytes = fs::read(rt, path)?;
        match lines_of(rt.alloc(), bytes.as_slice(), numbers)? {
            Some(lines) => {
                add_bytes(rt.alloc(), &mut self.files, name, lines.as_slice())?;
                Ok(true)
            }
            None => Ok(false),
        }
    }

    /// Changes a file where a text stands in it first.
    fn change(&mut self, alloc: Global, name: &str, old: &str, new: &str) -> io::Result<bool> {
        let (Some(old), Some(new)) = (unescaped(alloc, old)?, unescaped(alloc, new)?) else {
            return Ok(false);
        };
        Ok(change(alloc, &mut self.files, name, old.as_slice(), new.as_slice())?)
    }

    /// Adds watches of these kinds to the panel.
    fn add_watches(&mut self, names: &str) -> io::Result<bool> {
        for name in names.split_whitespace() {
            let Some(kind) = kind_named(name) else {
                return Ok(false);
            };
            self.kinds.push(kind)?;
        }
        Ok(true)
    }

    /// Has a call fail on a side.
    fn fail(&mut self, side: Side, call: u64) -> Result<(), AllocError> {
        match side {
            Side::Shelf => self.shelf.push(call)?,
            Side::Out => self.out.push(call)?,
            Side::Err => self.err.push(call)?,
        }
        Ok(())
    }

    /// Runs the case, and prints how it ends.
    pub fn run(&self, rt: &HostRuntime) -> io::Result<()> {
        println!(rt; "case {}", self.words)?;
        match &self.fronts {
            None => match self.end(rt.alloc(), self.copied(rt.alloc())?)? {
                Some(end) => end.print(rt),
                None => println!(rt; "no memory for the sinks"),
            },
            Some(name) => self.run_fronts(rt, name.as_str()),
        }
    }

    /// Runs the case with each front of a file, the empty one and the whole file too, and prints the ends that aren't as the one
    /// before.
    fn run_fronts(&self, rt: &HostRuntime, name: &str) -> io::Result<()> {
        let mut last: Option<End> = None;
        let mut fronts = 1;
        for (known, held) in &self.files {
            if known.as_slice() == name.as_bytes() {
                fronts = held.len().saturating_add(1);
            }
        }
        for front in 0..fronts {
            let files = fronted(rt.alloc(), &self.files, name, front)?;
            let Some(end) = self.end(rt.alloc(), files)? else {
                return println!(rt; "no memory for the sinks");
            };
            let is_known = match &last {
                Some(before) => before.is_as(&end),
                None => false,
            };
            if !is_known {
                println!(rt; "  from {front} bytes of {name} on")?;
                end.print(rt)?;
                last = Some(end);
            }
        }
        Ok(())
    }

    /// The files, copied.
    fn copied(&self, alloc: Global) -> Result<List<(Bytes, Bytes)>, AllocError> {
        fronted(alloc, &self.files, "", 0)
    }

    /// How the case ends over these files. None without memory for the sinks.
    fn end(&self, alloc: Global, files: List<(Bytes, Bytes)>) -> Result<Option<End>, AllocError> {
        let words = words_of(alloc, self.words.as_str())?;
        let mut shelf = MemShelf::new(files, List::of(self.shelf.clone()?));
        let out = MemSink::new(alloc, self.room, List::of(self.out.clone()?));
        let err = MemSink::new(alloc, ROOM, List::of(self.err.clone()?));
        let (Ok(mut out), Ok(mut err)) = (out, err) else {
            return Ok(None);
        };
        let mut panel: Vec<Box<dyn Watch>> = Vec::new(alloc);
        for kind in &self.kinds {
            panel.push(Box::new(alloc, Counter::new(*kind))?)?;
        }
        let words = words.as_slice();
        let status = run(alloc, words, &mut shelf, &mut out, &mut err, &mut panel);
        let mut sums = Vec::new(alloc);
        for watch in &panel {
            sums.push((watch.kind().name(), watch.sum()))?;
        }
        Ok(Some(End {
            status: status.code(),
            out: out.bytes().to_vec(alloc)?,
            err: err.bytes().to_vec(alloc)?,
            sums,
        }))
    }
}

/// The kind of this name.
fn kind_named(name: &str) -> Option<Kind> {
    match name {
        "gates" => Some(Kind::Gates),
        "moves" => Some(Kind::Moves),
        "pairs" => Some(Kind::Pairs),
        "picks" => Some(Kind::Picks),
        "pulses" => Some(Kind::Pulses),
        "reads" => Some(Kind::Reads),
        _ => None,
    }
}

/// The words of a line.
fn words_of(alloc: Global, line: &str) -> Result<Vec<String>, AllocError> {
    let mut words = Vec::new(alloc);
    for word in line.split_whitespace() {
        words.push(word.to_string(alloc)?)?;
    }
    Ok(words)
}
