//! Runs the cases of a table over memory, and prints how each ends: its status and its line, what it wrote, and what each watch
//! of its panel adds up to.
//!
//! The table is read from standard input, a row a line. What stands behind a name is read up to the line's end; there
//! `\n`, `\r`, `\t`, `\s` (a blank), `\\` and `\xHH` stand for one byte each.
//!
//! ```text
//! # ..               a comment, which is printed
//! case WORD ..       begins a case, with the words of its command
//! text NAME BYTES    adds bytes to the shelf's file of this name
//! repeat NAME N BYTES    adds them N times
//! file NAME PATH     adds the bytes of a file of data/
//! lines NAME PATH N ..    adds lines of a file of data/, each by its number from 1
//! change NAME OLD NEW     puts NEW in the place of OLD, where it stands first in the shelf's file
//! panel KIND ..      adds watches of these kinds to the panel, which is empty without such a row
//! fronts NAME        runs the case with each front of the shelf's file, and prints the ends that aren't as the one before
//! fail shelf N       the shelf's call N fails, counted from 1; so for `out` and `err`
//! room N             out takes N bytes in all
//! ```
#![tactic(auto)]

mod case;
mod end;
mod escape;
mod files;
mod table;

use case::Case;
use std::io;
use table::{Row, row_of};

/// Ends the case that was read last, where there is one.
fn finish(rt: &HostRuntime, last: Option<Case>) -> io::Result<()> {
    match last {
        Some(case) => case.run(rt),
        None => Ok(()),
    }
}

/// Adds a row to the case that was read last, and answers whether it is right there.
fn add(rt: &HostRuntime, last: &mut Option<Case>, row: Row<'_>) -> io::Result<bool> {
    match last {
        Some(case) => case.add(rt, row),
        None => Ok(false),
    }
}

fn main(rt: HostRuntime) -> io::Result<()> {
    let mut last = None;
    for line in rt.lines(rt.alloc()) {
        let line = line?;
        match row_of(line.as_str()) {
            Some(Row::Nothing) => {}
            Some(Row::Comment(text)) => {
                finish(&rt, last.take())?;
                println!(rt; "{text}")?;
            }
            Some(Row::Case(words)) => {
                finish(&rt, last.take())?;
                last = Some(Case::new(rt.alloc(), words)?);
            }
            Some(row) => {
                if !add(&rt, &mut last, row)? {
                    println!(rt; "bad line: {line}")?;
                }
            }
            None => println!(rt; "bad line: {line}")?,
        }
    }
    finish(&rt, last)
}
