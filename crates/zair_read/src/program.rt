//! From a text to a program.

ghost use Rattle.std.specs.Prelude.{◌≡◌, ◌+◌, ◌<◌, ◌^◌, [], ◌∷◌, ◌++◌, Contains, IfOk, IfErr, MatchOption, IsTrue};
ghost use Rattle.zair_form.specs.Steps.{is_program};
ghost use Rattle.zair_text.specs.Tally.{totals_of};
ghost use Rattle.zair_read.specs.Causes.{IsCauseOf};
ghost use Rattle.zair_read.specs.Kinds.{may_stand, IsTallied, IsEndFault};
ghost use Rattle.zair_read.specs.Texts.{IsProgramText};

use crate::fault::ProgramFault;
use crate::line::{Kind, is_header_text, kind_of};
use std::alloc::Global;
use zac_gates::List;
use zair_form::{Act, Instr, Program};
use zair_text::{Totals, tally};

// What stands before the first line feed, and what stands behind it.
fn first_line(bytes: &[u8]) -> Option<(&[u8], &[u8])>
    ensures { MatchOption result (¬ Contains bytes.now 10)
        (λ p. (bytes.now ≡ p.0.now ++ 10 ∷ p.1.now) × (¬ Contains p.0.now 10)) }
{
    let place = bytes.iter().position(|b| *b == b'\n')?;
    Some((&bytes[..place], &bytes[place + 1..]))
}

// Whether an instruction is an `init` exactly where there is none before it.
fn may_stand(instrs: &[Instr], instr: &Instr) -> bool
    ensures { result ≡ may_stand instrs.now instr.now }
{
    let is_init = matches!(instr.act, Act::Init { .. });
    match instrs {
        [] => is_init,
        [_, ..] => !is_init,
    }
}

// The program of the instructions at the line of an end, which has this number, with these totals and these bytes behind it.
fn whole(
    alloc: Global,
    instrs: Vec<Instr>,
    totals: Totals,
    later: &[u8],
    line: u64,
) -> Result<Program, ProgramFault>
    requires { line + 1 < 2 ^ 64 }
    ensures program { IfOk result (λ p. (p ≡ instrs.items) × IsTallied instrs.items totals × (later.now ≡ [])) }
    ensures fault { IfErr result (IsEndFault instrs.items totals later.now line) }
{
    let Some(program) = Program::new(List::of(instrs)) else {
        return Err(ProgramFault::Line { line });
    };
    if tally(alloc, &program)? != totals {
        return Err(ProgramFault::Line { line });
    }
    if !later.is_empty() {
        return Err(ProgramFault::Line { line: line + 1 });
    }
    Ok(program)
}

/// The program of a text.
///
/// It is answered exactly where the lines of the bytes are, in this order: the header's line; a line of each instruction, of
/// which the first is an `init` and no later one is; and a line of the end with the tally of these instructions. A line is what
/// `serde_json` reads as the JSON value (`read_line` says what of it may differ), and its line feed.
///
/// Else the fault tells the first line that is not right in its place, counted from 1; where the text ends before the line of
/// its end, it is the line behind the last one. It reads a line at a time, and holds no line but this one beside the instructions.
/// The time is linear in the bytes, up to the logarithm of the ordered trees that hold an object's keys and the tally's qubits.
pub fn read_program(alloc: Global, bytes: &[u8]) -> Result<Program, ProgramFault>
    ensures program { IfOk result (IsProgramText bytes.now) }
    ensures fault { IfErr result (IsCauseOf bytes.now) }
{
    let Some((first, mut rest)) = first_line(bytes) else {
        return Err(ProgramFault::Line { line: 1 });
    };
    if !is_header_text(alloc, first)? {
        return Err(ProgramFault::Line { line: 1 });
    }
    let mut instrs = Vec::new(alloc);
    let mut line = 1;
    'lines: while let Some((text, later)) = first_line(rest) {
        line += 1;
        match kind_of(alloc, text)? {
            Kind::Instr(instr) => {
                if !may_stand(instrs.as_slice(), &instr) {
                    return Err(ProgramFault::Line { line });
                }
                instrs.push(instr)?;
            }
            Kind::End(totals) => return whole(alloc, instrs, totals, later, line),
            Kind::Neither => return Err(ProgramFault::Line { line }),
        }
        rest = later;
    }
    Err(ProgramFault::Line { line: line + 1 })
}
