//! Writing the text of a program to a sink.

ghost use Rattle.std.specs.Prelude.{◌≡◌, map, IsTrue, IsErrOf, OnOk};
ghost use Rattle.std.specs.List.{list_all};
ghost use Rattle.zac_io.specs.Outside.{Appends, AppendsPrefix};
ghost use Rattle.zair_form.specs.Steps.{has_own_steps};
ghost use Rattle.zair_text.specs.Values.{header_value};
ghost use Rattle.zair_text.specs.Lines.{line, instr_line, totals_line, later_lines, program_lines, joined, program_text};
ghost use Rattle.zair_text.specs.Tally.{totals_of};

use crate::counts::tally;
use crate::line::{add_line, end_line, header_line};
use std::alloc::Global;
use thiserror::Error;
use zac_gates::Memory;
use zac_io::{Failed, Sink, writes_add_up};
use zair_form::{Instr, Program};

/// Why a text was not written whole.
#[derive(Clone, Copy, Debug, PartialEq, Eq, Error)]
pub enum WriteFault {
    /// There was no memory.
    #[error("out of memory")]
    Memory,
    /// A call on the sink failed.
    #[error("write fault")]
    Failed,
}

impl From<Memory> for WriteFault {
    ghost use Rattle.std.specs.Prelude.{◌≡◌};
    ghost use Rattle.zair_text.specs.declared.write.WriteFault.TheVariants.{Memory as NoMemory};

    ghost from_gives = { λ _ e. e ≡ NoMemory };

    fn from(_error: Memory) -> WriteFault {
        WriteFault::Memory
    }
}

impl From<Failed> for WriteFault {
    ghost use Rattle.std.specs.Prelude.{◌≡◌};
    ghost use Rattle.zair_text.specs.declared.write.WriteFault.TheVariants.{Failed as CallFailed};

    ghost from_gives = { λ _ e. e ≡ CallFailed };

    fn from(_error: Failed) -> WriteFault {
        WriteFault::Failed
    }
}

ghost use Rattle.zair_text.specs.Ranges.{AreWritable};
ghost use Rattle.zair_text.specs.Writing.{AppendsLines, HasWriteCause};

/// Writes the text of a program: its first line, a line for each instruction, and the line of its tally, by one
/// `write` for each line.
/// Each line is made and written before the next, in the room of the one before.
///
/// `Failed` comes only where the sink's faults rose, and then a prefix of the text went out. After `Memory` whole
/// lines went out, and not all of them. At every answer but `Failed` the sink's faults are as they were.
///
/// A program that was written whole is writable: by the law `one_text_one_program` no other writable list of instructions
/// has its text.
pub fn write_program<K: Sink>(
    alloc: Global,
    program: &Program,
    sink: &mut K,
) -> Result<(), WriteFault>
    ensures ok { OnOk result
        (Appends (K.written sink.old) (K.written sink.new) (program_text program.now)) }
    ensures failed { IsErrOf result WriteFault.Failed
        → AppendsPrefix (K.written sink.old) (K.written sink.new) (program_text program.now) }
    ensures memory { IsErrOf result WriteFault.Memory
        → AppendsLines (K.written sink.old) (K.written sink.new) (program_lines program.now) }
    ensures cause { HasWriteCause result (K.faults sink.old) (K.faults sink.new) }
    ensures writable { OnOk result (AreWritable program.now) }
{
    writes_add_up();
    write_header(alloc, sink)?;
    write_later(alloc, program, sink)
}

// Writes the first line.
fn write_header<K: Sink>(alloc: Global, sink: &mut K) -> Result<(), WriteFault>
    ensures ok { OnOk result
        (Appends (K.written sink.old) (K.written sink.new) (line header_value)) }
    ensures failed { IsErrOf result WriteFault.Failed
        → AppendsPrefix (K.written sink.old) (K.written sink.new) (line header_value) }
    ensures memory { IsErrOf result WriteFault.Memory → sink.new ≡ sink.old }
    ensures cause { HasWriteCause result (K.faults sink.old) (K.faults sink.new) }
{
    let header = header_line(alloc)?;
    sink.write(header.as_slice())?;
    Ok(())
}

// Writes the lines of the instructions.
fn write_instrs<K: Sink>(alloc: Global, instrs: &[Instr], sink: &mut K) -> Result<(), WriteFault>
    requires { IsTrue (list_all (λ i. has_own_steps i.act) instrs.now) }
    ensures ok { OnOk result
        (Appends (K.written sink.old) (K.written sink.new) (joined (map instr_line instrs.now))) }
    ensures failed { IsErrOf result WriteFault.Failed
        → AppendsPrefix (K.written sink.old) (K.written sink.new) (joined (map instr_line instrs.now)) }
    ensures memory { IsErrOf result WriteFault.Memory
        → AppendsLines (K.written sink.old) (K.written sink.new) (map instr_line instrs.now) }
    ensures cause { HasWriteCause result (K.faults sink.old) (K.faults sink.new) }
    ensures writable { OnOk result (AreWritable instrs.now) }
{
    writes_add_up();
    let mut line = Vec::new(alloc);
    for instr in instrs {
        line.clear();
        add_line(instr, &mut line)?;
        sink.write(line.as_slice())?;
    }
    Ok(())
}

// Writes the line of the tally.
fn write_end<K: Sink>(alloc: Global, program: &Program, sink: &mut K) -> Result<(), WriteFault>
    ensures ok { OnOk result
        (Appends (K.written sink.old) (K.written sink.new) (totals_line (totals_of program.now))) }
    ensures failed { IsErrOf result WriteFault.Failed
        → AppendsPrefix (K.written sink.old) (K.written sink.new) (totals_line (totals_of program.now)) }
    ensures memory { IsErrOf result WriteFault.Memory → sink.new ≡ sink.old }
    ensures cause { HasWriteCause result (K.faults sink.old) (K.faults sink.new) }
{
    let totals = tally(alloc, program)?;
    let end = end_line(alloc, totals)?;
    sink.write(end.as_slice())?;
    Ok(())
}

// Writes all lines but the first one.
fn write_later<K: Sink>(alloc: Global, program: &Program, sink: &mut K) -> Result<(), WriteFault>
    ensures ok { OnOk result
        (Appends (K.written sink.old) (K.written sink.new) (joined (later_lines program.now))) }
    ensures failed { IsErrOf result WriteFault.Failed
        → AppendsPrefix (K.written sink.old) (K.written sink.new) (joined (later_lines program.now)) }
    ensures memory { IsErrOf result WriteFault.Memory
        → AppendsLines (K.written sink.old) (K.written sink.new) (later_lines program.now) }
    ensures cause { HasWriteCause result (K.faults sink.old) (K.faults sink.new) }
    ensures writable { OnOk result (AreWritable program.now) }
{
    writes_add_up();
    write_instrs(alloc, program.instrs(), sink)?;
    write_end(alloc, program, sink)
}
