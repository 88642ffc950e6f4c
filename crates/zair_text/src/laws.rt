//! Laws of lines.

ghost use Rattle.std.specs.Prelude.{◌≡◌, IsTrue, List};
ghost use Rattle.zair_form.specs.declared.program.Instr.{Instr};
ghost use Rattle.zair_form.specs.Steps.{has_own_steps};
ghost use Rattle.zair_text.specs.Values.{instr_value};
ghost use Rattle.zair_text.specs.Lines.{ReadsBack, program_text};
ghost use Rattle.zair_text.specs.Ranges.{AreWritable};

use zair_form::Instr;

/// Two instructions with one value are one instruction, where a job has steps of its own AOD alone.
pub fn one_value_one_instr(a: &Instr, b: &Instr)
    requires first { IsTrue (has_own_steps a.now.act) }
    requires second { IsTrue (has_own_steps b.now.act) }
    ensures { instr_value a.now ≡ instr_value b.now → a.now ≡ b.now }
{}

/// A line reads back as the value of one instruction alone.
pub fn one_line_one_instr(a: &Instr, b: &Instr, bytes: &[u8])
    requires first { IsTrue (has_own_steps a.now.act) }
    requires second { IsTrue (has_own_steps b.now.act) }
    requires line_of_first { ReadsBack (instr_value a.now) bytes.now }
    requires line_of_second { ReadsBack (instr_value b.now) bytes.now }
    ensures { a.now ≡ b.now }
{}

/// A text is that of one program alone: two lists of instructions with one text, each with the line of its tally, are
/// one list, where their jobs have steps of their own AOD alone, as those of a program have, and their numbers are less
/// than 2^64, as those of all types are.
pub fn one_text_one_program()
    ensures { (a b : List Instr) → AreWritable a → AreWritable b → program_text a ≡ program_text b → a ≡ b }
{}
