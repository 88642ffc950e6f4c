//! Laws of texts.

ghost use Rattle.std.specs.Prelude.{◌≡◌, ℕ, ◌⊎◌, List, IsTrue};
ghost use Rattle.zair_form.specs.Ranges.{ProgramFits};
ghost use Rattle.zair_form.specs.Steps.{is_program};
ghost use Rattle.zair_form.specs.declared.program.Instr.{Instr};
ghost use Rattle.zair_text.specs.Lines.{program_text};
ghost use Rattle.zair_read.specs.Texts.{IsInstrText, IsProgramText, IsFirstWrong};

/// A line is that of one instruction alone. Each text is that of one program, or has one first wrong line, and not both.
pub fn program_or_one_fault()
    ensures one_instr { (bytes : List ℕ) (i j : Instr) → IsInstrText bytes i → IsInstrText bytes j → i ≡ j }
    ensures one_program { (bytes : List ℕ) (is js : List Instr) → IsProgramText bytes is → IsProgramText bytes js → is ≡ js }
    ensures one_line { (bytes : List ℕ) (m n : ℕ) → IsFirstWrong bytes m → IsFirstWrong bytes n → m ≡ n }
    ensures not_both { (bytes : List ℕ) (is : List Instr) (n : ℕ) → IsProgramText bytes is → ¬ IsFirstWrong bytes n }
    ensures some { (bytes : List ℕ) → ((is : List Instr) × IsProgramText bytes is) ⊎ ((n : ℕ) × IsFirstWrong bytes n) }
{}

/// The text of a program, whose numbers and angles are in the ranges of the text form, reads back as that program.
pub fn written_reads_back()
    ensures { (instrs : List Instr) → IsTrue (is_program instrs) → ProgramFits instrs → IsProgramText (program_text instrs) instrs }
{}
