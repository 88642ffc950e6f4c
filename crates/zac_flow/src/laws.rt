//! What the words of a command name, and what "fault" means of its card and its source, as laws.

ghost use Rattle.std.specs.Prelude.{◌≡◌, ℕ, ◌≤◌, ◌⊎◌, List, Option, None, Some, length};
ghost use Rattle.zair_form.specs.declared.program.Instr.{Instr};
ghost use Rattle.zair_text.specs.Lines.{program_text};
ghost use Rattle.zac_flow.specs.Compiled.{CompilesTo, IsServed};
ghost use Rattle.zac_fault.specs.Statuses.{status_of};
ghost use Rattle.zac_flow.specs.Faults.{IsFaultOf};
ghost use Rattle.zac_flow.specs.Inputs.{IsShortCard, with_text, zair_limit};
ghost use Rattle.zac_flow.specs.Words.{Command, Name};
ghost use Rattle.zac_flow.specs.declared.inputs.Inputs.{Inputs};
ghost use Rattle.zac_fault.specs.declared.status.Fault.{Fault};

use qasm_expand::laws::one_limit;
use qasm_expand::one_expansion;
use qasm_source::laws::one_answer;
use zac_archfile::card_or_one_fault;
use zac_watch::laws::{performing_programs_replay, replays_have_no_fault};
use zair_read::laws::{program_or_one_fault, written_reads_back};

/// All words name a command or none, and one alone.
pub fn words_name_one_command()
    ensures some { (words : List (List ℕ)) → (command : Option Command) × Name words command }
    ensures one { (words : List (List ℕ)) (command other : Option Command) → Name words command
        → Name words other → command ≡ other }
{}

/// A source and a card within its limit have one fault, of all that they can have without a text, or they are read, pass no
/// limit and fit the storage, and never both.
pub fn one_fault()
    ensures some { (inputs : Inputs) → inputs.zair ≡ None → IsShortCard inputs.card → IsServed inputs None ⊎ ((fault : Fault) × IsFaultOf inputs fault) }
    ensures one_fault { (inputs : Inputs) (fault other : Fault) → inputs.zair ≡ None → IsFaultOf inputs fault
        → IsFaultOf inputs other → fault ≡ other }
    ensures not_both { (inputs : Inputs) (fault : Fault) → inputs.zair ≡ None → IsServed inputs None → ¬ IsFaultOf inputs fault }
{
    card_or_one_fault();
    one_answer();
    one_limit();
}

/// What a command is given has faults of one status alone, with a text or without, and none where it is as the command wants
/// it.
pub fn one_status()
    ensures one_status { (inputs : Inputs) (fault other : Fault) → IsFaultOf inputs fault → IsFaultOf inputs other
        → status_of fault ≡ status_of other }
    ensures not_both { (inputs : Inputs) (fault : Fault) → IsServed inputs inputs.zair → ¬ IsFaultOf inputs fault }
{
    card_or_one_fault();
    one_answer();
    one_limit();
    one_expansion();
    program_or_one_fault();
    replays_have_no_fault();
}

/// The text of a program to which a card and a source compile is served by `replay` against the same card and source, where it
/// is within its limit.
pub fn compiled_texts_replay()
    ensures { (inputs : Inputs) (program : List Instr) → CompilesTo inputs program
        → length (program_text program) ≤ zair_limit
        → IsServed (with_text inputs (program_text program)) (Some (program_text program)) }
{
    performing_programs_replay();
    written_reads_back();
}
