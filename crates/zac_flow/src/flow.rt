//! The top call.

ghost use Rattle.std.specs.Prelude.{◌≡◌, ◌≢◌, List, IfErr, IfSome, OnOk, Option, map, string_bytes, Some};
ghost use Rattle.std.specs.Option.{option_map};
ghost use Rattle.zac_io.specs.Outside.{Rose};
ghost use Rattle.zac_flow.specs.Answers.{Does, IsTold, IsRefusedBy, IsExact, MayShow, LeavesPanel, RisesAt, StraysRise};
ghost use Rattle.zac_flow.specs.Due.{two_files};
ghost use Rattle.zac_fault.specs.Lines.{fault_line};
ghost use Rattle.zac_fault.specs.Statuses.{status_of, outcome};
ghost use Rattle.zac_flow.specs.Faults.{Means, Leaves};
ghost use Rattle.zac_flow.specs.Requests.{named, IsInRange};
ghost use Rattle.zac_flow.specs.Words.{Command, Name, Compile, file_words};
ghost use Rattle.zac_flow.specs.Panel.{Reading, readings};

use crate::commands::{drill_of, made_of, report_of, verdict_of};
use crate::inputs::inputs_from;
use crate::laws::one_status;
use crate::stages::{compiled_from, write_text};
use crate::words::{Request, read_words};
use crate::writing::write_made;
use std::alloc::Global;
use zac_fault::{Fault, Status};
use zac_io::{Shelf, Sink};
use zac_watch::Watch;
use zair_text::laws::one_text_one_program;

/// Tells the refusal, and answers its status.
fn refuse<E: Sink>(fault: Fault, err: &mut E) -> Status
    ensures status { result ≡ status_of fault }
    ensures told { IsTold (E.written err.old) (E.written err.new) (E.faults err.old) (E.faults err.new) (fault_line fault) }
{
    let _told = fault.tell(err);
    fault.status()
}

/// Compiles a source for a card, and writes its program.
fn compile_files<S: Shelf, K: Sink>(
    alloc: Global,
    card: &str,
    source: &str,
    shelf: &mut S,
    out: &mut K,
) -> Result<(), Fault>
    ensures done { (panel panel' : List Reading) → OnOk result (Does (S.files shelf.old) (Some (Compile card.now source.now)) (K.written out.old) (K.written out.new) panel panel') }
    ensures means { IfErr result (Means (S.files shelf.old) (Some (Compile card.now source.now))) }
    ensures leaves { (panel panel' : List Reading) → IfErr result (Leaves (S.files shelf.old) (Some (Compile card.now source.now)) (K.written out.old) (K.written out.new) panel panel') }
    ensures reads { RisesAt Status.ReadFault (outcome result) (S.faults shelf.old) (S.faults shelf.new) }
    ensures writes { RisesAt Status.WriteFault (outcome result) (K.faults out.old) (K.faults out.new) }
    ensures strays { StraysRise (S.files shelf.old) (Some (two_files card.now source.now)) (S.strays shelf.old) (S.strays shelf.new) }
    ensures same_files { S.files shelf.new ≡ S.files shelf.old }
{
    one_text_one_program();
    let inputs = inputs_from(alloc, shelf, card, source)?;
    let compiled = compiled_from(alloc, &inputs)?;
    write_text(alloc, &compiled.program, out)
}

/// Does what is asked for.
fn carry_out<S: Shelf, K: Sink>(
    alloc: Global,
    request: Request<'_>,
    shelf: &mut S,
    out: &mut K,
    panel: &mut Vec<Box<dyn Watch>>,
) -> Result<(), Fault>
    requires { IsInRange request }
    ensures done { OnOk result (Does (S.files shelf.old) (Some (named request.entry)) (K.written out.old) (K.written out.new)
        (readings (λ w. kind w) (λ w. sum w) panel.old.items) (readings (λ w. kind w) (λ w. sum w) panel.new.items)) }
    ensures means { IfErr result (Means (S.files shelf.old) (Some (named request.entry))) }
    ensures leaves { IfErr result (Leaves (S.files shelf.old) (Some (named request.entry)) (K.written out.old) (K.written out.new)
        (readings (λ w. kind w) (λ w. sum w) panel.old.items) (readings (λ w. kind w) (λ w. sum w) panel.new.items)) }
    ensures part { LeavesPanel (S.files shelf.old) (Some (named request.entry)) (outcome result)
        (readings (λ w. kind w) (λ w. sum w) panel.old.items) (readings (λ w. kind w) (λ w. sum w) panel.new.items) }
    ensures untouched { ¬ MayShow (Some (named request.entry)) (outcome result) → panel.new ≡ panel.old }
    ensures reads { RisesAt Status.ReadFault (outcome result) (S.faults shelf.old) (S.faults shelf.new) }
    ensures writes { RisesAt Status.WriteFault (outcome result) (K.faults out.old) (K.faults out.new) }
    ensures strays { StraysRise (S.files shelf.old) (file_words (Some (named request.entry))) (S.strays shelf.old) (S.strays shelf.new) }
    ensures same_files { S.files shelf.new ≡ S.files shelf.old }
{
    match request {
        Request::Compile { card, source } => compile_files(alloc, card, source, shelf, out),
        Request::Report { card, source } => {
            write_made(report_of(alloc, card, source, shelf, panel), out)
        }
        Request::Replay { card, source, zair } => {
            write_made(verdict_of(alloc, card, source, zair, shelf), out)
        }
        Request::Make { qubits, pairs } => write_made(made_of(alloc, qubits, pairs), out),
        Request::Drill { qubits, pairs } => write_made(drill_of(alloc, qubits, pairs), out),
    }
}

/// Does what is asked for, if anything is, and answers how it ended.
fn answer<S: Shelf, K: Sink, E: Sink>(
    alloc: Global,
    request: Option<Request<'_>>,
    shelf: &mut S,
    out: &mut K,
    err: &mut E,
    panel: &mut Vec<Box<dyn Watch>>,
) -> Status
    requires { IfSome request IsInRange }
    ensures done { result ≡ Status.Done → Does (S.files shelf.old) (option_map named request.entry) (K.written out.old) (K.written out.new)
        (readings (λ w. kind w) (λ w. sum w) panel.old.items) (readings (λ w. kind w) (λ w. sum w) panel.new.items) }
    ensures quiet { result ≡ Status.Done → err.new ≡ err.old }
    ensures refused { result ≢ Status.Done → IsRefusedBy (S.files shelf.old) (option_map named request.entry) result
        (K.written out.old) (K.written out.new)
        (readings (λ w. kind w) (λ w. sum w) panel.old.items) (readings (λ w. kind w) (λ w. sum w) panel.new.items)
        (E.written err.old) (E.written err.new) (E.faults err.old) (E.faults err.new) }
    ensures exact { ¬ Rose (S.faults shelf.old) (S.faults shelf.new) → ¬ Rose (K.faults out.old) (K.faults out.new)
        → IsExact (S.files shelf.old) (option_map named request.entry) result }
    ensures part { LeavesPanel (S.files shelf.old) (option_map named request.entry) result
        (readings (λ w. kind w) (λ w. sum w) panel.old.items) (readings (λ w. kind w) (λ w. sum w) panel.new.items) }
    ensures untouched { ¬ MayShow (option_map named request.entry) result → panel.new ≡ panel.old }
    ensures reads { RisesAt Status.ReadFault result (S.faults shelf.old) (S.faults shelf.new) }
    ensures writes { RisesAt Status.WriteFault result (K.faults out.old) (K.faults out.new) }
    ensures strays { StraysRise (S.files shelf.old) (file_words (option_map named request.entry)) (S.strays shelf.old) (S.strays shelf.new) }
    ensures same_files { S.files shelf.new ≡ S.files shelf.old }
{
    one_status();
    match request {
        None => refuse(Fault::Usage, err),
        Some(request) => match carry_out(alloc, request, shelf, out, panel) {
            Ok(()) => Status::Done,
            Err(fault) => refuse(fault, err),
        },
    }
}

/// Does what the words say. The words are those after the program's name: `compile CARD FILE`, where CARD is `@tiny`,
/// `@standard` or a file's name; `report CARD FILE`; `replay CARD FILE ZAIR`; or `make N K` or `drill N K`, N from 2 to
/// 4,096 and K to 50,000 in decimal digits.
///
/// `Done`: of `compile`, `out` gained the text of one program that performs the source on the card, in every order that
/// its times allow, all of which do the same, and of no other writable list of instructions. Between any two pulses the
/// program keeps as many gates at their sites as can be kept, and all other atoms go to storage and to the sites with the
/// least sum of distances. Of `report`, the watches of the panel were shown the steps of such a program, in the named
/// order, and `out` gained its totals and what the watches then say. Of `replay`, the text is that of a program that
/// replays the source on the card, and `out` gained the number of its steps and its greatest end. Of `make`, `out` gained
/// the source that the generator makes; of `drill`, the totals of a program to which that source compiles on `@standard`.
///
/// `Usage` comes exactly where the words are no command. `ReadFault` comes exactly where a call on the shelf failed,
/// `TooLong` exactly where the card has more than 65,536 bytes, or behind a card that has not the source more than
/// 4,194,304, or behind both, where they have not, the text more than 268,435,456, and no call failed before;
/// `CardRefused` exactly where the card's bytes are no card, with the first cause in the line on `err`; `SourceRefused`
/// exactly where behind a card the source is refused, with the kind and the offset of the refusal in the line; `Limit`
/// exactly where an accepted source passes a limit of the expansion, with the first such limit and its count;
/// `TooManyQubits` exactly where an accepted source within the limits has more qubits than the card has storage traps,
/// but not of `replay`; `ZairRefused` exactly where behind an accepted source within the limits the text is that of no
/// program, with its first wrong line; `NotTheCircuit` exactly where it is that of a program, and that doesn't replay the
/// source, with the first cause; `WriteFault` exactly where a call on `out` failed, behind a prefix of the text. Want of
/// memory may come always, behind whole lines. Every other refusal leaves `out` as it was. A refusal's line goes to
/// `err`, whose failures change no status. The shelf is asked for the named files alone, in the order of the words, and
/// each is read whole before anything else is judged.
///
/// The panel is lent. `report` alone shows it steps: all of them where it ends in `Done` or `WriteFault`; where it ends
/// in `NoMemory`, those of the named order before some number, or none.
///
/// A source is accepted where its tokens fall into statements, the first of them the version, and none is refused
/// behind those before it. Tokens are judged first, and then each statement in turn: its syntax, and then its names,
/// numbers, sizes and indices, in the order of the kinds of refusals.
pub fn run<S: Shelf, K: Sink, E: Sink>(
    alloc: Global,
    words: &[String],
    shelf: &mut S,
    out: &mut K,
    err: &mut E,
    panel: &mut Vec<Box<dyn Watch>>,
) -> Status
    // Where it is done, the command did its work, and told nothing.
    ensures done { (command : Option Command) → Name (map (λ word. string_bytes word) words.now) command → result ≡ Status.Done
        → Does (S.files shelf.old) command (K.written out.old) (K.written out.new)
        (readings (λ w. kind w) (λ w. sum w) panel.old.items) (readings (λ w. kind w) (λ w. sum w) panel.new.items) }
    ensures quiet { result ≡ Status.Done → err.new ≡ err.old }
    // Else one fault says why, what it left in out, and what was told.
    ensures refused { (command : Option Command) → Name (map (λ word. string_bytes word) words.now) command → result ≢ Status.Done
        → IsRefusedBy (S.files shelf.old) command result
        (K.written out.old) (K.written out.new)
        (readings (λ w. kind w) (λ w. sum w) panel.old.items) (readings (λ w. kind w) (λ w. sum w) panel.new.items)
        (E.written err.old) (E.written err.new) (E.faults err.old) (E.faults err.new) }
    // Where no call fails, the files get the status that they deserve.
    ensures exact { (command : Option Command) → Name (map (λ word. string_bytes word) words.now) command
        → ¬ Rose (S.faults shelf.old) (S.faults shelf.new) → ¬ Rose (K.faults out.old) (K.faults out.new)
        → IsExact (S.files shelf.old) command result }
    // What the panel was shown where `report` found no memory; and where it was shown nothing, it is as it was.
    ensures part { (command : Option Command) → Name (map (λ word. string_bytes word) words.now) command
        → LeavesPanel (S.files shelf.old) command result
        (readings (λ w. kind w) (λ w. sum w) panel.old.items) (readings (λ w. kind w) (λ w. sum w) panel.new.items) }
    ensures untouched { (command : Option Command) → Name (map (λ word. string_bytes word) words.now) command
        → ¬ MayShow command result → panel.new ≡ panel.old }
    // Failed calls.
    ensures reads { RisesAt Status.ReadFault result (S.faults shelf.old) (S.faults shelf.new) }
    ensures writes { RisesAt Status.WriteFault result (K.faults out.old) (K.faults out.new) }
    ensures strays { (command : Option Command) → Name (map (λ word. string_bytes word) words.now) command
        → StraysRise (S.files shelf.old) (file_words command) (S.strays shelf.old) (S.strays shelf.new) }
    ensures same_files { S.files shelf.new ≡ S.files shelf.old }
{
    answer(alloc, read_words(words), shelf, out, err, panel)
}
