//! What `report`, `replay`, `make` and `drill` write.

ghost use Rattle.std.specs.Prelude.{◌≡◌, ◌≢◌, ◌≤◌, ◌⊎◌, [], IfOk, IfErr, OnOk, IsErr, Some, List, Option};
ghost use Rattle.zac_gates.specs.Ops.{NativeCircuit};
ghost use Rattle.zair_state.specs.Performs.{Performs};
ghost use Rattle.zac_flow.specs.Answers.{RisesAt, StraysRise};
ghost use Rattle.zac_io.specs.Outside.{NamedFiles};
ghost use Rattle.zac_flow.specs.Due.{IsDue, two_files, three_files};
ghost use Rattle.zac_fault.specs.Statuses.{outcome};
ghost use Rattle.zac_flow.specs.Faults.{Means};
ghost use Rattle.zac_flow.specs.Panel.{Reading, AreShown, IsShownAll, IsShownPart, MayBeShownPart, readings};
ghost use Rattle.zac_flow.specs.Words.{AreInRange, Report, Replay, Make, Drill};
ghost use Rattle.zac_fault.specs.declared.status.Status.TheVariants as status;

use crate::inputs::{CardInput, Inputs, SOURCE_LIMIT, inputs_from, texts_from};
use crate::make::make_text;
use crate::stages::{Compiled, compiled_from, verdict_from};
use crate::texts::{drill_text, report_text, verdict_text};
use std::alloc::Global;
use zac_fault::Fault;
use zac_gates::Memory;
use zac_io::Shelf;
use zac_watch::{Watch, WatchFault, performing_programs_are_watched_whole, watched};
use zair_text::tally;

/// Shows a panel the steps of a program in the named order. A compiled program has homes and legal steps, so that memory alone
/// can be wanting.
fn show_all(
    alloc: Global,
    compiled: &Compiled,
    panel: &mut Vec<Box<dyn Watch>>,
) -> Result<(), Memory>
    requires { (circuit : NativeCircuit) × Performs compiled.now.card circuit compiled.now.program }
    ensures ok { OnOk result (IsShownAll compiled.now.card.figures compiled.now.program
        (readings (λ w. kind w) (λ w. sum w) panel.old.items) (readings (λ w. kind w) (λ w. sum w) panel.new.items)) }
    ensures err { IsErr result → AreShown (readings (λ w. kind w) (λ w. sum w) panel.old.items) (readings (λ w. kind w) (λ w. sum w) panel.new.items) []
        ⊎ IsShownPart compiled.now.card.figures compiled.now.program
        (readings (λ w. kind w) (λ w. sum w) panel.old.items) (readings (λ w. kind w) (λ w. sum w) panel.new.items) }
{
    performing_programs_are_watched_whole();
    match watched(alloc, &compiled.card, &compiled.program, panel) {
        Ok(()) => Ok(()),
        Err(WatchFault::Memory) => Err(Memory),
        Err(WatchFault::Home { .. }) => unreachable!(),
        Err(WatchFault::Machine { .. }) => unreachable!(),
    }
}

/// The report of what a source compiles to for a card. The panel is shown the steps of that program.
pub fn report_of<S: Shelf>(
    alloc: Global,
    card: &str,
    source: &str,
    shelf: &mut S,
    panel: &mut Vec<Box<dyn Watch>>,
) -> Result<Vec<u8>, Fault>
    ensures due { IfOk result (λ text. IsDue (S.files shelf.old) (Report card.now source.now)
        (readings (λ w. kind w) (λ w. sum w) panel.old.items) (readings (λ w. kind w) (λ w. sum w) panel.new.items) text.items) }
    ensures means { IfErr result (Means (S.files shelf.old) (Some (Report card.now source.now))) }
    ensures no_write { IfErr result (λ f. f ≢ Fault.Write) }
    ensures part { IfErr result (λ f. f ≡ Fault.Memory → MayBeShownPart (S.files shelf.old) (two_files card.now source.now)
        (readings (λ w. kind w) (λ w. sum w) panel.old.items) (readings (λ w. kind w) (λ w. sum w) panel.new.items)) }
    ensures untouched { IfErr result (λ f. f ≢ Fault.Memory → panel.new ≡ panel.old) }
    ensures reads { RisesAt status.ReadFault (outcome result) (S.faults shelf.old) (S.faults shelf.new) }
    ensures strays { StraysRise (S.files shelf.old) (Some (two_files card.now source.now)) (S.strays shelf.old) (S.strays shelf.new) }
    ensures same_files { S.files shelf.new ≡ S.files shelf.old }
{
    let inputs = inputs_from(alloc, shelf, card, source)?;
    let compiled = compiled_from(alloc, &inputs)?;
    let totals = tally(alloc, &compiled.program)?;
    show_all(alloc, &compiled, panel)?;
    Ok(report_text(alloc, totals, panel.as_slice())?)
}

/// The line of a text that replays against a source and a card.
pub fn verdict_of<S: Shelf>(
    alloc: Global,
    card: &str,
    source: &str,
    zair: &str,
    shelf: &mut S,
) -> Result<Vec<u8>, Fault>
    ensures due { (panel : List Reading) → IfOk result (λ text. IsDue (S.files shelf.old) (Replay card.now source.now zair.now) panel panel text.items) }
    ensures means { IfErr result (Means (S.files shelf.old) (Some (Replay card.now source.now zair.now))) }
    ensures no_write { IfErr result (λ f. f ≢ Fault.Write) }
    ensures reads { RisesAt status.ReadFault (outcome result) (S.faults shelf.old) (S.faults shelf.new) }
    ensures strays { StraysRise (S.files shelf.old) (Some (three_files card.now source.now zair.now)) (S.strays shelf.old) (S.strays shelf.new) }
    ensures same_files { S.files shelf.new ≡ S.files shelf.old }
{
    let inputs = texts_from(alloc, shelf, card, source, zair)?;
    let verdict = verdict_from(alloc, &inputs)?;
    Ok(verdict_text(alloc, verdict)?)
}

/// A made source of n qubits, 2 to 4,096, and k pairs, at most 50,000.
pub fn made_of(alloc: Global, n: u32, k: u32) -> Result<Vec<u8>, Fault>
    requires { AreInRange n k }
    ensures due { (files : Option NamedFiles) (panel : List Reading) → IfOk result (λ text. IsDue files (Make n k) panel panel text.items) }
    ensures fault { IfErr result (λ f. f ≡ Fault.Memory) }
{
    Ok(make_text(alloc, n, k)?.into_vec())
}

/// The line of what such a source compiles to on the standard card. The source is accepted, passes no limit and fits the card,
/// so that memory alone can be wanting; a refusal of it is told as that.
pub fn drill_of(alloc: Global, n: u32, k: u32) -> Result<Vec<u8>, Fault>
    requires { AreInRange n k }
    ensures due { (files : Option NamedFiles) (panel : List Reading) → IfOk result (λ text. IsDue files (Drill n k) panel panel text.items) }
    ensures fault { IfErr result (λ f. f ≡ Fault.Memory) }
{
    let source = make_text(alloc, n, k)?;
    if source.as_slice().len() > SOURCE_LIMIT as usize {
        return Err(Fault::Memory);
    }
    let inputs = Inputs {
        card: CardInput::Standard,
        source,
        zair: None,
    };
    match compiled_from(alloc, &inputs) {
        Ok(compiled) => {
            let totals = tally(alloc, &compiled.program)?;
            Ok(drill_text(alloc, n, k, totals)?)
        }
        Err(_fault) => Err(Fault::Memory),
    }
}
