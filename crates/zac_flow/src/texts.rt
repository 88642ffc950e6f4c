//! The texts of `report`, `replay` and `drill`.

ghost use Rattle.std.specs.Prelude.{◌≡◌, ◌++◌, IfOk, OnOk, map};
ghost use Rattle.zac_flow.specs.Panel.{Reading};
ghost use Rattle.zac_flow.specs.Texts.{total_line, total_lines, watch_line, report_text, verdict_text, drill_text};

use crate::stages::Verdict;
use std::alloc::Global;
use zac_fault::{Part, add_parts};
use zac_gates::Memory;
use zac_watch::Watch;
use zair_text::Totals;

/// Adds the line of a total.
fn add_total(text: &mut Vec<u8>, name: &'static str, number: u64) -> Result<(), Memory>
    ensures { OnOk result (text.new.items ≡ text.old.items ++ total_line name.now number) }
{
    add_parts(
        text,
        &[
            Part::Text(name),
            Part::Text(" "),
            Part::Number(u128::from(number)),
            Part::Text("\n"),
        ],
    )
}

/// The lines of the totals of a program.
fn total_lines(alloc: Global, totals: Totals) -> Result<Vec<u8>, Memory>
    ensures { IfOk result (λ text. text.items ≡ total_lines totals) }
{
    let mut text = Vec::new(alloc);
    add_total(&mut text, "qubits", u64::from(totals.qubits))?;
    add_total(&mut text, "pulses", u64::from(totals.pulses))?;
    add_total(&mut text, "pairs", u64::from(totals.pairs))?;
    add_total(&mut text, "gates", u64::from(totals.gates))?;
    add_total(&mut text, "reads", u64::from(totals.reads))?;
    add_total(&mut text, "jobs", u64::from(totals.jobs))?;
    add_total(&mut text, "moved", u64::from(totals.moved))?;
    add_total(&mut text, "kept", u64::from(totals.kept))?;
    add_total(&mut text, "time", totals.time)?;
    Ok(text)
}

/// Adds the line of a watch.
fn add_watch(text: &mut Vec<u8>, watch: &Box<dyn Watch>) -> Result<(), Memory>
    ensures { OnOk result (text.new.items ≡ text.old.items ++ watch_line (record { kind = kind watch.now; sum = sum watch.now })) }
{
    add_parts(
        text,
        &[
            Part::Text("watch "),
            Part::Text(watch.kind().name()),
            Part::Text(" "),
            Part::Number(watch.sum()),
            Part::Text("\n"),
        ],
    )
}

/// The report of a program: its totals, and the watches of a panel, in the panel's order.
pub fn report_text(
    alloc: Global,
    totals: Totals,
    panel: &[Box<dyn Watch>],
) -> Result<Vec<u8>, Memory>
    ensures { IfOk result (λ text. text.items ≡ report_text totals (map (λ w. record { kind = kind w; sum = sum w }) panel.now)) }
{
    let mut text = total_lines(alloc, totals)?;
    for watch in panel.iter() {
        add_watch(&mut text, watch)?;
    }
    Ok(text)
}

/// The line of a text that replays.
pub fn verdict_text(alloc: Global, verdict: Verdict) -> Result<Vec<u8>, Memory>
    ensures { IfOk result (λ text. text.items ≡ verdict_text verdict.steps verdict.totals) }
{
    let mut text = Vec::new(alloc);
    add_parts(
        &mut text,
        &[
            Part::Text("legal: steps "),
            Part::Number(u128::from(verdict.steps)),
            Part::Text(" time "),
            Part::Number(u128::from(verdict.totals.time)),
            Part::Text("\n"),
        ],
    )?;
    Ok(text)
}

/// The line of a drill of n qubits and k pairs.
pub fn drill_text(alloc: Global, n: u32, k: u32, totals: Totals) -> Result<Vec<u8>, Memory>
    ensures { IfOk result (λ text. text.items ≡ drill_text n k totals) }
{
    let mut text = Vec::new(alloc);
    add_parts(
        &mut text,
        &[
            Part::Text("drill qubits "),
            Part::Number(u128::from(n)),
            Part::Text(" pairs "),
            Part::Number(u128::from(k)),
            Part::Text(" gates "),
            Part::Number(u128::from(totals.gates)),
            Part::Text(" pulses "),
            Part::Number(u128::from(totals.pulses)),
            Part::Text(" kept "),
            Part::Number(u128::from(totals.kept)),
            Part::Text(" jobs "),
            Part::Number(u128::from(totals.jobs)),
            Part::Text(" moved "),
            Part::Number(u128::from(totals.moved)),
            Part::Text(" time "),
            Part::Number(u128::from(totals.time)),
            Part::Text("\n"),
        ],
    )?;
    Ok(text)
}
