//! The line of a text that doesn't replay.

ghost use Rattle.std.specs.Prelude.{◌≡◌, ◌∷◌, ◌++◌, [], codes, map};
ghost use Rattle.zac_io.specs.Outside.{Writes, HasCause};
ghost use Rattle.zair_text.specs.Lines.{joined};
ghost use Rattle.zac_fault.specs.Lines.{fault_line};
ghost use Rattle.zac_fault.specs.Parts.{part_bytes};
ghost use Rattle.zac_fault.specs.Replayed.{one_part, two_parts, three_parts, beam_parts, step_parts, axis_name};
ghost use Rattle.zac_fault.specs.declared.status.Fault.TheVariants.{NotTheCircuit};
ghost use Rattle.zac_watch.specs.declared.fault.ReplayFault.TheVariants as replay;

use crate::part::Part;
use crate::refusal::tell_parts;
use zac_gates::CheckFault;
use zac_io::{Failed, Sink, writes_add_up};
use zac_watch::ReplayFault;
use zair_state::{Axis, BeamId, MachineFault};

/// Writes the line of a replay's fault.
pub fn tell_replay_fault<E: Sink>(fault: ReplayFault, err: &mut E) -> Result<(), Failed>
    ensures line { Writes (E.written err.old) (E.written err.new) (fault_line (NotTheCircuit fault)) result }
    ensures cause { HasCause result (E.faults err.old) (E.faults err.new) }
{
    match fault {
        ReplayFault::Qubits { text, source } => {
            tell_detail(&two_parts("qubits ", text, " for ", u64::from(source)), err)
        }
        ReplayFault::Home { q } => tell_detail(&one_part("home of q ", u64::from(q)), err),
        ReplayFault::Length { instr } => {
            tell_detail(&one_part("length of instruction ", instr), err)
        }
        ReplayFault::Machine { step, fault } => tell_machine_fault(step, fault, err),
        ReplayFault::Check { step, fault } => tell_check_fault(step, fault, err),
        ReplayFault::Missing { op } => tell_detail(&one_part("missing op ", u64::from(op)), err),
        ReplayFault::Memory => tell_detail(&[Part::Text("memory")], err),
    }
}

/// Writes the line of a machine's fault at a step.
fn tell_machine_fault<E: Sink>(step: u64, fault: MachineFault, err: &mut E) -> Result<(), Failed>
    ensures line { Writes (E.written err.old) (E.written err.new) (fault_line (NotTheCircuit (replay.Machine step fault))) result }
    ensures cause { HasCause result (E.faults err.old) (E.faults err.new) }
{
    match fault {
        MachineFault::Unknown { number } => tell_number(step, "Unknown ", number, err),
        MachineFault::Busy { beam } => tell_beam(step, "Busy ", beam, err),
        MachineFault::NotActive { beam } => tell_beam(step, "NotActive ", beam, err),
        MachineFault::Limit { beam } => tell_beam(step, "Limit ", beam, err),
        MachineFault::Order { beam } => tell_beam(step, "Order ", beam, err),
        MachineFault::Gap { beam } => tell_beam(step, "Gap ", beam, err),
        MachineFault::Touch { row, column } => {
            tell_numbers(
                step,
                "Touch row ",
                u32::from(row),
                " column ",
                u32::from(column),
                err,
            )
        }
        MachineFault::PickWrong { q } => tell_number(step, "PickWrong q ", q, err),
        MachineFault::DropWrong { q } => tell_number(step, "DropWrong q ", q, err),
        MachineFault::TrapFull { q, trap } => {
            tell_numbers(step, "TrapFull q ", q, " trap ", trap.0, err)
        }
        MachineFault::PairWrong { a, b } => tell_numbers(step, "PairWrong q ", a, " q ", b, err),
        MachineFault::LitAlone { q } => tell_number(step, "LitAlone q ", q, err),
        MachineFault::NotAtRest { q } => tell_number(step, "NotAtRest q ", q, err),
        MachineFault::Crossing { aod, row, column } => {
            let detail = three_parts("Crossing aod ", aod, " row ", row, " column ", column);
            tell_at_step(step, &detail, err)
        }
    }
}

/// Writes the line of a checklist's fault at a step.
fn tell_check_fault<E: Sink>(step: u64, fault: CheckFault, err: &mut E) -> Result<(), Failed>
    ensures line { Writes (E.written err.old) (E.written err.new) (fault_line (NotTheCircuit (replay.Check step fault))) result }
    ensures cause { HasCause result (E.faults err.old) (E.faults err.new) }
{
    match fault {
        CheckFault::Content { op } => tell_number(step, "Content op ", op, err),
        CheckFault::Again { op } => tell_number(step, "Again op ", op, err),
        CheckFault::Early { op, waits } => {
            tell_numbers(step, "Early op ", op, " waits for ", waits, err)
        }
    }
}

/// A number behind a word.
fn one_part(word: &'static str, n: u64) -> [Part; 2]
    ensures { map part_bytes result ≡ one_part word.now n }
{
    [Part::Text(word), Part::Number(u128::from(n))]
}

/// Two numbers, each behind a word.
fn two_parts(word: &'static str, n: u64, next: &'static str, m: u64) -> [Part; 4]
    ensures { map part_bytes result ≡ two_parts word.now n next.now m }
{
    [
        Part::Text(word),
        Part::Number(u128::from(n)),
        Part::Text(next),
        Part::Number(u128::from(m)),
    ]
}

/// Three numbers, each behind a word.
fn three_parts(
    word: &'static str,
    n: u8,
    next: &'static str,
    m: u8,
    last: &'static str,
    k: u8,
) -> [Part; 6]
    ensures { map part_bytes result ≡ three_parts word.now n next.now m last.now k }
{
    [
        Part::Text(word),
        Part::Number(u128::from(n)),
        Part::Text(next),
        Part::Number(u128::from(m)),
        Part::Text(last),
        Part::Number(u128::from(k)),
    ]
}

/// Writes the line of a fault at a step that shows a number behind a word.
fn tell_number<E: Sink>(step: u64, word: &'static str, n: u32, err: &mut E) -> Result<(), Failed>
    ensures line { Writes (E.written err.old) (E.written err.new)
        (joined (codes "not the circuit: " ∷ (step_parts step (one_part word.now n) ++ codes "\n" ∷ []))) result }
    ensures cause { HasCause result (E.faults err.old) (E.faults err.new) }
{
    tell_at_step(step, &one_part(word, u64::from(n)), err)
}

/// Writes the line of a fault at a step that shows two numbers, each behind a word.
fn tell_numbers<E: Sink>(
    step: u64,
    word: &'static str,
    n: u32,
    next: &'static str,
    m: u32,
    err: &mut E,
) -> Result<(), Failed>
    ensures line { Writes (E.written err.old) (E.written err.new)
        (joined (codes "not the circuit: " ∷ (step_parts step (two_parts word.now n next.now m) ++ codes "\n" ∷ []))) result }
    ensures cause { HasCause result (E.faults err.old) (E.faults err.new) }
{
    tell_at_step(
        step,
        &two_parts(word, u64::from(n), next, u64::from(m)),
        err,
    )
}

/// The name of an axis.
fn axis_name(axis: Axis) -> &'static str
    ensures { result.now ≡ axis_name axis }
{
    match axis {
        Axis::Row => "row ",
        Axis::Column => "column ",
    }
}

/// Writes the line of a fault at a step that shows a beam.
fn tell_beam<E: Sink>(
    step: u64,
    kind: &'static str,
    beam: BeamId,
    err: &mut E,
) -> Result<(), Failed>
    ensures line { Writes (E.written err.old) (E.written err.new)
        (joined (codes "not the circuit: " ∷ (step_parts step (beam_parts kind.now beam) ++ codes "\n" ∷ []))) result }
    ensures cause { HasCause result (E.faults err.old) (E.faults err.new) }
{
    let axis = axis_name(beam.axis);
    tell_at_step(
        step,
        &[
            Part::Text(kind),
            Part::Text(axis),
            Part::Number(u128::from(beam.id)),
        ],
        err,
    )
}

/// Writes the line of a fault of a step that shows these parts.
fn tell_at_step<E: Sink>(step: u64, detail: &[Part], err: &mut E) -> Result<(), Failed>
    ensures line { Writes (E.written err.old) (E.written err.new)
        (joined (codes "not the circuit: " ∷ (step_parts step (map part_bytes detail.now) ++ codes "\n" ∷ []))) result }
    ensures cause { HasCause result (E.faults err.old) (E.faults err.new) }
{
    tell_behind(
        &[
            Part::Text("not the circuit: "),
            Part::Text("step "),
            Part::Number(u128::from(step)),
            Part::Text(": "),
        ],
        detail,
        err,
    )
}

/// Writes the line of a fault that shows these parts.
fn tell_detail<E: Sink>(detail: &[Part], err: &mut E) -> Result<(), Failed>
    ensures line { Writes (E.written err.old) (E.written err.new)
        (joined (codes "not the circuit: " ∷ (map part_bytes detail.now ++ codes "\n" ∷ []))) result }
    ensures cause { HasCause result (E.faults err.old) (E.faults err.new) }
{
    tell_behind(&[Part::Text("not the circuit: ")], detail, err)
}

/// Writes a line of parts behind others.
fn tell_behind<E: Sink>(lead: &[Part], detail: &[Part], err: &mut E) -> Result<(), Failed>
    ensures line { Writes (E.written err.old) (E.written err.new)
        (joined (map part_bytes lead.now ++ (map part_bytes detail.now ++ codes "\n" ∷ []))) result }
    ensures cause { HasCause result (E.faults err.old) (E.faults err.new) }
{
    writes_add_up();
    tell_parts(lead, err)?;
    tell_parts(detail, err)?;
    tell_parts(&[Part::Text("\n")], err)
}
