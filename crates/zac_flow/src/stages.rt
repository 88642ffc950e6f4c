//! The stages of a command: from its inputs to a program, and to its text.

ghost use Rattle.std.specs.Prelude.{◌≡◌, ◌≢◌, ◌<◌, ◌≤◌, ◌⊎◌, ℕ, List, None, Err, IfOk, IfErr, OnOk, length};
ghost use Rattle.zac_arch.specs.Architecture.{storage_count};
ghost use Rattle.zac_archfile.specs.declared.fault.CardFault.{CardFault};
ghost use Rattle.zac_io.specs.Outside.{Appends, AppendsPrefix};
ghost use Rattle.zac_gates.specs.Ops.{pairs_in};
ghost use Rattle.zac_plan.specs.Plan.{IsPlanned};
ghost use Rattle.zac_sched.specs.Exchange.{OrdersAgree};
ghost use Rattle.zac_watch.specs.Replaying.{IsReplayFault, Replays};
ghost use Rattle.zac_watch.specs.declared.fault.ReplayFault.{ReplayFault};
ghost use Rattle.zair_form.specs.Ranges.{ProgramFits};
ghost use Rattle.zair_form.specs.declared.program.Instr.{Instr};
ghost use Rattle.zair_read.specs.Texts.{IsProgramText, IsFirstWrong};
ghost use Rattle.zair_state.specs.Performs.{Performs};
ghost use Rattle.zair_text.specs.Lines.{program_text, program_lines};
ghost use Rattle.zair_text.specs.Ranges.{AreWritable};
ghost use Rattle.zair_text.specs.Tally.{totals_of};
ghost use Rattle.zair_text.specs.Writing.{AppendsLines};
ghost use Rattle.zac_flow.specs.Answers.{RisesAt};
ghost use Rattle.zac_flow.specs.Compiled.{IsCircuitOf, CompilesTo, ReplaysIn};
ghost use Rattle.zac_fault.specs.Statuses.{outcome};
ghost use Rattle.zac_flow.specs.Faults.{IsFaultOrWant};
ghost use Rattle.zac_flow.specs.Inputs.{AreShort, IsCardOf, IsRefusedCard};
ghost use Rattle.zac_fault.specs.declared.status.Status.TheVariants as status;

use crate::inputs::{CardInput, Inputs};
use qasm_expand::{ExpandFault, expand};
use qasm_source::read_source;
use std::alloc::Global;
use zac_arch::Card;
use zac_archfile::read_card;
use zac_fault::Fault;
use zac_gates::{Bytes, Circuit};
use zac_io::Sink;
use zac_plan::{PlanFault, compile};
use zac_watch::{ReplayFault, replay};
use zair_form::Program;
use zair_read::{ProgramFault, read_program};
use zair_text::{Totals, WriteFault, tally, write_program};

/// A program, and the card that it was compiled for.
#[derive(Drop)]
pub struct Compiled {
    pub card: Card,
    pub program: Program,
}

/// The program of a card and a source. The card is judged first, then the source, its limits, and its number of qubits.
pub fn compiled_from(alloc: Global, inputs: &Inputs) -> Result<Compiled, Fault>
    requires short { AreShort inputs.now }
    requires no_text { inputs.now.zair ≡ None }
    ensures ok { IfOk result (λ compiled. (is : CompilesTo inputs.now compiled.program) × (is.card ≡ compiled.card)) }
    ensures fault { IfErr result (IsFaultOrWant inputs.now) }
{
    let card = card_of(alloc, &inputs.card)?;
    let circuit = circuit_from(alloc, &card, inputs)?;
    let program = plan_from(alloc, &card, &circuit)?;
    Ok(Compiled { card, program })
}

/// A program that replays a circuit: how many steps it has, and its totals.
#[derive(Clone, Copy, Drop)]
pub struct Verdict {
    pub steps: u64,
    pub totals: Totals,
}

/// What is told of a text that replays. The card is judged first, then the source, its limits, the text, and the replay.
pub fn verdict_from(alloc: Global, inputs: &Inputs) -> Result<Verdict, Fault>
    requires short { AreShort inputs.now }
    requires with_text { inputs.now.zair ≢ None }
    ensures ok { IfOk result (λ verdict. (program : List Instr) × ReplaysIn inputs.now program verdict.steps × (verdict.totals ≡ totals_of program)) }
    ensures fault { IfErr result (IsFaultOrWant inputs.now) }
{
    let card = card_of(alloc, &inputs.card)?;
    let circuit = circuit_from(alloc, &card, inputs)?;
    let text = inputs.zair.as_ref().unwrap();
    let program = program_of(alloc, text)?;
    let steps = steps_of(alloc, &card, &circuit, &program)?;
    let totals = tally(alloc, &program)?;
    Ok(Verdict { steps, totals })
}

/// The program of a text.
fn program_of(alloc: Global, text: &Bytes) -> Result<Program, Fault>
    ensures ok { IfOk result (λ program. IsProgramText text.now program) }
    ensures fault { IfErr result (λ f. (f ≡ Fault.Memory) ⊎ ((line : ℕ) × (f ≡ Fault.Zair line) × IsFirstWrong text.now line)) }
{
    match read_program(alloc, text.as_slice()) {
        Ok(program) => Ok(program),
        Err(ProgramFault::Line { line }) => Err(Fault::Zair { line }),
        Err(ProgramFault::Memory) => Err(Fault::Memory),
    }
}

/// How many steps a program has that replays a circuit.
fn steps_of(alloc: Global, card: &Card, circuit: &Circuit, program: &Program) -> Result<u64, Fault>
    ensures ok { IfOk result (Replays card.now circuit.now program.now) }
    ensures fault { IfErr result (λ f. (f ≡ Fault.Memory) ⊎ ((cause : ReplayFault) × (f ≡ Fault.NotTheCircuit cause)
        × IsReplayFault card.now circuit.now program.now cause × (cause ≢ ReplayFault.Memory))) }
{
    match replay(alloc, card, circuit, program) {
        Ok(steps) => Ok(steps),
        Err(ReplayFault::Memory) => Err(Fault::Memory),
        Err(fault) => Err(Fault::NotTheCircuit { fault }),
    }
}

/// The card.
fn card_of(alloc: Global, card: &CardInput) -> Result<Card, Fault>
    ensures ok { IfOk result (IsCardOf card.now) }
    ensures fault { IfErr result (λ f. (f ≡ Fault.Memory) ⊎ ((cause : CardFault) × (f ≡ Fault.Card cause) × IsRefusedCard card.now cause)) }
{
    match card {
        CardInput::Tiny => Ok(Card::tiny(alloc)?),
        CardInput::Standard => Ok(Card::standard(alloc)?),
        CardInput::Text(bytes) => match read_card(alloc, bytes.as_slice()) {
            Ok(card) => Ok(card),
            Err(fault) => Err(Fault::from(fault)),
        },
    }
}

/// The native circuit of the source, behind its card.
fn circuit_from(alloc: Global, card: &Card, inputs: &Inputs) -> Result<Circuit, Fault>
    requires short { AreShort inputs.now }
    requires card { IsCardOf inputs.now.card card.now }
    ensures ok { IfOk result (IsCircuitOf inputs.now card.now) }
    ensures few { IfOk result (λ circuit. length circuit.ops ≤ 786432) }
    ensures few_pairs { IfOk result (λ circuit. pairs_in circuit.ops ≤ 262144) }
    ensures fault { IfErr result (IsFaultOrWant inputs.now) }
{
    let scope = read_source(alloc, inputs.source.as_slice())?;
    match expand(alloc, scope.program()) {
        Ok(circuit) => Ok(circuit),
        Err(ExpandFault::Limit { kind, count }) => Err(Fault::Limit { kind, count }),
        Err(ExpandFault::Memory) => Err(Fault::Memory),
    }
}

/// The program of a circuit on a card.
fn plan_from(alloc: Global, card: &Card, circuit: &Circuit) -> Result<Program, Fault>
    requires few { length circuit.now.ops ≤ 786432 }
    requires few_pairs { pairs_in circuit.now.ops ≤ 262144 }
    ensures ok { IfOk result (Performs card.now circuit.now) }
    ensures agree { IfOk result (OrdersAgree card.now) }
    ensures planned { IfOk result (IsPlanned card.now circuit.now) }
    ensures ranges { IfOk result ProgramFits }
    ensures fits { OnOk result (circuit.now.qubits ≤ storage_count card.now) }
    ensures fault { IfErr result (λ f. (f ≡ Fault.Memory) ⊎ ((f ≡ Fault.Qubits circuit.now.qubits (storage_count card.now))
        × (storage_count card.now < circuit.now.qubits))) }
{
    match compile(alloc, card, circuit) {
        Ok(program) => Ok(program),
        Err(PlanFault::TooManyQubits { qubits, traps }) => Err(Fault::Qubits { qubits, traps }),
        Err(PlanFault::Memory) => Err(Fault::Memory),
    }
}

/// Writes the text of a program.
pub fn write_text<K: Sink>(alloc: Global, program: &Program, out: &mut K) -> Result<(), Fault>
    ensures text { OnOk result (Appends (K.written out.old) (K.written out.new) (program_text program.now)) }
    ensures writable { OnOk result (AreWritable program.now) }
    ensures fault { IfErr result (λ f. ((f ≡ Fault.Write) × AppendsPrefix (K.written out.old) (K.written out.new) (program_text program.now))
        ⊎ ((f ≡ Fault.Memory) × AppendsLines (K.written out.old) (K.written out.new) (program_lines program.now))) }
    ensures writes { RisesAt status.WriteFault (outcome result) (K.faults out.old) (K.faults out.new) }
{
    match write_program(alloc, program, out) {
        Ok(()) => Ok(()),
        Err(WriteFault::Failed) => Err(Fault::Write),
        Err(WriteFault::Memory) => Err(Fault::Memory),
    }
}
