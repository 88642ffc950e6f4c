//! The line of a refusal.

ghost use Rattle.std.specs.Prelude.{◌++◌, codes, map};
ghost use Rattle.zac_io.specs.Outside.{Writes, HasCause};
ghost use Rattle.zair_text.specs.Lines.{joined};
ghost use Rattle.zac_fault.specs.Lines.{fault_line};
ghost use Rattle.zac_fault.specs.Parts.{part_bytes};

use crate::names::limit_name;
use crate::part::Part;
use crate::replay_refusal::tell_replay_fault;
use crate::status::Fault;
use itoa::Buffer;
use zac_archfile::CardFault;
use zac_io::{Failed, Sink, writes_add_up};

impl Fault {
    /// Writes the line of the fault. It takes no memory.
    pub fn tell<E: Sink>(&self, err: &mut E) -> Result<(), Failed>
        ensures line { Writes (E.written err.old) (E.written err.new) (fault_line self.now) result }
        ensures cause { HasCause result (E.faults err.old) (E.faults err.new) }
    {
        match *self {
            Fault::Usage => err.write(
                b"usage: compile CARD QASM | report CARD QASM | replay CARD QASM ZAIR | make N K | drill N K\n",
            ),
            Fault::Read { file } => {
                tell_parts(
                    &[
                        Part::Text("read fault: "),
                        Part::Text(file.name()),
                        Part::Text("\n"),
                    ],
                    err,
                )
            }
            Fault::Long { file } => {
                tell_parts(
                    &[
                        Part::Text("too long: "),
                        Part::Text(file.name()),
                        Part::Text("\n"),
                    ],
                    err,
                )
            }
            Fault::Card { fault } => tell_card_fault(fault, err),
            Fault::Source { kind, at } => {
                tell_parts(
                    &[
                        Part::Text("source refused: "),
                        Part::Text(kind.name()),
                        Part::Text(" at "),
                        Part::Number(u128::from(at)),
                        Part::Text("\n"),
                    ],
                    err,
                )
            }
            Fault::Limit { kind, count } => {
                tell_parts(
                    &[
                        Part::Text("limit: "),
                        Part::Text(limit_name(kind)),
                        Part::Text(" "),
                        Part::Number(u128::from(count)),
                        Part::Text("\n"),
                    ],
                    err,
                )
            }
            Fault::Qubits { qubits, traps } => {
                tell_parts(
                    &[
                        Part::Text("too many qubits: "),
                        Part::Number(u128::from(qubits)),
                        Part::Text(" for "),
                        Part::Number(u128::from(traps)),
                        Part::Text(" traps\n"),
                    ],
                    err,
                )
            }
            Fault::Zair { line } => {
                tell_parts(
                    &[
                        Part::Text("zair refused: line "),
                        Part::Number(u128::from(line)),
                        Part::Text("\n"),
                    ],
                    err,
                )
            }
            Fault::NotTheCircuit { fault } => tell_replay_fault(fault, err),
            Fault::Write => err.write(b"write fault\n"),
            Fault::Memory => err.write(b"out of memory\n"),
        }
    }
}

/// Writes the line of a card's refusal.
fn tell_card_fault<E: Sink>(fault: CardFault, err: &mut E) -> Result<(), Failed>
    ensures line { Writes (E.written err.old) (E.written err.new) (fault_line (Fault.Card fault)) result }
    ensures cause { HasCause result (E.faults err.old) (E.faults err.new) }
{
    match fault {
        CardFault::NotJson => tell_card_parts("NotJson", Part::Text(""), err),
        CardFault::Missing(field) => tell_card_parts("Missing ", Part::Text(field.name()), err),
        CardFault::Unknown => tell_card_parts("Unknown", Part::Text(""), err),
        CardFault::NotWhole(field) => tell_card_parts("NotWhole ", Part::Text(field.name()), err),
        CardFault::Range(field) => tell_card_parts("Range ", Part::Text(field.name()), err),
        CardFault::Invalid(rule) => {
            tell_card_parts("Invalid ", Part::Number(u128::from(rule)), err)
        }
        CardFault::Memory => tell_card_parts("Memory", Part::Text(""), err),
    }
}

/// Writes the line of a card's refusal of this kind, with this field or number.
fn tell_card_parts<E: Sink>(kind: &'static str, detail: Part, err: &mut E) -> Result<(), Failed>
    ensures line { Writes (E.written err.old) (E.written err.new)
        (codes "card refused: " ++ (kind.now ++ (part_bytes detail ++ codes "\n"))) result }
    ensures cause { HasCause result (E.faults err.old) (E.faults err.new) }
{
    tell_parts(
        &[
            Part::Text("card refused: "),
            Part::Text(kind),
            detail,
            Part::Text("\n"),
        ],
        err,
    )
}

/// Writes the parts, one behind the other.
pub fn tell_parts<E: Sink>(parts: &[Part], err: &mut E) -> Result<(), Failed>
    ensures line { Writes (E.written err.old) (E.written err.new) (joined (map part_bytes parts.now)) result }
    ensures cause { HasCause result (E.faults err.old) (E.faults err.new) }
{
    writes_add_up();
    for part in parts.iter() {
        tell_part(*part, err)?;
    }
    Ok(())
}

/// Writes a part.
fn tell_part<E: Sink>(part: Part, err: &mut E) -> Result<(), Failed>
    ensures line { Writes (E.written err.old) (E.written err.new) (part_bytes part) result }
    ensures cause { HasCause result (E.faults err.old) (E.faults err.new) }
{
    match part {
        Part::Text(text) => err.write(text.as_bytes()),
        Part::Number(number) => err.write(Buffer::new().format(number).as_bytes()),
    }
}
