//! What is wrong with two arguments of one call.

ghost use Rattle.std.specs.Prelude.{◌↔◌, IsTrue};
ghost use Rattle.std.specs.List.{Any};
ghost use Rattle.qasm_scope.specs.Judged.{HasPairFault, IndicesMeet, MeetWithin};
ghost use Rattle.qasm_names.specs.Refusals.{DifferInSize, SomeTwo};

use qasm_form::Arg;
use qasm_names::Known;

/// What is wrong with two arguments of a call.
#[derive(Clone, Copy)]
pub(crate) enum PairFault {
    /// They are whole registers of different size.
    Sizes,
    /// One of so many applications has the same qubit by both.
    Repeated { times: u64 },
    /// They have one name.
    Words,
}

/// Whether the arguments are whole registers of different size.
fn differ_in_size(known: &Known, a: &Arg, b: &Arg) -> bool
    ensures { IsTrue result ↔ DifferInSize known.now a.now b.now }
{
    a.index.is_none()
        && b.index.is_none()
        && known.qubit_size(a.word.as_slice()) != known.qubit_size(b.word.as_slice())
}

/// Whether one of so many applications is on one place by both indices.
fn indices_meet(times: u64, a: Option<u64>, b: Option<u64>) -> bool
    ensures { IsTrue result ↔ IndicesMeet times a b }
{
    match (a, b) {
        (None, None) => 0 < times,
        (Some(i), Some(j)) => i == j && 0 < times,
        (Some(i), None) => i < times,
        (None, Some(j)) => j < times,
    }
}

/// Whether one of so many applications has the same qubit by both arguments.
fn may_meet(times: u64, a: &Arg, b: &Arg) -> bool
    ensures { IsTrue result ↔ MeetWithin times a.now b.now }
{
    a.word.as_slice() == b.word.as_slice() && indices_meet(times, a.index, b.index)
}

/// Whether this is wrong with the two arguments.
fn has_pair_fault(known: &Known, fault: PairFault, a: &Arg, b: &Arg) -> bool
    ensures { IsTrue result ↔ HasPairFault known.now fault a.now b.now }
{
    match fault {
        PairFault::Sizes => differ_in_size(known, a, b),
        PairFault::Repeated { times } => may_meet(times, a, b),
        PairFault::Words => a.word.as_slice() == b.word.as_slice(),
    }
}

/// Whether this is wrong with the argument and a later one.
fn has_fault_with_later(known: &Known, fault: PairFault, a: &Arg, later: &[Arg]) -> bool
    ensures { IsTrue result ↔ Any (HasPairFault known.now fault a.now) later.now }
{
    for b in later {
        if has_pair_fault(known, fault, a, b) {
            return true;
        }
    }
    false
}

/// Whether this is wrong with two of the arguments.
pub(crate) fn has_faulty_pair(known: &Known, fault: PairFault, args: &[Arg]) -> bool
    ensures { IsTrue result ↔ SomeTwo (HasPairFault known.now fault) args.now }
{
    for (i, a) in args.iter().enumerate() {
        if has_fault_with_later(known, fault, a, &args[i + 1..]) {
            return true;
        }
    }
    false
}
