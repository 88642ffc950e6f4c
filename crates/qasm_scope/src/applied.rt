//! What is wrong with the applications of a call.

ghost use Rattle.std.specs.Prelude.{◌≡◌, ◌↔◌, IsTrue};
ghost use Rattle.std.specs.List.{Any};
ghost use Rattle.qasm_names.specs.Applications.{applications};
ghost use Rattle.qasm_scope.specs.Judged.{TouchesReadBy};
ghost use Rattle.qasm_names.specs.Refusals.{RepeatsQubit, TouchesRead};

use crate::pairs::{PairFault, has_faulty_pair};
use qasm_form::Arg;
use qasm_names::{Known, Names};

/// How often a call on these arguments is applied.
fn applications(known: &Known, args: &[Arg]) -> u64
    ensures { result ≡ applications known.now args.now }
{
    for arg in args {
        if arg.index.is_none() {
            return known.qubit_size(arg.word.as_slice()).unwrap_or(0);
        }
    }
    1
}

/// Whether an application of the call has a qubit twice.
pub(crate) fn repeats_qubit(known: &Known, args: &[Arg]) -> bool
    ensures { IsTrue result ↔ RepeatsQubit known.now args.now }
{
    let times = applications(known, args);
    has_faulty_pair(known, PairFault::Repeated { times }, args)
}

/// Whether one of so many applications is on a qubit that was read, by this argument.
fn touches_read_by(names: &Names, times: u64, arg: &Arg) -> bool
    ensures { IsTrue result ↔ TouchesReadBy names.now.environment names.now.before times arg.now }
{
    match arg.index {
        Some(index) => 0 < times && names.is_read(arg.word.as_slice(), index),
        None => names.has_read_below(arg.word.as_slice(), times),
    }
}

/// Whether one of so many applications is on a qubit that was read.
fn touches_read_within(names: &Names, times: u64, args: &[Arg]) -> bool
    ensures { IsTrue result
        ↔ Any (TouchesReadBy names.now.environment names.now.before times) args.now }
{
    args.iter().any(|arg| touches_read_by(names, times, arg))
}

/// Whether an application is on a qubit that was read.
pub(crate) fn touches_read(names: &Names, args: &[Arg]) -> bool
    ensures { IsTrue result ↔ TouchesRead names.now.environment names.now.before args.now }
{
    touches_read_within(names, applications(names.known(), args), args)
}
