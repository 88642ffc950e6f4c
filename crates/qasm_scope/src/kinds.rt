//! Of each kind the least offset of a statement's refusal.

ghost use Rattle.std.specs.Prelude.{◌⊎◌, ◌↔◌, IsTrue};
ghost use Rattle.qasm_scope.specs.Judged.{HasArgFaultAt, HasCallFaultAt};
ghost use Rattle.qasm_scope.specs.Least.{IsLeastOffset};
ghost use Rattle.qasm_names.specs.Refusals.{
  HasName,
  HasRepeated,
  HasUnevenSizes,
  IsAfterRead,
  IsControl,
  IsOtherInclude,
  IsOtherVersion,
  IsRedeclared,
  IsReset,
  ReadsUnevenly,
  bit_args,
  calls_in,
  qubit_args,
};

use crate::applied::{repeats_qubit, touches_read};
use crate::arguments::{ArgFault, Register, least_arg};
use crate::bodies::{least_other_in, least_twice, least_undeclared};
use crate::calls::{CallFault, least_call};
use crate::least::earlier;
use crate::pairs::{PairFault, has_faulty_pair};
use crate::parts::{bit_args, calls_in, qubit_args};
use qasm_form::{Arg, Stmt};
use qasm_names::{Known, Names};
use std::slice;

/// The offset of a version other than `2.0`.
pub(crate) fn version_at(stmt: &Stmt) -> Option<u32>
    ensures { IsLeastOffset (IsOtherVersion stmt.now) result }
{
    match stmt {
        Stmt::Version { number, at } => (number.as_slice() != b"2.0".as_slice()).then_some(*at),
        _ => None,
    }
}

/// The offset of a condition.
pub(crate) fn control_at(stmt: &Stmt) -> Option<u32>
    ensures { IsLeastOffset (IsControl stmt.now) result }
{
    match stmt {
        Stmt::If { at } => Some(*at),
        _ => None,
    }
}

/// The offset of a reset.
pub(crate) fn reset_at(stmt: &Stmt) -> Option<u32>
    ensures { IsLeastOffset (IsReset stmt.now) result }
{
    match stmt {
        Stmt::Reset { at, .. } => Some(*at),
        _ => None,
    }
}

/// The offset of an include of another file than the header.
pub(crate) fn include_at(stmt: &Stmt) -> Option<u32>
    ensures { IsLeastOffset (IsOtherInclude stmt.now) result }
{
    match stmt {
        Stmt::Include { name, at } => {
            (name.as_slice() != b"qelib1.inc".as_slice()).then_some(*at)
        }
        _ => None,
    }
}

/// The offset of a name that is declared again, or of a header that comes too late.
pub(crate) fn redeclared_at(known: &Known, stmt: &Stmt) -> Option<u32>
    ensures { IsLeastOffset (IsRedeclared known.now stmt.now) result }
{
    match stmt {
        Stmt::Qreg { name, at, .. } => known.is_declared(name.as_slice()).then_some(*at),
        Stmt::Creg { name, at, .. } => known.is_declared(name.as_slice()).then_some(*at),
        Stmt::Gate { name, at, .. } => known.is_declared(name.as_slice()).then_some(*at),
        Stmt::Opaque { name, at, .. } => known.is_declared(name.as_slice()).then_some(*at),
        Stmt::Include { at, .. } => known.clashes_with_header().then_some(*at),
        _ => None,
    }
}

/// The least offset of an argument with which this is wrong.
pub(crate) fn argument_at(known: &Known, fault: ArgFault, stmt: &Stmt) -> Option<u32>
    ensures { IsLeastOffset
        (λ at.
        HasArgFaultAt known.now Register.Qubits fault (qubit_args stmt.now) at
        ⊎ HasArgFaultAt known.now Register.Bits fault (bit_args stmt.now) at)
        result }
{
    earlier(
        least_arg(known, Register::Qubits, fault, qubit_args(stmt)),
        least_arg(known, Register::Bits, fault, bit_args(stmt)),
    )
}

/// The least offset of a call with which this is wrong.
pub(crate) fn call_at(known: &Known, fault: CallFault, stmt: &Stmt) -> Option<u32>
    ensures { IsLeastOffset
        (HasCallFaultAt known.now fault (calls_in stmt.now))
        result }
{
    least_call(known, fault, calls_in(stmt))
}

/// Whether a measurement is from a register into one bit or the other way round, or between registers of different
/// size.
fn reads_unevenly(known: &Known, from: &Arg, into: &Arg) -> bool
    ensures { IsTrue result
        ↔ ReadsUnevenly known.now from.now into.now from.now.index into.now.index }
{
    match (from.index, into.index) {
        (None, None) => {
            known.qubit_size(from.word.as_slice()) != known.bit_size(into.word.as_slice())
        }
        (Some(_), None) => true,
        (None, Some(_)) => true,
        (Some(_), Some(_)) => false,
    }
}

/// The offset of a call or a measurement of uneven sizes.
pub(crate) fn sizes_at(known: &Known, stmt: &Stmt) -> Option<u32>
    ensures { IsLeastOffset (HasUnevenSizes known.now stmt.now) result }
{
    match stmt {
        Stmt::Call { call } => {
            has_faulty_pair(known, PairFault::Sizes, call.args.as_slice()).then_some(call.at)
        }
        Stmt::Measure { from, into, at } => reads_unevenly(known, from, into).then_some(*at),
        _ => None,
    }
}

/// The least offset of a call that repeats a qubit or, in a body, an argument.
pub(crate) fn repeated_at(known: &Known, stmt: &Stmt) -> Option<u32>
    ensures { IsLeastOffset (HasRepeated known.now stmt.now) result }
{
    match stmt {
        Stmt::Call { call } => repeats_qubit(known, call.args.as_slice()).then_some(call.at),
        Stmt::Gate { body, .. } => least_call(known, CallFault::Repeated, body.as_slice()),
        _ => None,
    }
}

/// The least offset of a name that comes twice in a declaration, or isn't declared there.
pub(crate) fn name_at(stmt: &Stmt) -> Option<u32>
    ensures { IsLeastOffset (HasName stmt.now) result }
{
    match stmt {
        Stmt::Gate {
            params,
            args,
            body,
            ..
        } => {
            let params = params.as_slice();
            let args = args.as_slice();
            let undeclared = least_undeclared(params, args, body.as_slice());
            earlier(least_twice(params, args), undeclared)
        }
        Stmt::Opaque { params, args, .. } => least_twice(params.as_slice(), args.as_slice()),
        Stmt::Call { call } => least_other_in(&[], call.exprs.as_slice()),
        _ => None,
    }
}

/// The offset of a call or a measurement on a qubit that was read.
pub(crate) fn after_read_at(names: &Names, stmt: &Stmt) -> Option<u32>
    ensures { IsLeastOffset (IsAfterRead names.now.environment names.now.before stmt.now) result }
{
    match stmt {
        Stmt::Call { call } => touches_read(names, call.args.as_slice()).then_some(call.at),
        Stmt::Measure { from, at, .. } => {
            touches_read(names, slice::from_ref(from)).then_some(*at)
        }
        _ => None,
    }
}
