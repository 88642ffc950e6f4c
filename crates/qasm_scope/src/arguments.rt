//! What is wrong with the arguments of a statement at the top, one by one.

ghost use Rattle.std.specs.Prelude.{◌≡◌, ◌↔◌, IsTrue};
ghost use Rattle.qasm_scope.specs.Judged.{HasArgFault, HasArgFaultAt, size_of};
ghost use Rattle.qasm_scope.specs.Least.{IsLeastOffset};

use crate::least::earlier;
use qasm_form::Arg;
use qasm_names::Known;

/// A kind of registers.
#[derive(Clone, Copy)]
pub(crate) enum Register {
    /// Of qubits.
    Qubits,
    /// Of bits.
    Bits,
}

/// What is wrong with an argument.
#[derive(Clone, Copy)]
pub(crate) enum ArgFault {
    /// It names no register of its kind.
    NotDeclared,
    /// Its index isn't less than its register's size.
    Index,
}

/// The size of the register of this kind and name.
fn size_of(known: &Known, register: Register, name: &[u8]) -> Option<u64>
    ensures { result ≡ size_of known.now register name.now }
{
    match register {
        Register::Qubits => known.qubit_size(name),
        Register::Bits => known.bit_size(name),
    }
}

/// Whether this is wrong with the argument.
fn has_arg_fault(known: &Known, register: Register, fault: ArgFault, arg: &Arg) -> bool
    ensures { IsTrue result ↔ HasArgFault known.now register fault arg.now }
{
    let size = size_of(known, register, arg.word.as_slice());
    match fault {
        ArgFault::NotDeclared => size.is_none(),
        ArgFault::Index => match (size, arg.index) {
            (Some(size), Some(index)) => size <= index,
            _ => false,
        },
    }
}

/// The least offset of an argument with which this is wrong.
pub(crate) fn least_arg(
    known: &Known,
    register: Register,
    fault: ArgFault,
    args: &[Arg],
) -> Option<u32>
    ensures { IsLeastOffset (HasArgFaultAt known.now register fault args.now) result }
{
    let mut least = None;
    for arg in args {
        let refused = has_arg_fault(known, register, fault, arg);
        least = earlier(least, refused.then_some(arg.at));
    }
    least
}
