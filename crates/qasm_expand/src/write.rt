//! The ops of calls without a body.

ghost use Rattle.std.specs.Prelude.{◌≡◌, [], ◌∷◌, ◌++◌, IsTrue, IfOk, OnOk};
ghost use Rattle.std.specs.List.{AllByRecursion};
ghost use Rattle.zac_gates.specs.Angle.{is_angle};
ghost use Rattle.qasm_expand.specs.Native.{ops_on, hadamard_angles};
ghost use Rattle.qasm_expand.specs.Walks.{IsSmall};
ghost use Rattle.qasm_expand.specs.AngleNodes.{HasNoNames};

use crate::angle_text::angle_text_of;
use qasm_form::Expr;
use qasm_names::Target;
use std::alloc::Global;
use zac_gates::{Angle, Angles, List, Memory, Op};

/// An angle of this text.
fn angle(alloc: Global, text: &[u8]) -> Result<Angle, Memory>
    requires { IsTrue (is_angle text.now) }
    ensures { IfOk result (λ a. a ≡ text.now) }
{
    let bytes = List::of(Vec::from_slice(alloc, text)?);
    Ok(Angle::new(bytes).unwrap())
}

/// The angles of a Hadamard gate.
fn hadamard(alloc: Global) -> Result<Angles, Memory>
    ensures { IfOk result (λ a. a ≡ hadamard_angles) }
{
    Ok(Angles {
        theta: angle(alloc, b"(pi/2)")?,
        phi: angle(alloc, b"0")?,
        lambda: angle(alloc, b"pi")?,
    })
}

/// The one-qubit gate with these three angles.
fn write_u(
    alloc: Global,
    ops: &mut Vec<Op>,
    q: u32,
    theta: &Expr,
    phi: &Expr,
    lambda: &Expr,
) -> Result<(), Memory>
    requires closed { AllByRecursion HasNoNames (theta.now ∷ phi.now ∷ lambda.now ∷ []) }
    requires small { AllByRecursion IsSmall (theta.now ∷ phi.now ∷ lambda.now ∷ []) }
    ensures { OnOk result (ops.new.items ≡ ops.old.items ++ ops_on Target.U (theta.now ∷ phi.now ∷ lambda.now ∷ []) (q ∷ [])) }
{
    let angles = Angles {
        theta: angle_text_of(alloc, theta)?,
        phi: angle_text_of(alloc, phi)?,
        lambda: angle_text_of(alloc, lambda)?,
    };
    ops.push(Op::One { q, angles })?;
    Ok(())
}

/// The controlled not: a CZ between two Hadamard gates on the target.
fn write_cx(alloc: Global, ops: &mut Vec<Op>, c: u32, t: u32) -> Result<(), Memory>
    ensures { OnOk result (ops.new.items ≡ ops.old.items ++ ops_on Target.Cx [] (c ∷ t ∷ [])) }
{
    ops.push(Op::One {
        q: t,
        angles: hadamard(alloc)?,
    })?;
    ops.push(Op::Two { a: c, b: t })?;
    ops.push(Op::One {
        q: t,
        angles: hadamard(alloc)?,
    })?;
    Ok(())
}

/// The ops of a call of this target.
pub(crate) fn write_ops(
    alloc: Global,
    ops: &mut Vec<Op>,
    target: Target,
    angles: &[Expr],
    qubits: &[u32],
) -> Result<(), Memory>
    requires closed { AllByRecursion HasNoNames angles.now }
    requires small { AllByRecursion IsSmall angles.now }
    ensures { OnOk result (ops.new.items ≡ ops.old.items ++ ops_on target angles.now qubits.now) }
{
    match target {
        Target::U => {
            if let [theta, phi, lambda] = angles
                && let [q] = qubits
            {
                write_u(alloc, ops, *q, theta, phi, lambda)?;
            }
        }
        Target::Cx => {
            if let [] = angles
                && let [c, t] = qubits
            {
                write_cx(alloc, ops, *c, *t)?;
            }
        }
        Target::Cz => {
            if let [] = angles
                && let [a, b] = qubits
            {
                ops.push(Op::Two { a: *a, b: *b })?;
            }
        }
        Target::Barrier => ops.push(Op::Fence)?,
        Target::Gate { place: _ } => {}
    }
    Ok(())
}
