//! Whether two ops are the same.

ghost use Rattle.std.specs.Prelude.{◌≡◌, ◌↔◌, IsTrue};
ghost use Rattle.zac_gates.specs.Checklist.{IsListedAs};

use crate::angle::{Angle, Angles};
use crate::circuit::Op;

/// Whether two angles have the same text.
fn is_same_angle(one: &Angle, other: &Angle) -> bool
    ensures { IsTrue result ↔ (one.now ≡ other.now) }
{
    one.bytes() == other.bytes()
}

/// Whether the three angles are the same.
fn are_same_angles(one: &Angles, other: &Angles) -> bool
    ensures { IsTrue result ↔ (one.now ≡ other.now) }
{
    is_same_angle(&one.theta, &other.theta)
        && is_same_angle(&one.phi, &other.phi)
        && is_same_angle(&one.lambda, &other.lambda)
}

/// Whether two ops are the same.
fn is_same_op(one: &Op, other: &Op) -> bool
    ensures { IsTrue result ↔ (one.now ≡ other.now) }
{
    match one {
        Op::One { q, angles } => match other {
            Op::One {
                q: other_q,
                angles: other_angles,
            } => *q == *other_q && are_same_angles(angles, other_angles),
            _ => false,
        },
        Op::Two { a, b } => match other {
            Op::Two {
                a: other_a,
                b: other_b,
            } => *a == *other_a && *b == *other_b,
            _ => false,
        },
        Op::Fence => matches!(other, Op::Fence),
        Op::Read { q, bit } => match other {
            Op::Read {
                q: other_q,
                bit: other_bit,
            } => *q == *other_q && *bit == *other_bit,
            _ => false,
        },
    }
}

/// Whether the list has an op of this number and content, and it is no fence.
pub fn is_listed_as(ops: &[Op], op: u32, what: &Op) -> bool
    ensures { IsTrue result ↔ IsListedAs ops.now op what.now }
{
    if matches!(what, Op::Fence) {
        return false;
    }
    match ops.get(op as usize) {
        Some(own) => is_same_op(own, what),
        None => false,
    }
}
