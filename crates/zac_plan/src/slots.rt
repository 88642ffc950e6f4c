//! Which gates, pairs and reads have given numbers.

ghost use Rattle.std.specs.Prelude.{◌≡◌, ◌^◌, ◌<◌, ◌≤◌, All, IfOk, length, vec_len};
ghost use Rattle.std.specs.List.{AllByRecursion};
ghost use Rattle.zac_plan.specs.Plan.{gates_at, pairs_at, reads_in};
ghost use Rattle.zair_form.specs.Ranges.{AnglesFit, GateFits, PairFits, ReadFits};

use std::alloc::Global;
use zac_gates::{Angles, Memory, Op};
use zair_form::{OneGate, PairOf, ReadOf};

/// Each `Angle` is the text of an angle: so says the contract of `bytes`.
fn are_angles(angles: &Angles)
    ensures { AnglesFit angles.now }
{
    let _theta = angles.theta.bytes();
    let _phi = angles.phi.bytes();
    let _lambda = angles.lambda.bytes();
}

/// The one-qubit gates with these numbers.
pub fn gates_at(alloc: Global, ops: &[Op], numbers: &[u32]) -> Result<Vec<OneGate>, Memory>
    requires { All (λ n. n < length ops.now) numbers.now }
    ensures gates { IfOk result (λ ones. ones.items ≡ gates_at ops.now numbers.now) }
    ensures fits { IfOk result (λ ones. AllByRecursion GateFits ones.items) }
    ensures most { IfOk result (λ ones. vec_len ones ≤ length numbers.now) }
{
    let mut ones = Vec::with_capacity(alloc, numbers.len())?;
    for number in numbers {
        if let Op::One { q, angles } = &ops[*number as usize] {
            are_angles(angles);
            let angles = angles.copy(alloc)?;
            ones.push(OneGate {
                op: *number,
                q: *q,
                angles,
            })?;
        }
    }
    Ok(ones)
}

/// The pairs with these numbers.
pub fn pairs_at(alloc: Global, ops: &[Op], numbers: &[u32]) -> Result<Vec<PairOf>, Memory>
    requires { All (λ n. n < length ops.now) numbers.now }
    ensures pairs { IfOk result (λ pairs. pairs.items ≡ pairs_at ops.now numbers.now) }
    ensures fits { IfOk result (λ pairs. AllByRecursion PairFits pairs.items) }
    ensures most { IfOk result (λ pairs. vec_len pairs ≤ length numbers.now) }
{
    let mut pairs = Vec::with_capacity(alloc, numbers.len())?;
    for number in numbers {
        if let Op::Two { a, b } = &ops[*number as usize] {
            pairs.push(PairOf {
                op: *number,
                a: *a,
                b: *b,
            })?;
        }
    }
    Ok(pairs)
}

/// All reads, in source order.
pub fn reads_in(alloc: Global, ops: &[Op]) -> Result<Vec<ReadOf>, Memory>
    requires { length ops.now < 2 ^ 32 }
    ensures reads { IfOk result (λ reads. reads.items ≡ reads_in ops.now) }
    ensures fits { IfOk result (λ reads. AllByRecursion ReadFits reads.items) }
{
    let mut reads = Vec::new(alloc);
    for (number, op) in ops.iter().enumerate() {
        if let Op::Read { q, bit } = op {
            reads.push(ReadOf {
                op: number as u32,
                q: *q,
                bit: *bit,
            })?;
        }
    }
    Ok(reads)
}
