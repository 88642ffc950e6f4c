//! Tests of zac_gates: which texts are angles, and which op of a list is refused.
use crate::common::bytes;
use std::alloc::Global;
use std::process::Abort;
use zac_gates::{Angle, Circuit, CircuitFault, List, Op};

// Whether the text is an angle.
fn is_angle(rt: &impl Abort, alloc: Global, text: &[u8]) -> bool {
    Angle::new(bytes(rt, alloc, text)).is_ok()
}

#[test]
fn angles_by_byte(rt: HostRuntime) {
    let allowed =
        b"!#$%&'()*+,-./0123456789:;<=>?@ABCDEFGHIJKLMNOPQRSTUVWXYZ[]^_`abcdefghijklmnopqrstuvwxyz{|}~";
    for byte in 0..=255u8 {
        let answer = is_angle(&rt, rt.alloc(), &[b'1', byte]);
        assert!(rt; answer == allowed.contains(&byte), "byte {byte}");
    }
}

#[test]
fn angles_by_length(rt: HostRuntime) {
    let digits = [b'0'; 16_385];
    assert!(rt; !is_angle(&rt, rt.alloc(), &digits[..0]));
    assert!(rt; is_angle(&rt, rt.alloc(), &digits[..1]));
    assert!(rt; is_angle(&rt, rt.alloc(), &digits[..16_384]));
    assert!(rt; !is_angle(&rt, rt.alloc(), &digits));
}

// Which op of these is refused, on 3 qubits and 2 bits.
fn refused(rt: &impl Abort, ops: Vec<Op>, alloc: Global) -> Option<u32> {
    assert!(rt; ops.len() < 10);
    match Circuit::new(alloc, 3, 2, List::of(ops)) {
        Ok(_) => None,
        Err(CircuitFault::Op { op }) => Some(op),
        Err(CircuitFault::Memory) => panic!(rt; "no memory"),
    }
}

// A pair, a read, a fence, and then the last op.
fn behind_a_read(rt: &impl Abort, alloc: Global, last: Op) -> Vec<Op> {
    let mut ops = Vec::with_capacity(alloc, 4).expect(rt, "memory");
    ops.push(Op::Two { a: 2, b: 0 }).expect(rt, "memory");
    ops.push(Op::Read { q: 1, bit: 1 }).expect(rt, "memory");
    ops.push(Op::Fence).expect(rt, "memory");
    ops.push(last).expect(rt, "memory");
    ops
}

#[test]
fn ops_that_are_refused(rt: HostRuntime) {
    let alloc = rt.alloc();
    for (a, b, want) in [
        (0, 2, None),
        (2, 2, Some(3)),
        (3, 0, Some(3)),
        (1, 0, Some(3)),
        (2, 1, Some(3)),
    ] {
        let ops = behind_a_read(&rt, alloc, Op::Two { a, b });
        assert!(rt; refused(&rt, ops, alloc) == want, "{a} {b}");
    }
    for (q, bit, want) in [(2, 1, None), (1, 0, Some(3)), (0, 2, Some(3))] {
        let ops = behind_a_read(&rt, alloc, Op::Read { q, bit });
        assert!(rt; refused(&rt, ops, alloc) == want, "{q} {bit}");
    }
}
