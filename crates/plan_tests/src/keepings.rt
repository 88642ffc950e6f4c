//! Gates that are kept between two pulses: that the call succeeds where there is memory, and how many there are.

use std::alloc::Global;
use std::process::Abort;
use zac_gates::{Circuit, List, Op};
use zac_reuse::keep;
use zac_stage::stage;

// How many gates are kept from pulse 0 to pulse 1 of these two, with two sites.
fn kept(rt: &impl Abort, alloc: Global, ops: Vec<Op>) -> usize {
    assert!(rt; ops.len() < 10);
    let circuit = match Circuit::new(alloc, 4, 0, List::of(ops)) {
        Ok(circuit) => circuit,
        Err(_fault) => panic!(rt; "no circuit"),
    };
    let stages = match stage(alloc, &circuit, 2) {
        Ok(stages) => stages,
        Err(_memory) => panic!(rt; "no memory"),
    };
    assert!(rt; stages.pulses() == 2);
    match keep(alloc, &circuit, &stages, 0) {
        Ok(kept) => kept.pairs.as_slice().len(),
        Err(_memory) => panic!(rt; "no memory"),
    }
}

#[test]
fn one_of_two_gates_takes_the_site_of_the_gate_before_both(rt: HostRuntime) {
    let mut ops = Vec::new(rt.alloc());
    ops.push(Op::Two { a: 0, b: 1 }).expect(&rt, "memory");
    ops.push(Op::Two { a: 0, b: 2 }).expect(&rt, "memory");
    ops.push(Op::Two { a: 1, b: 3 }).expect(&rt, "memory");
    assert!(rt; kept(&rt, rt.alloc(), ops) == 1);
}

#[test]
fn none_is_kept_where_no_qubit_is_shared(rt: HostRuntime) {
    let mut ops = Vec::new(rt.alloc());
    ops.push(Op::Two { a: 0, b: 1 }).expect(&rt, "memory");
    ops.push(Op::Fence).expect(&rt, "memory");
    ops.push(Op::Two { a: 2, b: 3 }).expect(&rt, "memory");
    assert!(rt; kept(&rt, rt.alloc(), ops) == 0);
}
