//! Tests of zac_stage, zac_world and the checklist of zac_gates: that the calls succeed where there is memory.

use std::alloc::Global;
use std::process::Abort;
use zac_arch::{Card, TrapId};
use zac_gates::{CheckFault, Checklist, Circuit, List, Op};
use zac_stage::stage;
use zac_world::World;

// Three pairs of six qubits, and a read.
fn three_pairs(rt: &impl Abort, alloc: Global) -> Circuit {
    let mut ops = Vec::with_capacity(alloc, 4).expect(rt, "memory");
    ops.push(Op::Two { a: 0, b: 1 }).expect(rt, "memory");
    ops.push(Op::Two { a: 2, b: 3 }).expect(rt, "memory");
    ops.push(Op::Two { a: 4, b: 5 }).expect(rt, "memory");
    ops.push(Op::Read { q: 0, bit: 0 }).expect(rt, "memory");
    assert!(rt; ops.len() < 10);
    match Circuit::new(alloc, 6, 1, List::of(ops)) {
        Ok(circuit) => circuit,
        Err(_fault) => panic!(rt; "no circuit"),
    }
}

#[test]
fn the_third_pair_finds_no_site(rt: HostRuntime) {
    let circuit = three_pairs(&rt, rt.alloc());
    let stages = match stage(rt.alloc(), &circuit, 2) {
        Ok(stages) => stages,
        Err(_memory) => panic!(&rt; "no memory"),
    };
    assert!(rt; stages.pulses() == 2);
    assert!(rt; stages.pairs(0) == [0, 1].as_slice());
    assert!(rt; stages.pairs(1) == [2].as_slice());
}

#[test]
fn a_read_waits_for_the_pairs(rt: HostRuntime) {
    let circuit = three_pairs(&rt, rt.alloc());
    let mut checklist = match Checklist::new(rt.alloc(), &circuit) {
        Ok(checklist) => checklist,
        Err(_memory) => panic!(&rt; "no memory"),
    };
    let first = Op::Two { a: 0, b: 1 };
    let read = Op::Read { q: 0, bit: 0 };
    assert!(rt; checklist.perform(&circuit, 0, &first).is_ok());
    assert!(rt;
        matches!(
            checklist.perform(&circuit, 3, &read),
            Err(CheckFault::Early { op: 3, waits: 1 })
        )
    );
    assert!(rt; checklist.complete(&circuit) == Some(1));
}

#[test]
fn the_trap_that_is_left_is_empty(rt: HostRuntime) {
    let card = match Card::tiny(rt.alloc()) {
        Ok(card) => card,
        Err(_memory) => panic!(&rt; "no memory"),
    };
    let homes = [TrapId(0), TrapId(1), TrapId(2), TrapId(3)];
    let mut world = match World::new(rt.alloc(), &card, &homes) {
        Ok(world) => world,
        Err(_memory) => panic!(&rt; "no memory"),
    };
    world.put(1, TrapId(4));
    assert!(rt; world.trap_of(1) == TrapId(4));
    assert!(rt; world.atom_at(TrapId(1)) == None);
}
