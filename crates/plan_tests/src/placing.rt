//! Tests of zac_place: worked homes and sites, and that the calls succeed where there is memory.

use std::alloc::Global;
use std::process::Abort;
use zac_arch::{Card, SiteId, TrapId};
use zac_gates::{Circuit, List, Op};
use zac_place::{gate_sites, homes};
use zac_world::World;

/// The homes of so many qubits on a card, where these pairs come.
fn homes_on(
    rt: &impl Abort,
    alloc: Global,
    card: &Card,
    qubits: u32,
    pairs: &[(u32, u32)],
) -> List<TrapId> {
    let mut ops = Vec::new(alloc);
    for (a, b) in pairs {
        ops.push(Op::Two { a: *a, b: *b }).expect(rt, "memory");
    }
    assert!(rt; ops.len() < 10);
    let circuit = match Circuit::new(alloc, qubits, 0, List::of(ops)) {
        Ok(circuit) => circuit,
        Err(_fault) => panic!(rt; "no circuit"),
    };
    assert!(rt; circuit.qubits() <= card.storage_traps());
    match homes(alloc, card, &circuit) {
        Ok(homes) => homes,
        Err(_memory) => panic!(rt; "no memory"),
    }
}

#[test]
fn qubits_rest_by_their_first_pairs(rt: HostRuntime) {
    let card = match Card::tiny(rt.alloc()) {
        Ok(card) => card,
        Err(_memory) => panic!(&rt; "no memory"),
    };
    let used = homes_on(&rt, rt.alloc(), &card, 3, &[(1, 2), (0, 2)]);
    assert!(rt; used.as_slice() == [TrapId(2), TrapId(0), TrapId(1)].as_slice());
    let unused = homes_on(&rt, rt.alloc(), &card, 4, &[]);
    assert!(rt; unused.as_slice() == [TrapId(0), TrapId(1), TrapId(2), TrapId(3)].as_slice());
}

#[test]
fn the_row_beside_the_sites_is_filled_first(rt: HostRuntime) {
    let card = match Card::standard(rt.alloc()) {
        Ok(card) => card,
        Err(_memory) => panic!(&rt; "no memory"),
    };
    let homes = homes_on(&rt, rt.alloc(), &card, 3, &[(0, 1), (1, 2)]);
    assert!(rt; homes.as_slice() == [TrapId(9900), TrapId(9901), TrapId(9902)].as_slice());
}

#[test]
fn the_site_that_costs_less_is_taken(rt: HostRuntime) {
    let card = match Card::tiny(rt.alloc()) {
        Ok(card) => card,
        Err(_memory) => panic!(&rt; "no memory"),
    };
    let homes = [TrapId(0), TrapId(1), TrapId(2), TrapId(3)];
    let world = match World::new(rt.alloc(), &card, &homes) {
        Ok(world) => world,
        Err(_memory) => panic!(&rt; "no memory"),
    };
    let free = [SiteId(0), SiteId(1)];
    // Site 0 costs 330, and site 1 costs 310.
    let placed = match gate_sites(rt.alloc(), &card, &world, &free, &[(2, 3)]) {
        Ok(placed) => placed,
        Err(_memory) => panic!(&rt; "no memory"),
    };
    assert!(rt; placed.targets.as_slice() == [1].as_slice());
}
