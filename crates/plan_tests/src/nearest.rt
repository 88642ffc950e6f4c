//! Tests of the nearest traps and of returns: worked rows, and that the calls succeed where there is memory.

use std::alloc::Global;
use std::process::Abort;
use zac_arch::{Card, Point, TrapId, Zone, ZoneKind};
use zac_flags::Flags;
use zac_place::{return_targets, returns};
use zac_world::World;

/// Two rows of three storage traps.
const STORAGE: Zone = Zone {
    kind: ZoneKind::Storage,
    x: 0,
    y: 0,
    dx: 30,
    dy: 30,
    pair: 0,
    columns: 3,
    rows: 2,
};

/// Two sites above one another, over the middle column.
const ENTANGLING: Zone = Zone {
    kind: ZoneKind::Entangling,
    x: 30,
    y: 130,
    dx: 120,
    dy: 100,
    pair: 20,
    columns: 1,
    rows: 2,
};

/// The tiny card.
fn tiny(rt: &impl Abort, alloc: Global) -> Card {
    match Card::tiny(alloc) {
        Ok(card) => card,
        Err(_memory) => panic!(rt; "no memory"),
    }
}

#[test]
fn the_nearest_come_first(rt: HostRuntime) {
    let card = tiny(&rt, rt.alloc());
    assert!(rt; card.traps() == 8);
    let world = match World::new(rt.alloc(), &card, &[TrapId(0), TrapId(1)]) {
        Ok(world) => world,
        Err(_memory) => panic!(&rt; "no memory"),
    };
    let all = match world.nearest(rt.alloc(), &card, TrapId(4), 3) {
        Ok(all) => all,
        Err(_memory) => panic!(&rt; "no memory"),
    };
    assert!(rt; all.as_slice() == [TrapId(2), TrapId(3)].as_slice());
    let one = match world.nearest(rt.alloc(), &card, TrapId(4), 1) {
        Ok(one) => one,
        Err(_memory) => panic!(&rt; "no memory"),
    };
    assert!(rt; one.as_slice() == [TrapId(2)].as_slice());
}

#[test]
fn of_equally_near_traps_the_smaller_numbers_are_weighed(rt: HostRuntime) {
    let figures = tiny(&rt, rt.alloc()).figures();
    let zones = vec![in rt.alloc(); STORAGE, ENTANGLING].expect(&rt, "memory");
    let card = match Card::new(figures, zones) {
        Ok(card) => card,
        Err(_rule) => panic!(&rt; "no card"),
    };
    let world = match World::new(rt.alloc(), &card, &[TrapId(6), TrapId(4)]) {
        Ok(world) => world,
        Err(_memory) => panic!(&rt; "no memory"),
    };
    // The empty traps 1, 3 and 5 are all 130 away, and with one leaving atom two of them are weighed.
    let placed = match returns(rt.alloc(), &card, &world, &[0]) {
        Ok(placed) => placed,
        Err(_memory) => panic!(&rt; "no memory"),
    };
    assert!(rt;
        placed.targets.as_slice() == [1].as_slice() || placed.targets.as_slice() == [3].as_slice()
    );
    assert!(rt; placed.column_price.as_slice() == [0, 0, 0, 0, 0].as_slice());
    let targets = match return_targets(rt.alloc(), &card, &world, &[0]) {
        Ok(targets) => targets,
        Err(_memory) => panic!(&rt; "no memory"),
    };
    assert!(rt; targets.as_slice() == [1].as_slice() || targets.as_slice() == [3].as_slice());
}

#[test]
fn the_nearest_free_trap_is_neither_taken_nor_marked(rt: HostRuntime) {
    let figures = tiny(&rt, rt.alloc()).figures();
    let zones = vec![in rt.alloc(); STORAGE, ENTANGLING].expect(&rt, "memory");
    let card = match Card::new(figures, zones) {
        Ok(card) => card,
        Err(_rule) => panic!(&rt; "no card"),
    };
    assert!(rt; card.traps() == 10);
    let world = match World::new(rt.alloc(), &card, &[TrapId(6), TrapId(4)]) {
        Ok(world) => world,
        Err(_memory) => panic!(&rt; "no memory"),
    };
    // The empty traps 1, 3 and 5 are all 30 away.
    let from = Point { x: 30, y: 30 };
    let mut marks = Flags::none(rt.alloc(), 2).expect(&rt, "memory");
    match world.nearest_free(from, &marks) {
        Some(free) => assert!(rt; free.trap == TrapId(1) && free.distance == 30),
        None => panic!(&rt; "no trap"),
    }
    marks.set(1);
    match world.nearest_free(from, &marks) {
        Some(free) => assert!(rt; free.trap == TrapId(3) && free.distance == 30),
        None => panic!(&rt; "no trap"),
    }
}
