//! Tests of zac_watch: a controlled not on the tiny card, watched and replayed, and its text spoilt in three ways.
use std::alloc::Global;
use std::process::Abort;
use std::test::Fail;
use zac_arch::{Card, TrapId};
use zac_gates::{Angle, Angles, Circuit, List, Op};
use zac_watch::{Counter, Kind, ReplayFault, Watch, WatchFault, named_order, replay, watched};
use zair_form::{Act, Beam, Caught, Dropped, Instr, OneGate, PairOf, Program, Step};
use zair_machine::MachineFault;

fn angle(rt: &impl Abort, alloc: Global, text: &[u8]) -> Angle {
    let Ok(bytes) = Vec::from_slice(alloc, text) else {
        panic!(rt; "no memory");
    };
    match Angle::new(List::of(bytes)) {
        Ok(angle) => angle,
        Err(_) => panic!(rt; "no angle"),
    }
}

fn hadamard(rt: &impl Abort, alloc: Global) -> Angles {
    Angles {
        theta: angle(rt, alloc, b"(pi/2)"),
        phi: angle(rt, alloc, b"0"),
        lambda: angle(rt, alloc, b"pi"),
    }
}

/// The native ops of a controlled not of qubit 0 on qubit 1.
fn controlled_not(rt: &impl Abort, alloc: Global) -> Result<Circuit, Fail> {
    let mut ops = Vec::new(alloc);
    ops.push(Op::One {
        q: 1,
        angles: hadamard(rt, alloc),
    })?;
    ops.push(Op::Two { a: 0, b: 1 })?;
    ops.push(Op::One {
        q: 1,
        angles: hadamard(rt, alloc),
    })?;
    Ok(Circuit::new(alloc, 2, 0, List::of(ops))?)
}

/// A gate on qubit 1.
fn gate(rt: &impl Abort, alloc: Global, op: u32, begin: u64, end: u64) -> Result<Instr, Fail> {
    let mut ones = Vec::new(alloc);
    ones.push(OneGate {
        op,
        q: 1,
        angles: hadamard(rt, alloc),
    })?;
    Ok(Instr {
        begin,
        end,
        act: Act::Gates {
            ones: List::of(ones),
        },
    })
}

/// The job that carries both qubits to a site, the second one to this trap.
fn job(alloc: Global, trap: u32) -> Result<Instr, Fail> {
    let beam = |id: u8, at: u32| Beam { id, at };
    let caught = |q: u32, column: u8| Caught { q, row: 0, column };
    let dropped = |q: u32, trap: u32| Dropped {
        q,
        trap: TrapId(trap),
    };
    let mut steps = Vec::new(alloc);
    steps.push(Step::Activate {
        aod: 0,
        rows: List::of(vec![in alloc; beam(0, 0)]?),
        columns: List::of(vec![in alloc; beam(0, 0), beam(1, 30)]?),
        atoms: List::of(vec![in alloc; caught(0, 0), caught(1, 1)]?),
    })?;
    steps.push(Step::Move {
        aod: 0,
        rows: List::of(vec![in alloc; beam(0, 100)]?),
        columns: List::of(vec![in alloc; beam(0, 0), beam(1, 20)]?),
    })?;
    steps.push(Step::Deactivate {
        aod: 0,
        rows: List::of(vec![in alloc; 0]?),
        columns: List::of(vec![in alloc; 0, 1]?),
        atoms: List::of(vec![in alloc; dropped(0, 4), dropped(1, trap)]?),
    })?;
    Ok(Instr {
        begin: 52_000,
        end: 142_453,
        act: Act::Job {
            aod: 0,
            steps: List::of(steps),
        },
    })
}

/// The program of the controlled not, with this trap and this end of the first gate, and with the last gate or without.
fn program(
    rt: &impl Abort,
    alloc: Global,
    trap: u32,
    end: u64,
    last: bool,
) -> Result<Program, Fail> {
    let mut instrs = Vec::new(alloc);
    instrs.push(Instr {
        begin: 0,
        end: 0,
        act: Act::Init {
            homes: List::of(vec![in alloc; TrapId(0), TrapId(1)]?),
        },
    })?;
    instrs.push(gate(rt, alloc, 0, 0, end)?)?;
    instrs.push(job(alloc, trap)?)?;
    instrs.push(Instr {
        begin: 142_453,
        end: 142_813,
        act: Act::Rydberg {
            pairs: List::of(vec![in alloc; PairOf { op: 1, a: 0, b: 1 }]?),
        },
    })?;
    if last {
        instrs.push(gate(rt, alloc, 2, 142_813, 194_813)?)?;
    }
    match Program::new(List::of(instrs)) {
        Some(program) => Ok(program),
        None => panic!(rt; "no program"),
    }
}

/// What `replay` answers: 0 to 5 for the steps or the faults, and two numbers.
fn judged(answer: Result<u64, ReplayFault>) -> (u8, u64, u64) {
    match answer {
        Ok(steps) => (0, steps, 0),
        Err(ReplayFault::Qubits { text, source }) => (1, text, u64::from(source)),
        Err(ReplayFault::Home { q }) => (2, u64::from(q), 0),
        Err(ReplayFault::Length { instr }) => (3, instr, 0),
        Err(
            ReplayFault::Machine {
                step,
                fault: MachineFault::DropWrong { q },
            },
        ) => (4, step, u64::from(q)),
        Err(ReplayFault::Missing { op }) => (5, u64::from(op), 0),
        Err(_) => (6, 0, 0),
    }
}

#[test]
fn a_controlled_not_is_replayed(rt: HostRuntime) -> Result<(), Fail> {
    let alloc = rt.alloc();
    let card = Card::tiny(alloc)?;
    let circuit = controlled_not(&rt, alloc)?;
    let right = program(&rt, alloc, 5, 52_000, true)?;
    let order = named_order(alloc, &card, &right)?;
    let table = [(1, 0), (2, 0), (2, 1), (2, 2), (3, 0), (4, 0)];
    assert_eq!(rt; order.as_slice(), table.as_slice());
    assert_eq!(rt; judged(replay(alloc, &card, &circuit, &right)), (0, 6, 0));
    let astray = program(&rt, alloc, 6, 52_000, true)?;
    assert_eq!(rt; judged(replay(alloc, &card, &circuit, &astray)), (4, 3, 1));
    let short = program(&rt, alloc, 5, 52_000, false)?;
    assert_eq!(rt; judged(replay(alloc, &card, &circuit, &short)), (5, 2, 0));
    let late = program(&rt, alloc, 5, 52_001, true)?;
    assert_eq!(rt; judged(replay(alloc, &card, &circuit, &late)), (3, 1, 0));
    Ok(())
}

#[test]
fn watches_add_up_what_they_see(rt: HostRuntime) -> Result<(), Fail> {
    let alloc = rt.alloc();
    let card = Card::tiny(alloc)?;
    let right = program(&rt, alloc, 5, 52_000, true)?;
    let kinds = [
        (Kind::Gates, 2),
        (Kind::Moves, 1),
        (Kind::Pairs, 1),
        (Kind::Picks, 2),
        (Kind::Pulses, 1),
        (Kind::Reads, 0),
    ];
    let mut panel: Vec<Box<dyn Watch>> = Vec::new(alloc);
    for (kind, _) in kinds {
        panel.push(Box::new(alloc, Counter::new(kind))?)?;
    }
    match watched(alloc, &card, &right, &mut panel) {
        Ok(()) => {}
        Err(_) => assert!(rt; false),
    }
    for (watch, (kind, sum)) in panel.iter().zip(kinds) {
        assert_eq!(rt; watch.kind(), kind);
        assert_eq!(rt; watch.sum(), sum);
    }
    let astray = program(&rt, alloc, 6, 52_000, true)?;
    match watched(alloc, &card, &astray, &mut panel) {
        Err(WatchFault::Machine { step, .. }) => assert_eq!(rt; step, 3),
        _ => assert!(rt; false),
    }
    Ok(())
}
