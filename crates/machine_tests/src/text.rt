//! Tests of zair_text: the worked text of a job that carries two atoms, which `run` makes of no source, and the tally of
//! a program in which a pulse keeps an atom of the pulse before.
use std::alloc::Global;
use std::process::Abort;
use zac_arch::TrapId;
use zac_gates::List;
use zac_io::MemSink;
use zair_form::{Act, Beam, Caught, Dropped, Instr, PairOf, Program, Step};
use zair_text::{end_line, tally, write_program};

const TEXT: &str =
    "{\"type\":\"zair\",\"version\":1}\n{\"begin\":0,\"end\":0,\"homes\":[0,1],\"type\":\"init\"}\n{\"aod\":0,\"begin\":52000,\"end\":142453,\"steps\":[{\"atoms\":[[0,0,0],[1,0,1]],\"columns\":[[0,0],[1,30]],\"rows\":[[0,0]],\"step\":\"activate\"},{\"columns\":[[0,0],[1,20]],\"rows\":[[0,100]],\"step\":\"move\"},{\"atoms\":[[0,4],[1,5]],\"columns\":[0,1],\"rows\":[0],\"step\":\"deactivate\"}],\"type\":\"rearrangeJob\"}\n{\"gates\":0,\"jobs\":1,\"kept\":0,\"moved\":2,\"pairs\":0,\"pulses\":0,\"qubits\":2,\"reads\":0,\"time\":142453,\"type\":\"end\"}\n";

const END: &str =
    "{\"gates\":0,\"jobs\":1,\"kept\":1,\"moved\":2,\"pairs\":3,\"pulses\":3,\"qubits\":3,\"reads\":0,\"time\":142813,\"type\":\"end\"}\n";

// These items as a list.
fn list<T: Copy>(rt: &impl Abort, alloc: Global, items: &[T]) -> List<T> {
    List::of(Vec::from_slice(alloc, items).expect(rt, "memory"))
}

fn activate(rt: &impl Abort, alloc: Global) -> Step {
    let first = Caught {
        q: 0,
        row: 0,
        column: 0,
    };
    let second = Caught {
        q: 1,
        row: 0,
        column: 1,
    };
    Step::Activate {
        aod: 0,
        rows: list(rt, alloc, &[Beam { id: 0, at: 0 }]),
        columns: list(rt, alloc, &[Beam { id: 0, at: 0 }, Beam { id: 1, at: 30 }]),
        atoms: list(rt, alloc, &[first, second]),
    }
}

fn flight(rt: &impl Abort, alloc: Global) -> Step {
    Step::Move {
        aod: 0,
        rows: list(rt, alloc, &[Beam { id: 0, at: 100 }]),
        columns: list(rt, alloc, &[Beam { id: 0, at: 0 }, Beam { id: 1, at: 20 }]),
    }
}

fn deactivate(rt: &impl Abort, alloc: Global) -> Step {
    let first = Dropped {
        q: 0,
        trap: TrapId(4),
    };
    let second = Dropped {
        q: 1,
        trap: TrapId(5),
    };
    Step::Deactivate {
        aod: 0,
        rows: list(rt, alloc, &[0]),
        columns: list(rt, alloc, &[0, 1]),
        atoms: list(rt, alloc, &[first, second]),
    }
}

// Two atoms are carried from the traps 0 and 1 to the traps 4 and 5.
fn act(rt: &impl Abort, alloc: Global) -> Act {
    let mut steps = Vec::new(alloc);
    steps.push(activate(rt, alloc)).expect(rt, "memory");
    steps.push(flight(rt, alloc)).expect(rt, "memory");
    steps.push(deactivate(rt, alloc)).expect(rt, "memory");
    Act::Job {
        aod: 0,
        steps: List::of(steps),
    }
}

fn program(rt: &impl Abort, alloc: Global) -> Program {
    let homes = list(rt, alloc, &[TrapId(0), TrapId(1)]);
    let mut instrs = Vec::new(alloc);
    let first = Instr {
        begin: 0,
        end: 0,
        act: Act::Init { homes },
    };
    instrs.push(first).expect(rt, "memory");
    let second = Instr {
        begin: 52000,
        end: 142453,
        act: act(rt, alloc),
    };
    instrs.push(second).expect(rt, "memory");
    Program::new(List::of(instrs)).expect(rt, "a program")
}

#[test]
fn job_of_two_atoms(rt: HostRuntime) {
    let alloc = rt.alloc();
    let program = program(&rt, alloc);
    let mut sink = MemSink::new(alloc, 4096, List::of(Vec::new(alloc))).expect(&rt, "memory");
    assert!(rt; write_program(alloc, &program, &mut sink).is_ok());
    assert!(rt; sink.bytes() == TEXT.as_bytes());
}

// A pulse of one pair.
fn pulse(rt: &impl Abort, alloc: Global, begin: u64, pair: PairOf) -> Instr {
    Instr {
        begin,
        end: begin.saturating_add(360),
        act: Act::Rydberg {
            pairs: list(rt, alloc, &[pair]),
        },
    }
}

// Qubit 1 stays for the second pulse. Before the third one, a job drops it, and qubit 0 was not in the second one.
fn kept_once(rt: &impl Abort, alloc: Global) -> Program {
    let mut instrs = Vec::new(alloc);
    let homes = list(rt, alloc, &[TrapId(0), TrapId(1), TrapId(2)]);
    let first = Instr {
        begin: 0,
        end: 0,
        act: Act::Init { homes },
    };
    instrs.push(first).expect(rt, "memory");
    let one = pulse(rt, alloc, 0, PairOf { op: 0, a: 0, b: 1 });
    instrs.push(one).expect(rt, "memory");
    let two = pulse(rt, alloc, 360, PairOf { op: 1, a: 1, b: 2 });
    instrs.push(two).expect(rt, "memory");
    let job = Instr {
        begin: 52000,
        end: 142453,
        act: act(rt, alloc),
    };
    instrs.push(job).expect(rt, "memory");
    let three = pulse(rt, alloc, 142453, PairOf { op: 2, a: 0, b: 1 });
    instrs.push(three).expect(rt, "memory");
    Program::new(List::of(instrs)).expect(rt, "a program")
}

#[test]
fn tally_of_a_kept_pair(rt: HostRuntime) {
    let alloc = rt.alloc();
    let program = kept_once(&rt, alloc);
    let totals = tally(alloc, &program).expect(&rt, "memory");
    assert!(rt; totals.kept == 1);
    let line = end_line(alloc, totals).expect(&rt, "memory");
    assert!(rt; line.as_slice() == END.as_bytes());
}
