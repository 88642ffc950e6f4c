//! Puts large circuits into pulses and performs them on a checklist, to measure how long that takes. It reads nothing.
#![tactic(auto)]

ghost use Rattle.std.specs.Prelude.{◌≡◌, ◌*◌, ◌<◌, ◌≤◌, ◌^◌, IfOk, vec_len};

use std::alloc::{AllocError, Global};
use std::io;
use zac_gates::{Checklist, Circuit, List, Memory, Op};
use zac_stage::stage;

/// How many pairs each circuit has.
const PAIRS: u32 = 262_144;

/// How many pairs a pulse may have.
const SITES: u32 = 140;

/// A pair of two qubits of so many.
fn pair_of(a: u32, b: u32, qubits: u32) -> Op
    requires { 2 ≤ qubits }
{
    let a = a % qubits;
    let b = b % qubits;
    if a == b {
        return Op::Two {
            a,
            b: if a == 0 { 1 } else { 0 },
        };
    }
    Op::Two { a, b }
}

/// Pairs that a generator takes, of 4,096 qubits.
fn wide(alloc: Global) -> Result<Vec<Op>, AllocError>
    ensures { IfOk result (λ ops. vec_len ops < 2 ^ 32) }
{
    let mut ops = Vec::new(alloc);
    let mut state = 1u64;
    for _ in 0..PAIRS {
        state = state
            .wrapping_mul(6_364_136_223_846_793_005)
            .wrapping_add(1_442_695_040_888_963_407);
        ops.push(pair_of((state >> 32) as u32, (state >> 44) as u32, 4096))?;
    }
    Ok(ops)
}

/// Each pair shares a qubit with the next one, over 100 qubits.
fn chain(alloc: Global) -> Result<Vec<Op>, AllocError>
    ensures { IfOk result (λ ops. vec_len ops < 2 ^ 32) }
{
    let mut ops = Vec::new(alloc);
    for k in 0..PAIRS {
        ops.push(pair_of(k, k + 1, 100))?;
    }
    Ok(ops)
}

/// A fence behind each pair, over 4,096 qubits.
fn fenced(alloc: Global) -> Result<Vec<Op>, AllocError>
    ensures { IfOk result (λ ops. vec_len ops < 2 ^ 32) }
{
    let mut ops = Vec::new(alloc);
    for k in 0..PAIRS {
        ops.push(pair_of(k, k + 1, 4096))?;
        ops.push(Op::Fence)?;
    }
    Ok(ops)
}

/// How many ops are performed in the order of the list.
fn performed(alloc: Global, circuit: &Circuit) -> Result<u32, Memory> {
    let mut checklist = Checklist::new(alloc, circuit)?;
    let mut done = 0;
    for (op, what) in circuit.ops().iter().enumerate() {
        if checklist.perform(circuit, op as u32, what).is_ok() {
            done += 1;
        }
    }
    Ok(done)
}

/// Says how many pulses there are, and how many ops are performed.
fn report(rt: &(impl Print + AllocGlobal), name: &str, ops: Vec<Op>) -> io::Result<()>
    requires { vec_len ops < 2 ^ 32 }
{
    let circuit = match Circuit::new(rt.alloc(), 4096, 0, List::of(ops)) {
        Ok(circuit) => circuit,
        Err(_fault) => return println!(rt; "{name}: no circuit"),
    };
    let pulses = match stage(rt.alloc(), &circuit, SITES) {
        Ok(stages) => stages.pulses(),
        Err(Memory) => return println!(rt; "{name}: out of memory"),
    };
    match performed(rt.alloc(), &circuit) {
        Ok(done) => println!(rt; "{name}: {pulses} pulses, {done} ops performed"),
        Err(Memory) => println!(rt; "{name}: out of memory"),
    }
}

fn main(rt: HostRuntime) -> io::Result<()> {
    report(&rt, "wide", wide(rt.alloc())?)?;
    report(&rt, "chain", chain(rt.alloc())?)?;
    report(&rt, "fenced", fenced(rt.alloc())?)
}
