//! Finds the kept gates between large pulses, to measure how long that takes. It reads nothing.
#![tactic(auto)]

ghost use Rattle.std.specs.Prelude.{◌≡◌, ◌*◌, ◌<◌, ◌≤◌, ◌^◌, length, IfOk, vec_len};

use std::alloc::{AllocError, Global};
use std::io;
use zac_gates::{Circuit, List, Memory, Op};
use zac_reuse::keep;
use zac_stage::{Stages, stage};

/// How many qubits there are.
const QUBITS: u32 = 2048;

/// How many pulses each circuit has.
const PULSES: u32 = 256;

/// How many pairs a pulse may have.
const SITES: u32 = 1024;

/// A pair of a qubit and the one behind it, in a ring of all.
fn pair_from(qubit: u32) -> Op {
    let a = qubit % QUBITS;
    Op::Two {
        a,
        b: if a == QUBITS - 1 { 0 } else { a + 1 },
    }
}

/// Pulses of as many pairs as there are sites, with a fence between two. The pairs of two neighbouring pulses share
/// their qubits in one ring, or in one long path where the first pair is left out. Each pulse goes on by the stride.
fn ring(alloc: Global, stride: u32, is_closed: bool) -> Result<Vec<Op>, AllocError> {
    let mut ops = Vec::new(alloc);
    for pulse in 0..PULSES {
        for k in 0..SITES {
            if is_closed || k > 0 {
                let at = k.wrapping_mul(stride) % SITES;
                ops.push(pair_from(2 * at + pulse % 2))?;
            }
        }
        ops.push(Op::Fence)?;
    }
    Ok(ops)
}

/// How many gates are kept between all pulses.
fn kept(alloc: Global, circuit: &Circuit, stages: &Stages<'_>) -> Result<usize, Memory>
    requires { stages.now.circuit ≡ circuit.now }
{
    let mut all = 0usize;
    for t in 1..stages.pulses() {
        let kept = keep(alloc, circuit, stages, t - 1)?;
        all = all.wrapping_add(kept.pairs.as_slice().len());
    }
    Ok(all)
}

/// Says how many gates are kept.
fn report(rt: &(impl Print + AllocGlobal), name: &str, ops: Vec<Op>) -> io::Result<()> {
    if ops.len() >= 1 << 20 {
        return println!(rt; "{name}: too many ops");
    }
    let circuit = match Circuit::new(rt.alloc(), QUBITS, 0, List::of(ops)) {
        Ok(circuit) => circuit,
        Err(_fault) => return println!(rt; "{name}: no circuit"),
    };
    let stages = match stage(rt.alloc(), &circuit, SITES) {
        Ok(stages) => stages,
        Err(Memory) => return println!(rt; "{name}: out of memory"),
    };
    let pulses = stages.pulses();
    match kept(rt.alloc(), &circuit, &stages) {
        Ok(all) => println!(rt; "{name}: {pulses} pulses, {all} gates kept"),
        Err(Memory) => println!(rt; "{name}: out of memory"),
    }
}

fn main(rt: HostRuntime) -> io::Result<()> {
    report(&rt, "ring", ring(rt.alloc(), 1, true)?)?;
    report(&rt, "ring by strides", ring(rt.alloc(), 397, true)?)?;
    report(&rt, "path", ring(rt.alloc(), 1, false)?)?;
    report(&rt, "path by strides", ring(rt.alloc(), 397, false)?)
}
