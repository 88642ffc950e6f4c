//! Tests of zac_plan.
use std::alloc::Global;
use std::test::Fail;
use zac_arch::Card;
use zac_gates::{Circuit, List, Op};
use zac_plan::{PlanFault, compile};
use zair_form::Program;

/// The answer on the tiny card for a pair of the first two of so many qubits.
fn answer(alloc: Global, qubits: u32) -> Result<Result<Program, PlanFault>, Fail> {
    let mut ops = Vec::new(alloc);
    ops.push(Op::Two { a: 0, b: 1 })?;
    let circuit = Circuit::new(alloc, qubits, 0, List::of(ops))?;
    let card = Card::tiny(alloc)?;
    Ok(compile(alloc, &card, &circuit))
}

#[test]
fn a_pair_has_a_plan(rt: HostRuntime) -> Result<(), Fail> {
    let program = answer(rt.alloc(), 2)??;
    assert_eq!(rt; program.instrs().len(), 3);
    Ok(())
}

/// How many instructions the tiny card's plan has for the pairs of qubits 0 and 1 and of 3 and 2, with a fence between
/// or not.
fn lines(alloc: Global, fenced: bool) -> Result<usize, Fail> {
    let mut ops = Vec::new(alloc);
    ops.push(Op::Two { a: 0, b: 1 })?;
    if fenced {
        ops.push(Op::Fence)?;
    }
    ops.push(Op::Two { a: 3, b: 2 })?;
    let circuit = Circuit::new(alloc, 4, 0, List::of(ops))?;
    let card = Card::tiny(alloc)?;
    Ok(compile(alloc, &card, &circuit)?.instrs().len())
}

#[test]
fn pairs_share_a_pulse(rt: HostRuntime) -> Result<(), Fail> {
    // Homes, the arrivals, one pulse.
    assert_eq!(rt; lines(rt.alloc(), false)?, 3);
    // Homes, the arrivals, a pulse, the returns, the arrivals, a pulse.
    assert_eq!(rt; lines(rt.alloc(), true)?, 6);
    Ok(())
}

#[test]
fn faults_have_texts(rt: HostRuntime) -> Result<(), Fail> {
    let fault = PlanFault::TooManyQubits {
        qubits: 5,
        traps: 4,
    };
    assert_eq!(rt;
        format!(in rt.alloc(); "{fault}")?.as_str(),
        "too many qubits: 5 for 4 traps"
    );
    assert_eq!(rt;
        format!(in rt.alloc(); "{}", PlanFault::Memory)?.as_str(),
        "out of memory"
    );
    Ok(())
}
