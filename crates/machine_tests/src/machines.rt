//! Tests of zair_machine.
use std::alloc::Global;
use std::test::Fail;
use zac_arch::{Card, TrapId};
use zac_gates::List;
use zair_form::{Beam, Caught, Step};
use zair_machine::{Axis, BeamId, Machine, MachineFault, NewFault};

/// The first AOD catches the atom of qubit 0 in the tiny card's trap 0.
fn catch(alloc: Global) -> Result<Step, Fail> {
    let beam = Beam { id: 0, at: 0 };
    let atom = Caught {
        q: 0,
        row: 0,
        column: 0,
    };
    Ok(Step::Activate {
        aod: 0,
        rows: List::of(vec![in alloc; beam]?),
        columns: List::of(vec![in alloc; beam]?),
        atoms: List::of(vec![in alloc; atom]?),
    })
}

#[test]
fn steps_change_a_machine(rt: HostRuntime) -> Result<(), Fail> {
    let card = Card::tiny(rt.alloc())?;
    let mut machine = Machine::new(rt.alloc(), &card, &[TrapId(0), TrapId(1)])?;
    let catch = catch(rt.alloc())?;
    assert_eq!(rt; machine.step(&catch), Ok(()));
    let pulse = Step::Pulse {
        pairs: List::of(Vec::new(rt.alloc())),
    };
    assert_eq!(rt; machine.step(&pulse), Ok(()));
    let beam = BeamId {
        axis: Axis::Row,
        id: 0,
    };
    assert_eq!(rt; machine.step(&catch), Err(MachineFault::Busy { beam }));
    Ok(())
}

#[test]
fn homes_are_apart(rt: HostRuntime) -> Result<(), Fail> {
    let card = Card::tiny(rt.alloc())?;
    match Machine::new(rt.alloc(), &card, &[TrapId(2), TrapId(1), TrapId(2)]) {
        Ok(_) => assert!(rt; false, "two qubits have one home"),
        Err(fault) => assert_eq!(rt; fault, NewFault::Home { q: 2 }),
    }
    Ok(())
}
