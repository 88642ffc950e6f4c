//! Tests of zair_form.
use std::test::Fail;
use zac_arch::TrapId;
use zac_gates::List;
use zair_form::{Act, Instr, Program};

#[test]
fn homes_alone_are_a_program(rt: HostRuntime) -> Result<(), Fail> {
    let homes = List::of(vec![in rt.alloc(); TrapId(2), TrapId(0)]?);
    let mut instrs = Vec::new(rt.alloc());
    instrs.push(Instr {
        begin: 0,
        end: 0,
        act: Act::Init { homes },
    })?;
    match Program::new(List::of(instrs)) {
        Some(program) => {
            assert_eq!(rt; program.instrs().len(), 1);
            assert_eq!(rt; program.homes(), [TrapId(2), TrapId(0)].as_slice());
        }
        None => assert!(rt; false, "it begins with its homes"),
    }
    Ok(())
}
