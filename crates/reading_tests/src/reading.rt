//! Tests of zair_read: a written program is read and written again, and the first wrong line of other texts is told.

use std::test::Fail;
use zac_gates::List;
use zac_io::MemSink;
use zair_form::Act;
use zair_read::{
    ProgramFault, TextFault, program_or_one_fault, read_line, read_program, written_reads_back,
};
use zair_text::write_program;

const TEXT: &str =
    "{\"type\":\"zair\",\"version\":1}\n{\"begin\":0,\"end\":0,\"homes\":[0,1],\"type\":\"init\"}\n{\"aod\":0,\"begin\":52000,\"end\":142453,\"steps\":[{\"atoms\":[[0,0,0],[1,0,1]],\"columns\":[[0,0],[1,30]],\"rows\":[[0,0]],\"step\":\"activate\"},{\"columns\":[[0,0],[1,20]],\"rows\":[[0,100]],\"step\":\"move\"},{\"atoms\":[[0,4],[1,5]],\"columns\":[0,1],\"rows\":[0],\"step\":\"deactivate\"}],\"type\":\"rearrangeJob\"}\n{\"gates\":0,\"jobs\":1,\"kept\":0,\"moved\":2,\"pairs\":0,\"pulses\":0,\"qubits\":2,\"reads\":0,\"time\":142453,\"type\":\"end\"}\n";

#[test]
fn a_written_program_is_read(rt: HostRuntime) -> Result<(), Fail> {
    written_reads_back();
    let alloc = rt.alloc();
    let program = read_program(alloc, TEXT.as_bytes())?;
    let mut sink = MemSink::new(alloc, 4096, List::of(Vec::new(alloc)))?;
    write_program(alloc, &program, &mut sink)?;
    assert_eq!(rt; sink.bytes(), TEXT.as_bytes());
    Ok(())
}

#[test]
fn other_texts_have_a_first_wrong_line(rt: HostRuntime) {
    program_or_one_fault();
    let table = [
        ("", 1),
        ("{\"type\":\"zair\",\"version\":1}", 1),
        ("{\"type\":\"zair\",\"version\":2}\n", 1),
        ("{\"version\":1,\"type\":\"zair\"}\n", 2),
        ("{\"type\":\"zair\",\"version\":1}\n\n", 2),
        (
            "{\"type\":\"zair\",\"version\":1}\n{\"begin\":0,\"end\":0,\"pairs\":[],\"type\":\"rydberg\"}\n",
            2,
        ),
        (
            "{\"type\":\"zair\",\"version\":1}\n{\"begin\":0,\"end\":0,\"homes\":[0],\"type\":\"init\"}\n{\"begin\":0,\"end\":0,\"homes\":[0],\"type\":\"init\"}\n",
            3,
        ),
        (
            "{\"type\":\"zair\",\"version\":1}\n{\"begin\":0,\"end\":0,\"homes\":[0],\"type\":\"init\"}\n{\"gates\":0,\"jobs\":0,\"kept\":0,\"moved\":0,\"pairs\":0,\"pulses\":0,\"qubits\":2,\"reads\":0,\"time\":0,\"type\":\"end\"}\n",
            3,
        ),
        (
            "{\"type\":\"zair\",\"version\":1}\n{\"begin\":0,\"end\":0,\"homes\":[0],\"type\":\"init\"}\n{\"gates\":0,\"jobs\":0,\"kept\":0,\"moved\":0,\"pairs\":0,\"pulses\":0,\"qubits\":1,\"reads\":0,\"time\":0,\"type\":\"end\"}",
            3,
        ),
        (
            "{\"type\":\"zair\",\"version\":1}\n{\"begin\":0,\"end\":0,\"homes\":[0],\"type\":\"init\"}\n{\"gates\":0,\"jobs\":0,\"kept\":0,\"moved\":0,\"pairs\":0,\"pulses\":0,\"qubits\":1,\"reads\":0,\"time\":0,\"type\":\"end\"}\n ",
            4,
        ),
    ];
    for (text, line) in table {
        match read_program(rt.alloc(), text.as_bytes()) {
            Ok(_) => assert!(rt; false),
            Err(e) => assert_eq!(rt; e, ProgramFault::Line { line }),
        }
    }
}

#[test]
fn blanks_and_another_order_of_keys_are_read(rt: HostRuntime) -> Result<(), Fail> {
    let line = " { \"type\":\"init\", \"homes\":[3],\"end\":7, \"begin\" : 5 } \r";
    let instr = read_line(rt.alloc(), line.as_bytes())?;
    assert_eq!(rt; (instr.begin, instr.end), (5, 7));
    assert!(rt; matches!(instr.act, Act::Init { .. }));
    Ok(())
}

#[test]
fn lines_of_no_instruction_are_refused(rt: HostRuntime) {
    let table = [
        "",
        "null",
        "{\"begin\":1,\"end\":0,\"homes\":[],\"type\":\"init\"}",
        "{\"begin\":0,\"end\":0.0,\"homes\":[],\"type\":\"init\"}",
        "{\"begin\":-0,\"end\":0,\"homes\":[],\"type\":\"init\"}",
        "{\"begin\":0,\"end\":0,\"homes\":[4294967296],\"type\":\"init\"}",
        "{\"begin\":0,\"end\":4000000000000000001,\"homes\":[],\"type\":\"init\"}",
        "{\"begin\":0,\"end\":0,\"homes\":[],\"kind\":0,\"type\":\"init\"}",
    ];
    for line in table {
        match read_line(rt.alloc(), line.as_bytes()) {
            Ok(_) => assert!(rt; false),
            Err(e) => assert_eq!(rt; e, TextFault::Refused),
        }
    }
}
