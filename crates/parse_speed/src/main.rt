//! Reads sources of OpenQASM 2.0, to measure how long their tokens and statements take. Each line of the input is a
//! number of calls; one more call has an angle behind as many minus signs and in as many parentheses.
#![tactic(auto)]

ghost use Rattle.qasm_lex.specs.Cuts.{AreTokensOf};

use qasm_lex::{Tokens, lex};
use qasm_parse::statement;
use std::alloc::{AllocError, Global};
use std::io;

/// The most bytes that a source may have.
const LIMIT: usize = 4_194_304;

/// Adds bytes so many times.
fn repeat(source: &mut Vec<u8>, bytes: &[u8], times: u32) -> Result<(), AllocError> {
    for _ in 0..times {
        source.extend_from_slice(bytes)?;
    }
    Ok(())
}

/// The version, a register, as many calls, and the one with a deep angle.
fn source(alloc: Global, calls: u32) -> Result<Vec<u8>, AllocError> {
    let mut source = Vec::new(alloc);
    source.extend_from_slice(b"OPENQASM 2.0;\nqreg q[4];\n".as_slice())?;
    repeat(&mut source, b"cx q[0],q[1];\n".as_slice(), calls)?;
    source.extend_from_slice(b"u(".as_slice())?;
    repeat(&mut source, b"-".as_slice(), calls)?;
    repeat(&mut source, b"(".as_slice(), calls)?;
    source.extend_from_slice(b"0".as_slice())?;
    repeat(&mut source, b")".as_slice(), calls)?;
    source.extend_from_slice(b") q[0];\n".as_slice())?;
    Ok(source)
}

/// How many statements stand in a source, up to the first fault.
fn count_statements(alloc: Global, source: &[u8], tokens: &Tokens) -> u32
    requires { AreTokensOf source.now tokens.now }
{
    let count = tokens.all().len();
    let mut place = 0u32;
    let mut statements = 0u32;
    for _ in 0..count {
        if count <= place as usize {
            break;
        }
        match statement(alloc, source, tokens, place) {
            Ok((_, next)) => place = next,
            Err(_) => break,
        }
        statements = statements.saturating_add(1);
    }
    statements
}

/// Reads a source of calls, and says how many tokens and statements it has.
fn report(rt: &(impl Print + AllocGlobal), calls: u32) -> io::Result<()> {
    let Ok(source) = source(rt.alloc(), calls) else {
        return println!(rt; "out of memory");
    };
    if source.len() > LIMIT {
        return println!(rt; "{calls} calls: too long");
    }
    let Ok(tokens) = lex(rt.alloc(), source.as_slice()) else {
        return println!(rt; "{calls} calls: no tokens");
    };
    let count = tokens.all().len();
    let statements = count_statements(rt.alloc(), source.as_slice(), &tokens);
    println!(rt; "{calls} calls and one: {count} tokens, {statements} statements")
}

fn main(rt: HostRuntime) -> io::Result<()> {
    for line in rt.lines(rt.alloc()) {
        let line = line?;
        if let Ok(calls) = line.as_str().parse::<u32>() {
            report(&rt, calls)?;
        }
    }
    Ok(())
}
