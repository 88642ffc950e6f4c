//! The gates of the header, what calls are bound to, a scope behind a refused statement, and a program's native list.

ghost use Rattle.qasm_lex.specs.Cuts.{AreTokensOf};

use qasm_expand::expand;
use qasm_lex::{Tokens, lex};
use qasm_parse::{Stmt, statement};
use qasm_scope::{Scope, Target};
use std::alloc::{AllocError, Global};
use std::test::Fail;

/// Admits the statements of these tokens up to the first that is refused.
fn admit_all(alloc: Global, scope: &mut Scope, source: &[u8], tokens: &Tokens)
    requires { AreTokensOf source.now tokens.now }
{
    let mut place: u32 = 0;
    for _ in 0..100 {
        if tokens.all().len() <= place as usize {
            return;
        }
        let Ok((stmt, next)) = statement(alloc, source, tokens, place) else {
            return;
        };
        if scope.check(&stmt).is_err() || scope.admit(stmt).is_err() {
            return;
        }
        place = next;
    }
}

/// Admits the statements of a short source up to the first that is refused.
fn admit_source(alloc: Global, scope: &mut Scope, source: &[u8]) {
    if source.len() <= 300
        && let Ok(tokens) = lex(alloc, source)
    {
        admit_all(alloc, scope, source, &tokens);
    }
}

/// A letter for what a call is bound to: of the gates with a body, the header's `swap` is the gate 26, and the file's first
/// the gate 33.
fn letter(target: Target) -> u8 {
    match target {
        Target::U => b'U',
        Target::Cx => b'C',
        Target::Cz => b'Z',
        Target::Barrier => b'B',
        Target::Gate { place } => match place {
            26 => b's',
            33 => b'f',
            _ => b'?',
        },
    }
}

/// A letter for each statement that was admitted: for a call what it is bound to, and a point for another statement.
fn drawn(alloc: Global, scope: &Scope) -> Result<Vec<u8>, AllocError> {
    let mut picture = Vec::new(alloc);
    for (place, stmt) in scope.statements().iter().enumerate() {
        let one = match stmt {
            Stmt::Call { .. } => letter(scope.target(place)),
            _ => b'.',
        };
        picture.push(one)?;
    }
    Ok(picture)
}

// The file's gate `swap` stands between two calls of that name.
const BOUND: &[u8] = b"OPENQASM 2.0;include \"qelib1.inc\";qreg q[2];swap q[0],q[1];\
gate swap a,b { CX a,b; }swap q[0],q[1];cz q[0],q[1];CX q[0],q[1];U(0,0,0) q;barrier q;";

#[test]
fn binds_calls_where_they_stand(rt: HostRuntime) -> Result<(), Fail> {
    let mut scope = Scope::new(rt.alloc()).ok().ok_or("no scope")?;
    assert_eq!(rt; scope.gates().len(), 33);
    admit_source(rt.alloc(), &mut scope, BOUND);
    let picture = drawn(rt.alloc(), &scope)?;
    assert!(rt; picture.as_slice() == b"...s.fZCU.".as_slice());
    let circuit = expand(rt.alloc(), scope.program())
        .ok()
        .ok_or("no circuit")?;
    assert_eq!(rt; circuit.ops().len(), 19);
    Ok(())
}

// The register of the first source is refused, since the gate has its name.
#[test]
fn stays_as_it_was_behind_a_refused_statement(rt: HostRuntime) -> Result<(), Fail> {
    let mut scope = Scope::new(rt.alloc()).ok().ok_or("no scope")?;
    admit_source(
        rt.alloc(),
        &mut scope,
        b"OPENQASM 2.0;gate g a { }qreg g[2];",
    );
    admit_source(rt.alloc(), &mut scope, b"OPENQASM 2.0;qreg q[2];g q;");
    let picture = drawn(rt.alloc(), &scope)?;
    assert!(rt; picture.as_slice() == b"....f".as_slice());
    assert_eq!(rt; scope.gates().len(), 34);
    Ok(())
}
