//! What is read of statements and of expressions, and nesting without a limit.

use qasm_lex::lex;
use qasm_parse::{Function, Node, Stmt, statement};
use std::alloc::{AllocError, Global};
use std::test::Fail;

/// The statement at place 1 of a source, and the place behind it.
fn second(alloc: Global, source: &[u8]) -> Option<(Stmt, u32)> {
    if source.len() > 1_000_000 {
        return None;
    }
    let tokens = lex(alloc, source).ok()?;
    if tokens.all().len() < 2 {
        return None;
    }
    statement(alloc, source, &tokens, 1).ok()
}

/// The name of a statement's form, and the statement's offset.
fn heading(stmt: &Stmt) -> (&str, u32) {
    match stmt {
        Stmt::Version { number: _, at } => ("version", *at),
        Stmt::Include { name: _, at } => ("include", *at),
        Stmt::Qreg {
            name: _,
            size: _,
            at,
        } => ("qreg", *at),
        Stmt::Creg {
            name: _,
            size: _,
            at,
        } => ("creg", *at),
        Stmt::Gate {
            name: _,
            params: _,
            args: _,
            body: _,
            at,
        } => ("gate", *at),
        Stmt::Opaque {
            name: _,
            params: _,
            args: _,
            at,
        } => ("opaque", *at),
        Stmt::Call { call } => ("call", call.at),
        Stmt::Measure {
            from: _,
            into: _,
            at,
        } => ("measure", *at),
        Stmt::Reset { arg: _, at } => ("reset", *at),
        Stmt::Barrier { args: _, at } => ("barrier", *at),
        Stmt::If { at } => ("if", *at),
    }
}

#[test]
fn tells_statements_apart(rt: HostRuntime) -> Result<(), Fail> {
    // (source, form, offset, place behind it)
    let rows: [(&[u8], &str, u32, u32); 12] = [
        (b";include \"a\";", "include", 9, 4),
        (b"; qreg q[2];", "qreg", 7, 7),
        (b";creg c[0];c", "creg", 6, 7),
        (b";gate g(t,u) a { U(t,u,0) a; }", "gate", 6, 21),
        (b";opaque o(t) a,b;", "opaque", 8, 10),
        (b";U(0,0,0) q;", "call", 1, 11),
        (b";CX q[0],q[1];", "call", 1, 12),
        (b";h q; h r;", "call", 1, 4),
        (b";measure q[0] -> c[0];", "measure", 1, 12),
        (b";reset q;", "reset", 1, 4),
        (b";barrier q[0],r;", "barrier", 1, 9),
        (b";if(c==1) CX q,r;", "if", 1, 12),
    ];
    for (source, form, at, next) in rows {
        let (stmt, found) = second(rt.alloc(), source).ok_or("no statement")?;
        assert!(rt; heading(&stmt) == (form, at) && found == next, "{source:?}");
    }
    Ok(())
}

/// The word of a function.
fn word(function: Function) -> &'static [u8] {
    match function {
        Function::Sin => b"sin".as_slice(),
        Function::Cos => b"cos".as_slice(),
        Function::Tan => b"tan".as_slice(),
        Function::Exp => b"exp".as_slice(),
        Function::Ln => b"ln".as_slice(),
        Function::Sqrt => b"sqrt".as_slice(),
    }
}

/// A node's bytes: a number's, a name's or an operator's, where `~` is the minus before an operand.
fn bytes_of(node: &Node) -> &[u8] {
    match node {
        Node::Number { text } => text.as_slice(),
        Node::Name { name, at: _ } => name.as_slice(),
        Node::Apply { function } => word(*function),
        Node::Pi => b"pi".as_slice(),
        Node::Negate => b"~".as_slice(),
        Node::Plus => b"+".as_slice(),
        Node::Minus => b"-".as_slice(),
        Node::Times => b"*".as_slice(),
        Node::Over => b"/".as_slice(),
        Node::Power => b"^".as_slice(),
    }
}

/// The first angle of the call at place 1, in postfix order, with a blank behind each node.
fn first_angle(alloc: Global, source: &[u8]) -> Result<Vec<u8>, AllocError> {
    let mut text = Vec::new(alloc);
    if let Some((Stmt::Call { call }, _)) = second(alloc, source) {
        for angle in call.exprs.as_slice().iter().take(1) {
            for node in angle.as_slice() {
                text.extend_from_slice(bytes_of(node))?;
                text.push(b' ')?;
            }
        }
    }
    Ok(text)
}

#[test]
fn groups_expressions(rt: HostRuntime) -> Result<(), Fail> {
    let rows: [(&[u8], &[u8]); 9] = [
        (b";U(-pi/2+0.5e1*2) q;", b"pi ~ 2 / 0.5e1 2 * + "),
        (b";U(2^-1^2) q;", b"2 1 2 ^ ~ ^ "),
        (b";U(-a^b) q;", b"a b ^ ~ "),
        (b";U(a-b-c) q;", b"a b - c - "),
        (b";U(a/b*c) q;", b"a b / c * "),
        (b";U(a+b*c) q;", b"a b c * + "),
        (b";U((a+b)*c) q;", b"a b + c * "),
        (b";U(a^b^c) q;", b"a b c ^ ^ "),
        (b";U(--sin(a)*sqrt(2)) q;", b"a sin ~ ~ 2 sqrt * "),
    ];
    for (source, nodes) in rows {
        let found = first_angle(rt.alloc(), source)?;
        assert!(rt; found.as_slice() == nodes, "{source:?}");
    }
    Ok(())
}

/// A call with one angle, a name in as many signs.
fn nested(alloc: Global, open: u8, close: u8, depth: usize) -> Result<Vec<u8>, AllocError> {
    let mut source = b";U(".to_vec(alloc)?;
    source.extend_from_slice(vec![in alloc; open; depth]?.as_slice())?;
    source.push(b'a')?;
    source.extend_from_slice(vec![in alloc; close; depth]?.as_slice())?;
    source.extend_from_slice(b") q;".as_slice())?;
    Ok(source)
}

#[test]
fn reads_deep_nesting(rt: HostRuntime) -> Result<(), Fail> {
    for (open, close, places) in [(b'(', b')', 120_007), (b'-', b' ', 60_007)] {
        let source = nested(rt.alloc(), open, close, 60_000)?;
        let read = second(rt.alloc(), source.as_slice());
        let (_, next) = read.ok_or("no statement")?;
        assert_eq!(rt; next, places);
    }
    Ok(())
}
