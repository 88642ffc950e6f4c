//! The header that an include of `qelib1.inc` stands for.

ghost use Rattle.std.specs.Prelude.{◌≡◌, ℕ, ◌<◌, length, IfOk};
ghost use Rattle.qasm_lex.specs.Cuts.{AreTokensOf};
ghost use Rattle.qasm_form.specs.Statements.{IsStatement};
ghost use Rattle.qasm_form.specs.Symbols.{lexemes_of};
ghost use Rattle.qasm_form.specs.declared.stmt.Stmt.{Stmt};
ghost use Rattle.qasm_names.specs.Environment.{enter_all, no_names};
ghost use Rattle.qasm_names.specs.Header.{IsHeader, header_text};

use crate::laws::one_header;
use qasm_lex::laws::tokens_or_one_fault;
use qasm_lex::{LexFault, Tokens, lex};
use qasm_names::Names;
use qasm_parse::laws::statement_or_one_fault;
use qasm_parse::{Stmt, SyntaxFault, statement};
use std::alloc::Global;
use zac_gates::Memory;

/// The text of the header, behind the version that opens each source.
const TEXT: &[u8] = b"OPENQASM 2.0;\n\
gate u3(theta,phi,lambda) q { U(theta,phi,lambda) q; }\n\
gate u2(phi,lambda) q { U(pi/2,phi,lambda) q; }\n\
gate u1(lambda) q { U(0,0,lambda) q; }\n\
gate cx c,t { CX c,t; }\n\
gate id a { U(0,0,0) a; }\n\
gate x a { u3(pi,0,pi) a; }\n\
gate y a { u3(pi,pi/2,pi/2) a; }\n\
gate z a { u1(pi) a; }\n\
gate h a { u2(0,pi) a; }\n\
gate s a { u1(pi/2) a; }\n\
gate sdg a { u1(-pi/2) a; }\n\
gate t a { u1(pi/4) a; }\n\
gate tdg a { u1(-pi/4) a; }\n\
gate rx(theta) a { u3(theta,-pi/2,pi/2) a; }\n\
gate ry(theta) a { u3(theta,0,0) a; }\n\
gate rz(phi) a { u1(phi) a; }\n\
gate cy a,b { sdg b; cx a,b; s b; }\n\
gate ch a,b { h b; sdg b; cx a,b; h b; t b; cx a,b; t b; h b; s b; x b; s a; }\n\
gate ccx a,b,c { h c; cx b,c; tdg c; cx a,c; t c; cx b,c; tdg c; cx a,c; t b; t c; h c; cx a,b; t a; tdg b; cx a,b; }\n\
gate crz(lambda) a,b { u1(lambda/2) b; cx a,b; u1(-lambda/2) b; cx a,b; }\n\
gate cu1(lambda) a,b { u1(lambda/2) a; cx a,b; u1(-lambda/2) b; cx a,b; u1(lambda/2) b; }\n\
gate cu3(theta,phi,lambda) c,t { u1((lambda-phi)/2) t; cx c,t; u3(-theta/2,0,-(phi+lambda)/2) t; cx c,t; u3(theta/2,phi,0) t; }\n\
gate u(theta,phi,lambda) q { U(theta,phi,lambda) q; }\n\
gate p(lambda) q { U(0,0,lambda) q; }\n\
gate sx a { sdg a; h a; sdg a; }\n\
gate sxdg a { s a; h a; s a; }\n\
gate swap a,b { cx a,b; cx b,a; cx a,b; }\n\
gate cswap a,b,c { cx c,b; ccx a,b,c; cx c,b; }\n\
gate cp(lambda) a,b { p(lambda/2) a; cx a,b; p(-lambda/2) b; cx a,b; p(lambda/2) b; }\n\
gate crx(lambda) a,b { u1(pi/2) b; cx a,b; u3(-lambda/2,0,0) b; cx a,b; u3(lambda/2,-pi/2,0) b; }\n\
gate cry(lambda) a,b { ry(lambda/2) b; cx a,b; ry(-lambda/2) b; cx a,b; }\n\
gate rzz(theta) a,b { cx a,b; rz(theta) b; cx a,b; }\n\
gate rxx(theta) a,b { h a; h b; cx a,b; rz(theta) b; cx a,b; h b; h a; }\n";

/// The text of the header.
pub fn header_text() -> &'static [u8]
    ensures { result.now ≡ header_text }
{
    TEXT
}

/// The statement of the header at a place, and the place behind it. One stands there.
fn statement_of(
    alloc: Global,
    source: &[u8],
    tokens: &Tokens,
    place: u32,
) -> Result<(Stmt, u32), Memory>
    requires lexed { AreTokensOf source.now tokens.now }
    requires place { place < length tokens.now.tokens }
    requires stands { (s : Stmt) × (next : ℕ) × IsStatement (lexemes_of source.now tokens.now.tokens) place s next }
    ensures { IfOk result (λ r. IsStatement (lexemes_of source.now tokens.now.tokens) place r.0 r.1) }
{
    match statement(alloc, source, tokens, place) {
        Ok(read) => Ok(read),
        Err(fault) => match fault {
            SyntaxFault::Memory => Err(Memory),
            SyntaxFault::At { .. } => unreachable!(),
        },
    }
}

/// The header's statements, entered one behind the other.
fn read_statements(alloc: Global, source: &[u8], tokens: &Tokens) -> Result<Names, Memory>
    requires text { source.now ≡ header_text }
    requires lexed { AreTokensOf source.now tokens.now }
    ensures is_header { IfOk result (λ names. IsHeader names.before) }
    ensures means { IfOk result (λ names. names.environment ≡ enter_all no_names names.before) }
{
    one_header();
    tokens_or_one_fault();
    statement_or_one_fault();
    let mut names = Names::new(alloc);
    let mut place: u32 = 0;
    while (place as usize) < tokens.all().len() {
        let (stmt, next) = statement_of(alloc, source, tokens, place)?;
        names.enter(stmt)?;
        place = next;
    }
    Ok(names)
}

/// The header's statements, with what names stand for behind them. `cz` isn't among the names.
pub(crate) fn read_header(alloc: Global) -> Result<Names, Memory>
    ensures is_header { IfOk result (λ names. IsHeader names.before) }
    ensures means { IfOk result (λ names. names.environment ≡ enter_all no_names names.before) }
{
    one_header();
    let source = header_text();
    match lex(alloc, source) {
        Ok(tokens) => read_statements(alloc, source, &tokens),
        Err(fault) => match fault {
            LexFault::Memory => Err(Memory),
            LexFault::At { .. } => unreachable!(),
        },
    }
}
