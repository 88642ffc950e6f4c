//! Expressions, read with a stack of the parts that are still to be read, so that nesting has no limit.

ghost use Rattle.std.specs.Prelude.{◌≡◌, [], ◌∷◌, ◌++◌, reverse, IfOk, OnOk, IfErr, MatchOption};
ghost use Rattle.qasm_form.specs.Expressions.{leaf_of, node_of};
ghost use Rattle.qasm_parse.specs.Running.{advance, atom_start, atom_step, factor_step, leaf_step, run};
ghost use Rattle.qasm_parse.specs.Gives.{Gives, seen};
ghost use Rattle.qasm_parse.specs.Moves.{Goes, IsRaised, IsSigned, Moves};
ghost use Rattle.qasm_parse.specs.Follows.{follows};
ghost use Rattle.qasm_form.specs.Numbers.{AreSpelt};
ghost use Rattle.qasm_parse.specs.Readings.{expr_then};
ghost use Rattle.qasm_form.specs.Symbols.{lexeme_of, lexemes_of};

use crate::cursor::{Read, first, symbol_at, word};
use crate::fault::SyntaxFault;
use crate::opening::{Follow, follows};
use crate::part::{AtomStart, atom_start, product_of, sum_of};
use crate::symbol::same_symbol;
use qasm_form::part::{Operator, Part};
use qasm_form::{Expr, Function, Node, Symbol};
use qasm_lex::Token;
use std::alloc::Global;
use zac_gates::List;

/// What a token does to the parts of an expression.
#[derive(Clone, Copy)]
pub enum Move {
    /// It is taken.
    Taken,
    /// No part can begin with it.
    Refused,
    /// All parts are empty before it.
    Passed,
}

/// The node of an operator.
fn node_of(operator: Operator) -> Node
    ensures { result ≡ node_of operator }
{
    match operator {
        Operator::Negate => Node::Negate,
        Operator::Apply(function) => Node::Apply { function },
        Operator::Plus => Node::Plus,
        Operator::Minus => Node::Minus,
        Operator::Times => Node::Times,
        Operator::Over => Node::Over,
        Operator::Power => Node::Power,
    }
}

/// A part before the others.
fn push(parts: &mut Vec<Part>, part: Part) -> Result<(), SyntaxFault>
    ensures pushed { OnOk result (reverse parts.new.items ≡ part ∷ reverse parts.old.items) }
    ensures only_memory { IfErr result (λ e. e ≡ SyntaxFault.Memory) }
{
    parts.push(part)?;
    Ok(())
}

/// Two parts before the others, the second of them first.
fn push_two(parts: &mut Vec<Part>, below: Part, above: Part) -> Result<(), SyntaxFault>
    ensures pushed { OnOk result (reverse parts.new.items ≡ above ∷ below ∷ reverse parts.old.items) }
    ensures only_memory { IfErr result (λ e. e ≡ SyntaxFault.Memory) }
{
    push(parts, below)?;
    push(parts, above)
}

/// The next part, if there is one.
fn pop(parts: &mut Vec<Part>) -> Option<Part>
    ensures { MatchOption result (reverse parts.old.items ≡ []) (λ p. reverse parts.old.items ≡ p ∷ reverse parts.new.items) }
{
    parts.pop()
}

/// The node of a number, of pi or of a name, where the token is one.
fn leaf_node(alloc: Global, source: &[u8], token: Token) -> Result<Option<Node>, SyntaxFault>
    ensures node { IfOk result (λ n. n ≡ leaf_of (lexeme_of source.now token)) }
    ensures only_memory { IfErr result (λ e. e ≡ SyntaxFault.Memory) }
{
    match symbol_at(source, token) {
        Symbol::Whole => Ok(Some(Node::Number {
            text: word(alloc, source, token)?,
        })),
        Symbol::Real => Ok(Some(Node::Number {
            text: word(alloc, source, token)?,
        })),
        Symbol::Pi => Ok(Some(Node::Pi)),
        Symbol::Identifier => Ok(Some(Node::Name {
            name: word(alloc, source, token)?,
            at: token.from,
        })),
        _ => Ok(None),
    }
}

/// A number, pi or a name.
fn leaf(
    alloc: Global,
    source: &[u8],
    token: Token,
    parts: &mut Vec<Part>,
    nodes: &mut Vec<Node>,
) -> Result<Move, SyntaxFault>
    ensures moves { IfOk result (λ m. Moves m parts.new.items nodes.old.items nodes.new.items
        (leaf_step (leaf_of (lexeme_of source.now token)) (reverse parts.old.items))) }
    ensures only_memory { IfErr result (λ e. e ≡ SyntaxFault.Memory) }
{
    let _ = &parts;
    match leaf_node(alloc, source, token)? {
        None => Ok(Move::Refused),
        Some(node) => {
            nodes.push(node)?;
            Ok(Move::Taken)
        }
    }
}

/// A number, a name, or something in parentheses.
fn atom(
    alloc: Global,
    source: &[u8],
    token: Token,
    parts: &mut Vec<Part>,
    nodes: &mut Vec<Node>,
) -> Result<Move, SyntaxFault>
    ensures moves { IfOk result (λ m. Moves m parts.new.items nodes.old.items nodes.new.items
        (atom_step (atom_start (lexeme_of source.now token).symbol) (lexeme_of source.now token)
        (reverse parts.old.items))) }
    ensures only_memory { IfErr result (λ e. e ≡ SyntaxFault.Memory) }
{
    match atom_start(symbol_at(source, token)) {
        AtomStart::Leaf => leaf(alloc, source, token, parts, nodes),
        AtomStart::Paren => {
            push_two(parts, Part::Token(Symbol::CloseParen), Part::Expr)?;
            Ok(Move::Taken)
        }
        AtomStart::Call(function) => {
            let write = Part::Write(Operator::Apply(function));
            push_two(parts, write, Part::Token(Symbol::CloseParen))?;
            push_two(parts, Part::Expr, Part::Token(Symbol::OpenParen))?;
            Ok(Move::Taken)
        }
        AtomStart::Nothing => Ok(Move::Refused),
    }
}

/// A factor, perhaps with minus signs before it.
fn factor(
    alloc: Global,
    source: &[u8],
    token: Token,
    parts: &mut Vec<Part>,
    nodes: &mut Vec<Node>,
) -> Result<Move, SyntaxFault>
    ensures moves { IfOk result (λ m. Moves m parts.new.items nodes.old.items nodes.new.items
        (factor_step (lexeme_of source.now token) (reverse parts.old.items))) }
    ensures only_memory { IfErr result (λ e. e ≡ SyntaxFault.Memory) }
{
    if same_symbol(symbol_at(source, token), Symbol::Minus) {
        push_two(parts, Part::Write(Operator::Negate), Part::Factor)?;
        Ok(Move::Taken)
    } else {
        push(parts, Part::Exponent)?;
        atom(alloc, source, token, parts, nodes)
    }
}

/// A sign between operands and the operand behind it, or nothing where there is no sign.
fn signed(
    parts: &mut Vec<Part>,
    operator: Option<Operator>,
    operand: Part,
    signs: Part,
) -> Result<Option<Move>, SyntaxFault>
    ensures signed { IfOk result (λ o. IsSigned o operator operand signs (reverse parts.old.items) (reverse parts.new.items)) }
    ensures only_memory { IfErr result (λ e. e ≡ SyntaxFault.Memory) }
{
    match operator {
        None => Ok(None),
        Some(operator) => {
            push(parts, signs)?;
            push_two(parts, Part::Write(operator), operand)?;
            Ok(Some(Move::Taken))
        }
    }
}

/// What a token does to the next part, which was taken off the others: a move, or nothing where the part is empty.
fn step(
    alloc: Global,
    source: &[u8],
    token: Token,
    part: Part,
    parts: &mut Vec<Part>,
    nodes: &mut Vec<Node>,
) -> Result<Option<Move>, SyntaxFault>
    ensures goes { IfOk result (λ o. Goes o parts.old.items parts.new.items nodes.old.items nodes.new.items
        (lexeme_of source.now token) (advance (part ∷ reverse parts.old.items) (lexeme_of source.now token))) }
    ensures only_memory { IfErr result (λ e. e ≡ SyntaxFault.Memory) }
{
    let symbol = symbol_at(source, token);
    match part {
        Part::Expr => {
            push_two(parts, Part::Terms, Part::Factors)?;
            Ok(Some(factor(alloc, source, token, parts, nodes)?))
        }
        Part::Terms => signed(parts, sum_of(symbol), Part::Term, Part::Terms),
        Part::Term => {
            push(parts, Part::Factors)?;
            Ok(Some(factor(alloc, source, token, parts, nodes)?))
        }
        Part::Factors => signed(parts, product_of(symbol), Part::Factor, Part::Factors),
        Part::Factor => Ok(Some(factor(alloc, source, token, parts, nodes)?)),
        Part::Power => {
            push(parts, Part::Exponent)?;
            Ok(Some(atom(alloc, source, token, parts, nodes)?))
        }
        Part::Exponent => exponent(parts, symbol),
        Part::Atom => Ok(Some(atom(alloc, source, token, parts, nodes)?)),
        Part::Leaf => Ok(Some(leaf(alloc, source, token, parts, nodes)?)),
        Part::Token(wanted) => {
            if same_symbol(symbol, wanted) {
                Ok(Some(Move::Taken))
            } else {
                Ok(Some(Move::Refused))
            }
        }
        Part::Write(operator) => {
            nodes.push(node_of(operator))?;
            Ok(None)
        }
    }
}

/// The sign of a power and the factor behind it, or nothing where there is no sign.
fn exponent(parts: &mut Vec<Part>, symbol: Symbol) -> Result<Option<Move>, SyntaxFault>
    ensures signed { IfOk result (λ o. IsRaised o symbol (reverse parts.old.items) (reverse parts.new.items)) }
    ensures only_memory { IfErr result (λ e. e ≡ SyntaxFault.Memory) }
{
    if same_symbol(symbol, Symbol::Power) {
        let exponent = Part::Factor;
        push(parts, Part::Write(Operator::Power))?;
        push(parts, exponent)?;
        Ok(Some(Move::Taken))
    } else {
        Ok(None)
    }
}

/// What a token does to the parts: those that are empty before it are passed over.
fn advance(
    alloc: Global,
    source: &[u8],
    token: Token,
    parts: &mut Vec<Part>,
    nodes: &mut Vec<Node>,
) -> Result<Move, SyntaxFault>
    ensures moves { IfOk result (λ m. Moves m parts.new.items nodes.old.items nodes.new.items
        (advance (reverse parts.old.items) (lexeme_of source.now token))) }
    ensures only_memory { IfErr result (λ e. e ≡ SyntaxFault.Memory) }
{
    while let Some(part) = pop(parts) {
        if let Some(made) = step(alloc, source, token, part, parts, nodes)? {
            return Ok(made);
        }
    }
    Ok(Move::Passed)
}

/// An expression and whether a further one follows.
#[tactic(auto, unfolding(crate::specs::Readings::expr_then))]
pub(crate) fn expr_then<'a>(
    alloc: Global,
    source: &[u8],
    end: u32,
    rest: &'a [Token],
    class: Follow,
) -> Read<'a, (Expr, bool)>
    requires { AreSpelt (lexemes_of source.now rest.now) }
    ensures { Gives (seen source.now) result (expr_then end class (lexemes_of source.now rest.now)) }
{
    let ((nodes, more), rest) = nodes_then(alloc, source, end, rest, class)?;
    Ok(((Expr { nodes }, more), rest))
}

/// The nodes of an expression and whether a further one follows.
fn nodes_then<'a>(
    alloc: Global,
    source: &[u8],
    end: u32,
    rest: &'a [Token],
    class: Follow,
) -> Read<'a, (List<Node>, bool)>
    ensures { Gives (seen source.now) result
        (run (follows class) end (Part.Expr ∷ []) [] (lexemes_of source.now rest.now)) }
{
    let mut parts = Vec::new(alloc);
    push(&mut parts, Part::Expr)?;
    let mut nodes = Vec::new(alloc);
    let mut left = rest;
    loop {
        let (token, others) = first(source, end, left)?;
        match advance(alloc, source, token, &mut parts, &mut nodes)? {
            Move::Taken => left = others,
            Move::Refused => return Err(SyntaxFault::At { at: token.from }),
            Move::Passed => {
                let Some(more) = follows(class, symbol_at(source, token)) else {
                    return Err(SyntaxFault::At { at: token.from });
                };
                return Ok(((List::of(nodes), more), others));
            }
        }
    }
}
