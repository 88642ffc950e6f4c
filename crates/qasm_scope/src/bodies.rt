//! What is wrong with the names of a declaration and of the expressions in it.

ghost use Rattle.std.specs.Prelude.{◌↔◌, IsTrue, ◌++◌};
ghost use Rattle.std.specs.List.{Any, Contains};
ghost use Rattle.qasm_names.specs.Environment.{words_of};
ghost use Rattle.qasm_scope.specs.Judged.{ComesAgain, IsForeignAt};
ghost use Rattle.qasm_scope.specs.Least.{IsLeastOffset};
ghost use Rattle.qasm_names.specs.Refusals.{
  ComesTwice,
  UsesOther,
  UsesOtherIn,
  UsesUndeclared,
};

use crate::least::earlier;
use qasm_form::{Arg, BodyOp, Expr, Named, Node};

/// Whether the word is one of these names.
fn has_word(names: &[Named], word: &[u8]) -> bool
    ensures { IsTrue result ↔ Contains (words_of names.now) word.now }
{
    names.iter().any(|name| name.word.as_slice() == word)
}

/// Whether the word is one of the names of either list.
fn has_word_in(first: &[Named], second: &[Named], word: &[u8]) -> bool
    ensures { IsTrue result ↔ Contains (words_of (first.now ++ second.now)) word.now }
{
    has_word(first, word) || has_word(second, word)
}

/// The least offset of a name that stands earlier in its list or in the list before.
fn least_again(before: &[Named], names: &[Named]) -> Option<u32>
    ensures { IsLeastOffset (ComesAgain before.now names.now) result }
{
    let mut least = None;
    for (i, name) in names.iter().enumerate() {
        let again = has_word_in(before, &names[..i], name.word.as_slice());
        least = earlier(least, again.then_some(name.at));
    }
    least
}

/// The least offset of a name that stands earlier among the parameters and arguments of its
/// declaration.
pub(crate) fn least_twice(params: &[Named], args: &[Named]) -> Option<u32>
    ensures { IsLeastOffset (ComesTwice (params.now ++ args.now)) result }
{
    earlier(least_again(&[], params), least_again(params, args))
}

/// The offset of a node that is another name than these.
fn other_at(params: &[Named], node: &Node) -> Option<u32>
    ensures { IsLeastOffset (λ at. UsesOther (words_of params.now) at node.now) result }
{
    match node {
        Node::Name { name, at } => {
            let known = has_word(params, name.as_slice());
            (!known).then_some(*at)
        }
        _ => None,
    }
}

/// The least offset of another name than these in an expression.
fn least_other(params: &[Named], expr: &Expr) -> Option<u32>
    ensures { IsLeastOffset (λ at. Any (UsesOther (words_of params.now) at) expr.now) result }
{
    let mut least = None;
    for node in expr.as_slice() {
        least = earlier(least, other_at(params, node));
    }
    least
}

/// The least offset of another name than these in expressions.
pub(crate) fn least_other_in(params: &[Named], exprs: &[Expr]) -> Option<u32>
    ensures { IsLeastOffset (UsesOtherIn (words_of params.now) exprs.now) result }
{
    let mut least = None;
    for expr in exprs {
        least = earlier(least, least_other(params, expr));
    }
    least
}

/// The least offset of an argument that isn't one of these names.
fn least_foreign(names: &[Named], args: &[Arg]) -> Option<u32>
    ensures { IsLeastOffset (IsForeignAt (words_of names.now) args.now) result }
{
    let mut least = None;
    for arg in args {
        let known = has_word(names, arg.word.as_slice());
        least = earlier(least, (!known).then_some(arg.at));
    }
    least
}

/// The least offset of a name in a call that its gate doesn't have.
fn undeclared_at(params: &[Named], args: &[Named], call: &BodyOp) -> Option<u32>
    ensures { IsLeastOffset
        (λ at. UsesUndeclared (words_of params.now) (words_of args.now) at call.now)
        result }
{
    earlier(
        least_foreign(args, call.args.as_slice()),
        least_other_in(params, call.exprs.as_slice()),
    )
}

/// The least offset of a name in a body that its gate doesn't have.
pub(crate) fn least_undeclared(params: &[Named], args: &[Named], body: &[BodyOp]) -> Option<u32>
    ensures { IsLeastOffset
        (λ at. Any (UsesUndeclared (words_of params.now) (words_of args.now) at) body.now)
        result }
{
    let mut least = None;
    for call in body {
        least = earlier(least, undeclared_at(params, args, call));
    }
    least
}
