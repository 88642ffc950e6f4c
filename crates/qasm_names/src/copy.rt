//! Copies of parts of statements.

ghost use Rattle.std.specs.Prelude.{◌≡◌, IfOk};
ghost use Rattle.qasm_names.specs.Environment.{words_of};

use qasm_form::{Expr, Named};
use std::alloc::Global;
use zac_gates::{Bytes, List, Memory};

/// Copies of expressions.
pub(crate) fn copy_exprs(alloc: Global, exprs: &[Expr]) -> Result<List<Expr>, Memory>
    ensures { IfOk result (λ copy. copy ≡ exprs.now) }
{
    let mut copy = Vec::new(alloc);
    for expr in exprs {
        copy.push(expr.copy(alloc)?)?;
    }
    Ok(List::of(copy))
}

/// The words of names.
pub(crate) fn copy_words(alloc: Global, names: &[Named]) -> Result<List<Bytes>, Memory>
    ensures { IfOk result (λ words. words ≡ words_of names.now) }
{
    let mut copy = Vec::new(alloc);
    for name in names {
        copy.push(List::of(name.word.as_slice().to_vec(alloc)?))?;
    }
    Ok(List::of(copy))
}
