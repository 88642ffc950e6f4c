//! The least of numbers of which any may be missing.

ghost use Rattle.std.specs.Prelude.{◌≡◌, Option, Some, None};
ghost use Rattle.zair_machine.specs.Sites.{IsEarlierOf};
ghost use Rattle.zair_state.specs.Least.{lesser_of, number_if, first_beam_of};

use zair_state::{Axis, BeamId};

/// The lesser of two numbers.
pub(crate) fn lesser(a: Option<u32>, b: Option<u32>) -> Option<u32>
    ensures { result ≡ lesser_of a b }
{
    match (a, b) {
        (None, _) => b,
        (Some(_), None) => a,
        (Some(n), Some(m)) => Some(n.min(m)),
    }
}

/// The lesser of two ids.
pub(crate) fn lesser_id(a: Option<u8>, b: Option<u8>) -> Option<u8>
    ensures { result ≡ lesser_of a b }
{
    match (a, b) {
        (None, _) => b,
        (Some(_), None) => a,
        (Some(n), Some(m)) => Some(n.min(m)),
    }
}

/// The lesser of a number that may be missing and one that counts where a test is passed.
pub(crate) fn lesser_if(least: Option<u32>, counts: bool, n: u32) -> Option<u32>
    ensures { result ≡ lesser_of least (number_if counts n) }
{
    if counts {
        lesser(least, Some(n))
    } else {
        lesser(least, None)
    }
}

/// The lesser of an id that may be missing and one that counts where a test is passed.
pub(crate) fn lesser_id_if(least: Option<u8>, counts: bool, n: u8) -> Option<u8>
    ensures { result ≡ lesser_of least (number_if counts n) }
{
    if counts {
        lesser_id(least, Some(n))
    } else {
        lesser_id(least, None)
    }
}

/// The pair that comes first: by its first number, and then by its second.
pub(crate) fn earlier(a: Option<(u32, u32)>, b: Option<(u32, u32)>) -> Option<(u32, u32)>
    ensures { IsEarlierOf a b result }
{
    match (a, b) {
        (None, _) => b,
        (Some(_), None) => a,
        (Some(p), Some(q)) => {
            if p.0 < q.0 || (p.0 == q.0 && p.1 <= q.1) {
                a
            } else {
                b
            }
        }
    }
}

/// The row of an id, else the column of an id, else none.
pub(crate) fn first_beam(row: Option<u8>, column: Option<u8>) -> Option<BeamId>
    ensures { result ≡ first_beam_of row column }
{
    match (row, column) {
        (Some(id), _) => Some(BeamId {
            axis: Axis::Row,
            id,
        }),
        (None, Some(id)) => Some(BeamId {
            axis: Axis::Column,
            id,
        }),
        (None, None) => None,
    }
}
