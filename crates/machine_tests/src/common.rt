//! What the tests share.
use std::alloc::Global;
use std::process::Abort;
use zac_gates::{Bytes, List};

/// These bytes.
pub(crate) fn bytes(rt: &impl Abort, alloc: Global, text: &[u8]) -> Bytes {
    List::of(Vec::from_slice(alloc, text).expect(rt, "memory"))
}
