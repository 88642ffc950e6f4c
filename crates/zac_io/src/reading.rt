//! Reading a whole file.
ghost use Rattle.std.specs.Prelude.{◌≡◌, ◌+◌, ◌^◌, ◌<◌, ◌≤◌, [], ◌++◌, length, take, drop, vec_len, IsTrue, IfOk, OnOk, OnSome, IsErrOf};
ghost use Rattle.zac_io.specs.Outside.{HasCause, HasReadCause, RoseWhere, is_missing, Holds, IsLonger, Gives, TakesAtMost, UnlessFailed};

use crate::{Failed, Shelf};
use std::alloc::{AllocError, Global};
use thiserror::Error;
use zac_gates::{Bytes, List};

/// Why a file was not read whole.
#[derive(Clone, Copy, Debug, PartialEq, Eq, Error)]
pub enum ReadFault {
    /// There was no memory.
    #[error("out of memory")]
    Memory,
    /// A call on the shelf failed.
    #[error("read fault")]
    Failed,
    /// The file has more bytes than were allowed.
    #[error("too long")]
    TooLong,
}

impl From<AllocError> for ReadFault {
    ghost use Rattle.std.specs.Prelude.{◌≡◌};
    ghost use Rattle.zac_io.specs.declared.reading.ReadFault.TheVariants.{Memory};

    ghost from_gives = { λ _ e. e ≡ Memory };

    fn from(_error: AllocError) -> ReadFault {
        ReadFault::Memory
    }
}

impl From<Failed> for ReadFault {
    ghost use Rattle.std.specs.Prelude.{◌≡◌};
    ghost use Rattle.zac_io.specs.declared.reading.ReadFault.TheVariants.{Failed as CallFailed};

    ghost from_gives = { λ _ e. e ≡ CallFailed };

    fn from(_error: Failed) -> ReadFault {
        ReadFault::Failed
    }
}

/// Reads the whole file of this name, of at most `max` bytes.
///
/// It picks this name alone and reads at most `max + 1` bytes. `Failed` comes only where the shelf's faults rose,
/// and at every other answer they are as they were. `TooLong` comes where no call failed and more than `max` bytes
/// came: where the shelf tells its files, exactly where the file has more than `max`. The strays rise exactly where
/// the shelf tells its files and has none of this name, and then the answer is `Failed`.
pub fn read_all<S: Shelf>(
    alloc: Global,
    shelf: &mut S,
    name: &str,
    max: u32,
) -> Result<Bytes, ReadFault>
    ensures whole { IfOk result (Holds (S.files shelf.old) name.now) }
    ensures at_most { IfOk result (λ bytes. length bytes ≤ max) }
    ensures too_long { IsErrOf result ReadFault.TooLong → IsLonger (S.files shelf.old) name.now max }
    ensures taken { UnlessFailed result (TakesAtMost (S.files shelf.old) name.now (max + 1) (S.left shelf.new)) }
    ensures cause { HasReadCause result (S.faults shelf.old) (S.faults shelf.new) }
    ensures missing { IsTrue (is_missing (S.files shelf.old) name.now) → IsErrOf result ReadFault.Failed }
    ensures stray { RoseWhere (is_missing (S.files shelf.old) name.now) (S.strays shelf.old) (S.strays shelf.new) }
    ensures same_files { S.files shelf.new ≡ S.files shelf.old }
{
    shelf.pick(name)?;
    let limit = max as usize + 1;
    let bytes = read_left(alloc, shelf, limit)?;
    if bytes.len() == limit {
        return Err(ReadFault::TooLong);
    }
    Ok(List::of(bytes))
}

// Reads what is left of the picked file, up to `limit` bytes.
fn read_left<S: Shelf>(alloc: Global, shelf: &mut S, limit: usize) -> Result<Vec<u8>, ReadFault>
    requires { limit ≤ 2 ^ 32 }
    ensures bytes { IfOk result (λ bytes. OnSome (S.files shelf.old) (S.left shelf.old ≡ bytes.items ++ S.left shelf.new)) }
    ensures at_most { IfOk result (λ bytes. vec_len bytes ≤ limit) }
    ensures end { IfOk result (λ bytes. vec_len bytes < limit → OnSome (S.files shelf.old) (S.left shelf.new ≡ [])) }
    ensures taken { UnlessFailed result (OnSome (S.files shelf.old) (length (S.left shelf.old) ≤ limit + length (S.left shelf.new))) }
    ensures short { IsErrOf result ReadFault.TooLong → ⊥ }
    ensures cause { HasReadCause result (S.faults shelf.old) (S.faults shelf.new) }
    ensures same_files { S.files shelf.new ≡ S.files shelf.old }
    ensures same_strays { S.strays shelf.new ≡ S.strays shelf.old }
{
    let mut buffer = Vec::new(alloc);
    let mut filled = 0;
    while filled < limit {
        make_room(&mut buffer, filled, limit)?;
        let count = read_behind(shelf, &mut buffer, filled)?;
        if count == 0 {
            buffer.truncate(filled);
            return Ok(buffer);
        }
        filled += count;
    }
    buffer.truncate(filled);
    Ok(buffer)
}

// Makes room behind the first `filled` bytes, which stay. A buffer that is full becomes twice as long, at least
// 4,096 bytes and at most `limit`.
fn make_room(buffer: &mut Vec<u8>, filled: usize, limit: usize) -> Result<(), AllocError>
    requires more { filled < limit }
    requires small { limit ≤ 2 ^ 32 }
    requires within { filled ≤ vec_len buffer.old }
    requires at_most { vec_len buffer.old ≤ limit }
    ensures room { OnOk result (filled < vec_len buffer.new) }
    ensures at_most { OnOk result (vec_len buffer.new ≤ limit) }
    ensures front { OnOk result (take filled buffer.new.items ≡ take filled buffer.old.items) }
{
    if filled < buffer.len() {
        return Ok(());
    }
    let room = (buffer.len() * 2).max(4096).min(limit);
    buffer.resize(room, 0)
}

// Reads into the buffer behind its first `filled` bytes, which stay.
fn read_behind<S: Shelf>(shelf: &mut S, buffer: &mut [u8], filled: usize) -> Result<usize, Failed>
    requires { filled ≤ length buffer.old }
    ensures front { take filled buffer.new ≡ take filled buffer.old }
    ensures bytes { IfOk result (Gives (S.files shelf.old) (S.left shelf.old) (S.left shelf.new) (drop filled buffer.new)) }
    ensures fits { IfOk result (λ count. filled + count ≤ length buffer.new) }
    ensures cause { HasCause result (S.faults shelf.old) (S.faults shelf.new) }
    ensures same_files { S.files shelf.new ≡ S.files shelf.old }
    ensures same_strays { S.strays shelf.new ≡ S.strays shelf.old }
{
    shelf.read(&mut buffer[filled..])
}
