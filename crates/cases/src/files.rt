//! The files of a shelf.

use std::alloc::{AllocError, Global};
use std::str;
use zac_gates::{Bytes, List};

/// Adds bytes to the file of this name, which may be new.
pub fn add_bytes(
    alloc: Global,
    files: &mut Vec<(Vec<u8>, Vec<u8>)>,
    name: &str,
    bytes: &[u8],
) -> Result<(), AllocError> {
    for (known, held) in files.iter_mut() {
        if known.as_slice() == name.as_bytes() {
            return held.extend_from_slice(bytes);
        }
    }
    files.push((name.as_bytes().to_vec(alloc)?, bytes.to_vec(alloc)?))?;
    Ok(())
}

/// The lines of a text with these numbers, counted from 1, each with a line feed. None where a number is that of no line.
pub fn lines_of(alloc: Global, bytes: &[u8], numbers: &str) -> Result<Option<Vec<u8>>, AllocError> {
    let mut found = Vec::new(alloc);
    let Ok(text) = str::from_utf8(bytes) else {
        return Ok(None);
    };
    for word in numbers.split_whitespace() {
        let Ok(number) = word.parse::<usize>() else {
            return Ok(None);
        };
        let Some(line) = text.lines().nth(number.saturating_sub(1)) else {
            return Ok(None);
        };
        found.extend_from_slice(line.as_bytes())?;
        found.push(b'\n')?;
    }
    Ok(Some(found))
}

/// Puts a new text in the place of an old one in a file, where that stands first. False where it doesn't stand there.
pub fn change(
    alloc: Global,
    files: &mut Vec<(Vec<u8>, Vec<u8>)>,
    name: &str,
    old: &[u8],
    new: &[u8],
) -> Result<bool, AllocError> {
    for (known, held) in files.iter_mut() {
        if known.as_slice() == name.as_bytes() {
            let Some(changed) = changed(alloc, held.as_slice(), old, new)? else {
                return Ok(false);
            };
            *held = changed;
            return Ok(true);
        }
    }
    Ok(false)
}

/// The bytes with a new text in the place of an old one.
fn changed(
    alloc: Global,
    bytes: &[u8],
    old: &[u8],
    new: &[u8],
) -> Result<Option<Vec<u8>>, AllocError> {
    let (Ok(text), Ok(old)) = (str::from_utf8(bytes), str::from_utf8(old)) else {
        return Ok(None);
    };
    let Some((before, behind)) = text.split_once(old) else {
        return Ok(None);
    };
    let mut changed = before.as_bytes().to_vec(alloc)?;
    changed.extend_from_slice(new)?;
    changed.extend_from_slice(behind.as_bytes())?;
    Ok(Some(changed))
}

/// The files, copied; of the one with this name just so many bytes.
pub fn fronted(
    alloc: Global,
    files: &Vec<(Vec<u8>, Vec<u8>)>,
    name: &str,
    front: usize,
) -> Result<List<(Bytes, Bytes)>, AllocError> {
    let mut listed = Vec::new(alloc);
    for (known, held) in files {
        let mut bytes = held.as_slice();
        if known.as_slice() == name.as_bytes()
            && let Some(first) = bytes.get(..front)
        {
            bytes = first;
        }
        let known = known.as_slice().to_vec(alloc)?;
        listed.push((List::of(known), List::of(bytes.to_vec(alloc)?)))?;
    }
    Ok(List::of(listed))
}
