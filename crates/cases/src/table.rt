//! The rows of the table.

/// A call that is made on one of these.
#[derive(Clone, Copy)]
pub enum Side {
    Shelf,
    Out,
    Err,
}

/// A row of the table.
#[derive(Clone, Copy, Drop)]
pub enum Row<'a> {
    /// An empty line.
    Nothing,
    /// A comment, with its sign.
    Comment(&'a str),
    /// A case begins, with these words.
    Case(&'a str),
    /// These bytes, as a text with escapes, are added to a file so many times.
    Bytes {
        name: &'a str,
        times: u32,
        text: &'a str,
    },
    /// The bytes of the real file at a path are added to a file.
    File {
        name: &'a str,
        path: &'a str,
    },
    /// These lines of the real file at a path, by their numbers, are added to a file.
    Lines {
        name: &'a str,
        path: &'a str,
        numbers: &'a str,
    },
    /// In a file one text, with escapes, is changed to another.
    Change {
        name: &'a str,
        old: &'a str,
        new: &'a str,
    },
    /// Watches of these kinds are added to the panel.
    Panel(&'a str),
    /// The case is run with each front of this file.
    Fronts(&'a str),
    /// A call fails.
    Fail {
        side: Side,
        call: u64,
    },
    /// `out` takes so many bytes.
    Room(usize),
}

/// What stands before the first blank, and what stands behind it.
fn first_word(text: &str) -> (&str, &str) {
    match text.split_once(' ') {
        Some(parts) => parts,
        None => (text, ""),
    }
}

/// The row `text NAME BYTES`.
fn text_row(rest: &str) -> Row<'_> {
    let (name, text) = first_word(rest);
    Row::Bytes {
        name,
        times: 1,
        text,
    }
}

/// The row `repeat NAME N BYTES`.
fn repeat_row(rest: &str) -> Option<Row<'_>> {
    let (name, rest) = first_word(rest);
    let (times, text) = first_word(rest);
    let times = times.parse::<u32>().ok()?;
    Some(Row::Bytes { name, times, text })
}

/// The row `lines NAME PATH N ..`.
fn lines_row(rest: &str) -> Row<'_> {
    let (name, rest) = first_word(rest);
    let (path, numbers) = first_word(rest);
    Row::Lines {
        name,
        path,
        numbers,
    }
}

/// The row `change NAME OLD NEW`.
fn change_row(rest: &str) -> Row<'_> {
    let (name, rest) = first_word(rest);
    let (old, new) = first_word(rest);
    Row::Change { name, old, new }
}

/// The row `fail SIDE N`.
fn fail_row(rest: &str) -> Option<Row<'_>> {
    let (side, call) = first_word(rest);
    let side = match side {
        "shelf" => Side::Shelf,
        "out" => Side::Out,
        "err" => Side::Err,
        _ => return None,
    };
    let call = call.parse::<u64>().ok()?;
    Some(Row::Fail { side, call })
}

/// The row that a line is. None where it is none.
pub fn row_of(line: &str) -> Option<Row<'_>> {
    if line.is_empty() {
        return Some(Row::Nothing);
    }
    let (head, rest) = first_word(line);
    match head {
        "#" => Some(Row::Comment(line)),
        "case" => Some(Row::Case(rest)),
        "text" => Some(text_row(rest)),
        "repeat" => repeat_row(rest),
        "file" => {
            let (name, path) = first_word(rest);
            Some(Row::File { name, path })
        }
        "lines" => Some(lines_row(rest)),
        "change" => Some(change_row(rest)),
        "panel" => Some(Row::Panel(rest)),
        "fronts" => Some(Row::Fronts(rest)),
        "fail" => fail_row(rest),
        "room" => Some(Row::Room(rest.parse::<usize>().ok()?)),
        _ => None,
    }
}
