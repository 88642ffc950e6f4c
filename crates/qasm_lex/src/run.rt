//! Runs of bytes of one class.

ghost use Rattle.std.specs.Prelude.{◌≡◌, ◌≤◌, length, slice_index};
ghost use Rattle.std.specs.List.{prefix_len};
ghost use Rattle.qasm_lex.specs.Fronts.{passes};

/// A class of bytes that a run is made of.
#[derive(Clone, Copy)]
pub(crate) enum Run {
    /// Letters, digits and underscores.
    WordBytes,
    /// Digits.
    Digits,
    /// All but the line feed.
    CommentBytes,
    /// All but the line feed and the quote.
    StringBytes,
}

/// Whether a byte is of the class.
fn passes(run: Run, b: u8) -> bool
    ensures { result ≡ passes run b }
{
    match run {
        Run::WordBytes => b.is_ascii_alphanumeric() || b == b'_',
        Run::Digits => b.is_ascii_digit(),
        Run::CommentBytes => b != b'\n',
        Run::StringBytes => b != b'\n' && b != b'"',
    }
}

/// How many bytes of the class stand at the front.
pub(crate) fn run_length(run: Run, bytes: &[u8]) -> usize
    ensures run { result ≡ prefix_len (passes run) bytes.now }
    ensures within { result ≤ length bytes.now }
{
    for (i, b) in bytes.iter().enumerate() {
        if !passes(run, *b) {
            return i;
        }
    }
    bytes.len()
}

/// The byte at a place, or 0 past the end.
pub(crate) fn byte_at(bytes: &[u8], place: usize) -> u8
    ensures { result ≡ slice_index bytes.now place }
{
    if place < bytes.len() { bytes[place] } else { 0 }
}
