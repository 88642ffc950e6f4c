//! The words of a command.

ghost use Rattle.std.specs.Prelude.{◌≡◌, ◌≤◌, ◌↔◌, ◌∷◌, [], IsTrue, ℕ, map, string_bytes, decimal, IfSome, MatchOption};
ghost use Rattle.std.specs.Option.{option_map};
ghost use Rattle.zac_flow.specs.Requests.{named, IsInRange};
ghost use Rattle.zac_flow.specs.Words.{Name, AreInRange};

use itoa::Buffer;

/// What the words of a command ask for. A card is `@tiny`, `@standard`, or a file's name.
#[derive(Clone, Copy, Drop)]
pub enum Request<'a> {
    /// To compile the source in this file for this card.
    Compile {
        card: &'a str,
        source: &'a str,
    },
    /// To report what it compiles to.
    Report {
        card: &'a str,
        source: &'a str,
    },
    /// To replay the text of a program in this file against the source and the card.
    Replay {
        card: &'a str,
        source: &'a str,
        zair: &'a str,
    },
    /// To make a source of so many qubits, 2 to 4,096, and so many pairs, at most 50,000.
    Make {
        qubits: u32,
        pairs: u32,
    },
    /// To compile such a source for the standard card, and tell the totals.
    Drill {
        qubits: u32,
        pairs: u32,
    },
}

/// Whether the word is the number in decimal digits.
fn is_decimal(word: &str, n: u32) -> bool
    ensures { IsTrue result ↔ (word.now ≡ decimal n) }
{
    Buffer::new().format(n) == word
}

/// The number whose decimal digits are the word, where it is from `least` to `most`.
fn number(word: &str, least: u32, most: u32) -> Option<u32>
    ensures { MatchOption result
        ((n : ℕ) → least ≤ n → n ≤ most → ¬ (word.now ≡ decimal n))
        (λ n. (word.now ≡ decimal n) × (least ≤ n) × (n ≤ most)) }
{
    let Ok(n) = word.parse::<u32>() else {
        return None;
    };
    if n < least || most < n || !is_decimal(word, n) {
        return None;
    }
    Some(n)
}

/// The numbers of a source to be made, where the words are two such numbers in decimal digits: 2 to 4,096 qubits, and at most
/// 50,000 pairs.
fn numbers(qubits: &str, pairs: &str) -> Option<(u32, u32)>
    ensures { MatchOption result
        ((n k : ℕ) → AreInRange n k → qubits.now ≡ decimal n → ¬ (pairs.now ≡ decimal k))
        (λ r. AreInRange r.0 r.1 × (qubits.now ≡ decimal r.0) × (pairs.now ≡ decimal r.1)) }
{
    let n = number(qubits, 2, 4096)?;
    let k = number(pairs, 0, 50_000)?;
    Some((n, k))
}

/// What three words ask for.
fn three_words<'a>(command: &'a str, first: &'a str, second: &'a str) -> Option<Request<'a>>
    ensures name { Name (command.now ∷ first.now ∷ second.now ∷ []) (option_map named result) }
    ensures in_range { IfSome result IsInRange }
{
    match command {
        "compile" => Some(Request::Compile {
            card: first,
            source: second,
        }),
        "report" => Some(Request::Report {
            card: first,
            source: second,
        }),
        "make" => {
            let (qubits, pairs) = numbers(first, second)?;
            Some(Request::Make { qubits, pairs })
        }
        "drill" => {
            let (qubits, pairs) = numbers(first, second)?;
            Some(Request::Drill { qubits, pairs })
        }
        _ => None,
    }
}

/// What four words ask for.
fn four_words<'a>(
    command: &'a str,
    card: &'a str,
    source: &'a str,
    zair: &'a str,
) -> Option<Request<'a>>
    ensures name { Name (command.now ∷ card.now ∷ source.now ∷ zair.now ∷ []) (option_map named result) }
    ensures in_range { IfSome result IsInRange }
{
    match command {
        "replay" => Some(Request::Replay { card, source, zair }),
        _ => None,
    }
}

/// What the words ask for: `compile CARD FILE`, `report CARD FILE`, `replay CARD FILE ZAIR`, `make N K` or `drill N K`. None
/// exactly where they are those of no command.
pub fn read_words(words: &[String]) -> Option<Request<'_>>
    ensures name { Name (map (λ word. string_bytes word) words.now) (option_map named result) }
    ensures in_range { IfSome result IsInRange }
{
    match words {
        [command, first, second] => {
            three_words(command.as_str(), first.as_str(), second.as_str())
        }
        [command, card, source, zair] => {
            four_words(
                command.as_str(),
                card.as_str(),
                source.as_str(),
                zair.as_str(),
            )
        }
        _ => None,
    }
}
