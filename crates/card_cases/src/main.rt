//! Reads texts of cards, one a line, and prints what `read_card` answers of each.
//!
//! In a line `%XX` stands for one byte. A line that begins with `#` is printed as it is. A card is printed as the numbers of
//! its storage traps and its sites, and the text that `write_card` gives; a refusal as its kind, and its field or its rule.
#![tactic(auto)]

use percent_encoding::percent_decode;
use std::{io, str};
use zac_arch::Card;
use zac_archfile::{CardFault, read_card, write_card};
use zac_gates::Bytes;

/// Prints a refusal.
fn print_fault(rt: &HostRuntime, fault: CardFault) -> io::Result<()> {
    match fault {
        CardFault::NotJson => println!(rt; "NotJson"),
        CardFault::Missing(field) => println!(rt; "Missing {}", field.name()),
        CardFault::Unknown => println!(rt; "Unknown"),
        CardFault::NotWhole(field) => println!(rt; "NotWhole {}", field.name()),
        CardFault::Range(field) => println!(rt; "Range {}", field.name()),
        CardFault::Invalid(rule) => println!(rt; "Invalid {rule}"),
        CardFault::Memory => println!(rt; "Memory"),
    }
}

/// Whether a text reads as a card that has this text again.
fn reads_back(rt: &HostRuntime, text: &Bytes) -> bool {
    let Ok(card) = read_card(rt.alloc(), text.as_slice()) else {
        return false;
    };
    match write_card(rt.alloc(), &card) {
        Ok(again) => again.as_slice() == text.as_slice(),
        Err(_) => false,
    }
}

/// Prints a card.
fn print_card(rt: &HostRuntime, card: &Card) -> io::Result<()> {
    let Ok(text) = write_card(rt.alloc(), card) else {
        return println!(rt; "Memory");
    };
    let Ok(line) = str::from_utf8(text.as_slice()) else {
        return println!(rt; "no text");
    };
    println!(rt; "{} {} {line}", card.storage_traps(), card.sites())?;
    if !reads_back(rt, &text) {
        println!(rt; "which reads back as another card")?;
    }
    Ok(())
}

/// Reads the card that a line stands for, and prints the answer.
fn answer(rt: &HostRuntime, line: &str) -> io::Result<()> {
    let mut bytes = Vec::new(rt.alloc());
    percent_decode(line.as_bytes()).append_to(&mut bytes)?;
    match read_card(rt.alloc(), bytes.as_slice()) {
        Ok(card) => print_card(rt, &card),
        Err(fault) => print_fault(rt, fault),
    }
}

fn main(rt: HostRuntime) -> io::Result<()> {
    for line in rt.lines(rt.alloc()) {
        let line = line?;
        if line.starts_with("#") {
            println!(rt; "{line}")?;
        } else {
            answer(&rt, line.as_str())?;
        }
    }
    Ok(())
}
