//! Tests of zac_archfile: the text of the tiny card, and faults at the first look. `card_cases` has the other texts.

use std::test::Fail;
use zac_arch::Card;
use zac_archfile::{CardFault, Field, card_or_one_fault, read_card, write_card};

const TINY: &str =
    "{\"accel\":2750,\"activate\":15000,\"aods\":2,\"columns\":4,\"deactivate\":15000,\"entangling\":[{\"columns\":2,\"dx\":120,\"dy\":100,\"pair\":20,\"rows\":1,\"x\":0,\"y\":100}],\"gap\":10,\"one\":52000,\"park\":10,\"pulse\":360,\"radius\":60,\"reach\":5,\"readout\":1000000,\"rows\":4,\"storage\":[{\"columns\":4,\"dx\":30,\"dy\":30,\"rows\":1,\"x\":0,\"y\":0}],\"version\":1}";

#[test]
fn the_tiny_card_has_its_text(rt: HostRuntime) -> Result<(), Fail> {
    let card = Card::tiny(rt.alloc())?;
    let text = write_card(rt.alloc(), &card)?;
    assert_eq!(rt; text.as_slice(), TINY.as_bytes());
    let again = read_card(rt.alloc(), text.as_slice())?;
    assert_eq!(rt; again.figures(), card.figures());
    assert_eq!(rt; again.zones(), card.zones());
    Ok(())
}

#[test]
fn other_texts_have_a_fault(rt: HostRuntime) {
    card_or_one_fault();
    let table = [
        ("[]", CardFault::NotJson),
        ("{}", CardFault::Missing(Field::Version)),
    ];
    for (text, fault) in table {
        match read_card(rt.alloc(), text.as_bytes()) {
            Ok(_) => assert!(rt; false),
            Err(e) => assert_eq!(rt; e, fault),
        }
    }
    assert_eq!(rt;
        (Field::Gap.name(), Field::StorageDx.name()),
        ("gap", "storage.dx")
    );
}
