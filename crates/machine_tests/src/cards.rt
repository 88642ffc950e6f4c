//! The built-in cards, the time of a move, and a card that breaks each rule alone.

use std::alloc::Global;
use std::test::Fail;
use zac_arch::{Card, Figures, Point, SiteId, TrapId, Zone, ZoneKind, within};

#[test]
fn the_tiny_card_answers_each_question(rt: HostRuntime) -> Result<(), Fail> {
    let card = Card::tiny(rt.alloc())?;
    assert_eq!(rt;
        (card.storage_traps(), card.sites(), card.traps()),
        (4, 2, 8)
    );
    assert_eq!(rt; (card.figures().accel, card.zones().len()), (2750, 2));
    assert!(rt; 7 < card.traps() && 1 < card.sites());
    assert_eq!(rt; card.point(TrapId(7)), Point { x: 140, y: 100 });
    assert_eq!(rt; card.zone_of(TrapId(7)), 1);
    assert_eq!(rt; card.site_of(TrapId(7)), Some(SiteId(1)));
    assert_eq!(rt; card.site_of(TrapId(3)), None);
    assert_eq!(rt; card.site_traps(SiteId(1)), (TrapId(6), TrapId(7)));
    assert_eq!(rt; card.trap_at(Point { x: 90, y: 0 }), Some(TrapId(3)));
    assert_eq!(rt; card.trap_at(Point { x: 91, y: 0 }), None);
    assert_eq!(rt;
        (
            card.lit(Point { x: 0, y: 40 }),
            card.lit(Point { x: 0, y: 39 })
        ),
        (true, false)
    );
    Ok(())
}

#[test]
fn the_standard_card_has_its_traps(rt: HostRuntime) -> Result<(), Fail> {
    let card = Card::standard(rt.alloc())?;
    assert_eq!(rt;
        (card.storage_traps(), card.sites(), card.traps()),
        (10_000, 140, 10_280)
    );
    let table = [
        (9800, 0, 2940),
        (9900, 0, 2970),
        (10_000, 0, 3070),
        (10_001, 20, 3070),
    ];
    for (t, x, y) in table {
        assert!(rt; t < card.traps());
        assert_eq!(rt; card.point(TrapId(t)), Point { x, y });
    }
    Ok(())
}

#[test]
fn moves_take_their_times(rt: HostRuntime) -> Result<(), Fail> {
    let card = Card::tiny(rt.alloc())?;
    let table = [
        (0, 0, 0),
        (10, 100, 60_453),
        (0, 100, 60_303),
        (1_100, 0, 200_000),
        (1, 0, 6_031),
    ];
    for (dx, dy, time) in table {
        assert!(rt; dx <= 1_000_000 && dy <= 1_000_000);
        assert_eq!(rt; card.move_time(dx, dy), time);
    }
    assert_eq!(rt; card.move_time(1_000_000, 1_000_000), 7_171_189);
    assert!(rt; within(Point { x: 0, y: 3 }, Point { x: 4, y: 0 }, 5));
    Ok(())
}

/// The rule that a card of one storage zone and one entangling zone breaks; 0 where it keeps all.
fn broken_rule(
    alloc: Global,
    figures: Figures,
    storage: Zone,
    entangling: Zone,
) -> Result<u8, Fail> {
    let storage = Zone {
        kind: ZoneKind::Storage,
        ..storage
    };
    let entangling = Zone {
        kind: ZoneKind::Entangling,
        ..entangling
    };
    let zones = vec![in alloc; storage, entangling]?;
    Ok(match Card::new(figures, zones) {
        Ok(_) => 0,
        Err(rule) => rule,
    })
}

#[test]
fn the_least_broken_rule_is_told(rt: HostRuntime) -> Result<(), Fail> {
    let alloc = rt.alloc();
    let tiny = Card::tiny(alloc)?;
    let f = tiny.figures();
    assert!(rt; tiny.zones().len() == 2);
    let (s, e) = (tiny.zones()[0], tiny.zones()[1]);
    let far = Zone { y: 8_000, ..e };
    let wild = Zone {
        x: u32::MAX,
        dx: u32::MAX,
        columns: u32::MAX,
        rows: u32::MAX,
        ..s
    };
    let table = [
        (f, s, e, 0),
        (
            f,
            Zone {
                columns: 256,
                rows: 257,
                ..s
            },
            far,
            1,
        ),
        (
            f,
            Zone {
                columns: 256,
                rows: 256,
                ..s
            },
            far,
            0,
        ),
        (f, wild, e, 1),
        (Figures { reach: 8, ..f }, s, e, 2),
        (
            Figures {
                reach: u32::MAX,
                ..f
            },
            s,
            e,
            2,
        ),
        (f, Zone { dx: 19, ..s }, e, 3),
        (f, Zone { dx: 20, ..s }, e, 0),
        (f, s, Zone { dx: 39, ..e }, 3),
        (Figures { radius: 19, ..f }, s, e, 4),
        (Figures { radius: 20, ..f }, s, e, 0),
        (f, s, Zone { y: 75, ..e }, 5),
        (f, s, Zone { y: 76, ..e }, 0),
        (f, s, Zone { x: 999_851, ..e }, 6),
        (f, s, Zone { x: 999_850, ..e }, 0),
        (Figures { aods: 9, ..f }, s, e, 7),
        (f, s, Zone { dy: 1_000_001, ..e }, 7),
    ];
    for (figures, storage, entangling, rule) in table {
        assert_eq!(rt; broken_rule(alloc, figures, storage, entangling)?, rule);
    }
    Ok(())
}
