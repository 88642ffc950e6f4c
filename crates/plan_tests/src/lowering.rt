//! A test of zac_aod: the job that parks on the card `square`.

use std::test::Fail;
use zac_aod::lower;
use zac_arch::TrapId;
use zac_archfile::read_card;
use zac_gates::List;
use zac_group::{Shift, groups};
use zair_form::{Beam, Caught, Dropped, Step};

/// The card: two by two storage traps, and two sites in a column above them.
const SQUARE: &str =
    r#"{"accel":2750,"activate":15000,"aods":2,"columns":4,"deactivate":15000,"entangling":[{"columns":1,"dx":120,"dy":100,"pair":20,"rows":2,"x":0,"y":130}],"gap":10,"one":52000,"park":10,"pulse":360,"radius":60,"reach":5,"readout":1000000,"rows":4,"storage":[{"columns":2,"dx":30,"dy":30,"rows":2,"x":0,"y":0}],"version":1}"#;

/// Three of the four atoms go to the sites: two of the lower row, and one of the upper row.
const SHIFTS: [Shift; 3] = [
    Shift {
        q: 0,
        from: TrapId(0),
        to: TrapId(4),
    },
    Shift {
        q: 1,
        from: TrapId(1),
        to: TrapId(5),
    },
    Shift {
        q: 2,
        from: TrapId(2),
        to: TrapId(6),
    },
];

/// A beam at a place.
fn beam(id: u8, at: u32) -> Beam {
    Beam { id, at }
}

/// Whether a step switches these beams on and catches these atoms.
fn catches(step: &Step, on: (&[Beam], &[Beam]), caught: &[Caught]) -> bool {
    match step {
        Step::Activate {
            aod,
            rows,
            columns,
            atoms,
        } => *aod == 0
            && rows.as_slice() == on.0
            && columns.as_slice() == on.1
            && atoms.as_slice() == caught,
        _ => false,
    }
}

/// Whether a step takes these beams to these places.
fn moves(step: &Step, to: (&[Beam], &[Beam])) -> bool {
    match step {
        Step::Move { aod, rows, columns } => {
            *aod == 0 && rows.as_slice() == to.0 && columns.as_slice() == to.1
        }
        _ => false,
    }
}

/// Whether a step switches these beams off and drops these atoms.
fn drops(step: &Step, off: (&[u8], &[u8]), dropped: &[Dropped]) -> bool {
    match step {
        Step::Deactivate {
            aod,
            rows,
            columns,
            atoms,
        } => *aod == 0
            && rows.as_slice() == off.0
            && columns.as_slice() == off.1
            && atoms.as_slice() == dropped,
        _ => false,
    }
}

/// The atom of a qubit, caught by these beams.
fn caught(q: u32, row: u8, column: u8) -> Caught {
    Caught { q, row, column }
}

/// The atom of a qubit, dropped into a trap.
fn dropped(q: u32, trap: u32) -> Dropped {
    Dropped {
        q,
        trap: TrapId(trap),
    }
}

#[test]
fn parks_a_row_before_the_next_is_loaded(rt: HostRuntime) -> Result<(), Fail> {
    let card = read_card(rt.alloc(), SQUARE.as_bytes())
        .ok()
        .ok_or("no card")?;
    assert!(rt; card.storage_traps() == 4);
    assert!(rt; card.traps() == 8);
    let shifts = Vec::from_slice(rt.alloc(), &SHIFTS)?;
    let groups = groups(rt.alloc(), &card, List::of(shifts))
        .ok()
        .ok_or("memory")?;
    assert_eq!(rt; groups.as_slice().len(), 1);
    let job = lower(rt.alloc(), &card, &groups.as_slice()[0])
        .ok()
        .ok_or("memory")?;
    let steps = job.steps();
    assert_eq!(rt; steps.len(), 7);
    assert!(rt;
        catches(
            &steps[0],
            (&[beam(0, 0)], &[beam(0, 0), beam(1, 30)]),
            &[caught(0, 0, 0), caught(1, 0, 1)]
        )
    );
    assert!(rt; moves(&steps[1], (&[beam(0, 10)], &[beam(0, 0), beam(1, 40)])));
    assert!(rt; catches(&steps[2], (&[beam(1, 30)], &[]), &[caught(2, 1, 0)]));
    assert!(rt;
        moves(
            &steps[3],
            (&[beam(0, 130), beam(1, 240)], &[beam(0, 0), beam(1, 20)])
        )
    );
    assert!(rt; drops(&steps[4], (&[0], &[1]), &[dropped(0, 4), dropped(1, 5)]));
    assert!(rt; moves(&steps[5], (&[beam(1, 230)], &[beam(0, 0)])));
    assert!(rt; drops(&steps[6], (&[1], &[0]), &[dropped(2, 6)]));
    assert_eq!(rt; job.duration(), 189_332);
    assert_eq!(rt;
        job.grid(),
        [
            TrapId(0),
            TrapId(1),
            TrapId(2),
            TrapId(3),
            TrapId(4),
            TrapId(5),
            TrapId(6),
            TrapId(7)
        ]
        .as_slice()
    );
    Ok(())
}
