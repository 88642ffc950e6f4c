//! Tests of zac_group: which moves go together, and in which group each is.

ghost use Rattle.std.specs.Prelude.{◌≡◌, [], ◌∷◌, IfOk};

use std::alloc::{AllocError, Global};
use zac_arch::{Card, TrapId};
use zac_gates::List;
use zac_group::{Shift, compatible, groups};

/// From the first storage trap to the right trap of the first site: 120 in all.
const FIRST: Shift = Shift {
    q: 0,
    from: TrapId(0),
    to: TrapId(5),
};

/// From the second storage trap to the left trap of that site: 130 in all. On x the sources rise and the targets fall.
const SECOND: Shift = Shift {
    q: 1,
    from: TrapId(1),
    to: TrapId(4),
};

/// Both moves.
fn reversed(alloc: Global) -> Result<Vec<Shift>, AllocError>
    ensures { IfOk result (λ shifts. shifts.items ≡ FIRST ∷ SECOND ∷ []) }
{
    Vec::from_slice(alloc, &[FIRST, SECOND])
}

#[test]
fn reversed_moves_go_one_after_the_other(rt: HostRuntime) {
    let card = match Card::tiny(rt.alloc()) {
        Ok(card) => card,
        Err(_memory) => panic!(&rt; "no memory"),
    };
    assert!(rt; !compatible(&card, FIRST, SECOND));
    let shifts = match reversed(rt.alloc()) {
        Ok(shifts) => List::of(shifts),
        Err(_memory) => panic!(&rt; "no memory"),
    };
    let groups = match groups(rt.alloc(), &card, shifts) {
        Ok(groups) => groups,
        Err(_memory) => panic!(&rt; "no memory"),
    };
    assert!(rt; groups.as_slice().len() == 2);
    assert!(rt; groups.as_slice()[0].shifts() == [SECOND].as_slice());
    assert!(rt; groups.as_slice()[1].shifts() == [FIRST].as_slice());
}
