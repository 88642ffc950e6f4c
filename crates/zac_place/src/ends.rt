//! Which of a gate's qubits goes to the left.

ghost use Rattle.std.specs.Prelude.{◌≡◌, ◌<◌};
ghost use Rattle.zac_arch.specs.Architecture.{trap_count};
ghost use Rattle.zac_place.specs.Returns.{trap_in};
ghost use Rattle.zac_place.specs.Sites.{AreStored, comes_before, left_qubit, right_qubit};

use crate::offsets::point_of;
use zac_arch::{Card, TrapId, laws_of_traps};
use zac_world::World;

/// Whether a trap stands at a smaller x than another, or at the same x and has the smaller number.
fn comes_before(card: &Card, t: TrapId, u: TrapId) -> bool
    requires first { t.0 < trap_count card.now }
    requires second { u.0 < trap_count card.now }
    ensures { result ≡ comes_before card.now t.0 u.0 }
{
    let first = point_of(card, t).x;
    let second = point_of(card, u).x;
    first < second || (first == second && t.0 < u.0)
}

/// The traps in which the qubits of a gate rest: first that of the qubit that goes to the left trap of a site.
pub(crate) fn ends(card: &Card, world: &World<'_>, gate: (u32, u32)) -> (TrapId, TrapId)
    requires card { world.now.architecture ≡ card.now }
    requires stored { AreStored world.now gate }
    ensures left { result.0.0 ≡ trap_in world.now (left_qubit world.now gate) }
    ensures right { result.1.0 ≡ trap_in world.now (right_qubit world.now gate) }
    ensures left_in { result.0.0 < trap_count card.now }
    ensures right_in { result.1.0 < trap_count card.now }
{
    laws_of_traps(card);
    let first = world.trap_of(gate.0);
    let second = world.trap_of(gate.1);
    if comes_before(card, first, second) {
        (first, second)
    } else {
        (second, first)
    }
}
