//! Moves to given traps, and the world behind them.

ghost use Rattle.std.specs.Prelude.{◌≡◌, ◌<◌, ◌≤◌, All, IfOk, length, vec_len};
ghost use Rattle.zac_arch.specs.Architecture.{trap_count};
ghost use Rattle.zac_plan.specs.Plan.{after_shifts, places, shifts_to};
ghost use Rattle.zac_plan.specs.Seats.{CanMake, rests_in};

use std::alloc::Global;
use zac_arch::TrapId;
use zac_gates::Memory;
use zac_group::Shift;
use zac_world::World;

/// The moves of qubits to traps: the first qubit goes from where it rests to the first trap, the second one to the
/// second, and so on.
pub fn shifts_to(
    alloc: Global,
    world: &World<'_>,
    qubits: &[u32],
    traps: &[u32],
) -> Result<Vec<Shift>, Memory>
    requires below { All (λ q. q < length world.now.traps) qubits.now }
    requires each { length traps.now ≡ length qubits.now }
    ensures shifts { IfOk result (λ shifts. shifts.items ≡ shifts_to (rests_in world.now) qubits.now traps.now) }
    ensures number { IfOk result (λ shifts. vec_len shifts ≡ length qubits.now) }
{
    let mut shifts = Vec::with_capacity(alloc, qubits.len())?;
    for (q, trap) in qubits.iter().zip(traps.iter()) {
        shifts.push(Shift {
            q: *q,
            from: world.trap_of(*q),
            to: TrapId(*trap),
        })?;
    }
    Ok(shifts)
}

/// Makes moves in the world.
pub fn put_all(world: &mut World<'_>, shifts: &[Shift])
    requires can_make { CanMake (rests_in world.old) shifts.now }
    requires targets { All (λ s. s.to.0 < trap_count world.old.architecture) shifts.now }
    ensures { world.new ≡ places world.old.architecture (after_shifts (rests_in world.old) shifts.now) }
{
    for shift in shifts {
        world.put(shift.q, shift.to);
    }
}
