//! The homes of the qubits.

ghost use Rattle.std.specs.Prelude.{◌≡◌, ◌≢◌, ◌<◌, ◌≤◌, ℕ, IfOk, Some, length, vec_len};
ghost use Rattle.std.specs.List.{All, AllPairs, slice_get};
ghost use Rattle.zac_arch.specs.Architecture.{storage_count};
ghost use Rattle.zac_place.specs.Homes.{AreApartInStorage, AreHomesByUse};
ghost use Rattle.zac_place.specs.Ranks.{number_of};

use crate::offsets::{RankedTrap, traps_by_filling};
use crate::uses::qubits_by_use;
use std::alloc::Global;
use zac_arch::{Card, TrapId};
use zac_gates::{Circuit, List};
use zac_memory::Memory;

/// Each qubit in the trap at its place in the order.
fn homes_in_order(
    alloc: Global,
    qubits: &[u32],
    traps: &[RankedTrap],
) -> Result<Vec<TrapId>, Memory>
    requires below { All (λ q. q < length qubits.now) qubits.now }
    requires distinct { AllPairs (λ q r. q ≢ r) qubits.now }
    requires few { length qubits.now ≤ length traps.now }
    ensures number { IfOk result (λ homes. vec_len homes ≡ length qubits.now) }
    ensures homes { IfOk result (λ homes. (k q : ℕ) (trap : RankedTrap) → slice_get qubits.now k ≡ Some q
        → slice_get traps.now k ≡ Some trap → slice_get homes.items q ≡ Some (record { 0 = trap.number })) }
{
    let mut homes = vec![in alloc; TrapId(0); qubits.len()]?;
    for (k, q) in qubits.iter().enumerate() {
        homes[*q as usize] = TrapId(traps[k].number);
    }
    Ok(homes)
}

/// The home of each qubit, a storage trap of its own. The qubits, in the order of their first pairs, rest in the storage
/// traps in the order of their nearness to site 0: by rows first, then by columns. There are at most as many qubits as
/// storage traps. The only error is that memory ran out.
///
/// The time is in proportion to the ops, and to the storage traps times the logarithm of their number.
pub fn homes(alloc: Global, card: &Card, circuit: &Circuit) -> Result<List<TrapId>, Memory>
    requires { circuit.now.qubits ≤ storage_count card.now }
    ensures by_use { IfOk result (λ homes. AreHomesByUse card.now circuit.now homes) }
    ensures apart { IfOk result (λ homes. AreApartInStorage card.now circuit.now.qubits homes) }
{
    let qubits = qubits_by_use(alloc, circuit)?;
    let traps = traps_by_filling(alloc, card)?;
    let homes = homes_in_order(alloc, qubits.as_slice(), traps.as_slice())?;
    Ok(List::of(homes))
}
