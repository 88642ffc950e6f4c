//! How many storage traps and sites zones have, whatever their numbers are.

ghost use Rattle.std.specs.Prelude.{◌≡◌, ◌*◌, length, filter, if◌then◌else◌};
ghost use Rattle.std.specs.List.{flat_map, sum_by};
ghost use Rattle.zac_arch.specs.Architecture.{is_storage, zone_traps, zone_sites};

use crate::card::Zone;

/// How many places a zone's grid has.
fn places_of(z: Zone) -> u64
    ensures { result ≡ z.rows * z.columns }
{
    u64::from(z.rows) * u64::from(z.columns)
}

/// How many storage traps a zone has.
fn storage_traps_of(z: Zone) -> u64
    ensures { result ≡ (if is_storage z.kind then length (zone_traps z) else 0) }
{
    if z.kind.is_for_storage() {
        places_of(z)
    } else {
        0
    }
}

/// How many sites a zone has.
fn sites_of(z: Zone) -> u64
    ensures { result ≡ zone_sites z }
{
    if z.kind.is_for_storage() {
        0
    } else {
        places_of(z)
    }
}

/// How many storage traps a list of zones has.
pub(crate) fn storage_traps_in(zones: &[Zone]) -> u128
    ensures { result ≡ length (flat_map zone_traps (filter (λ z. is_storage z.kind) zones.now)) }
{
    let mut count = 0;
    for zone in zones {
        count += u128::from(storage_traps_of(*zone));
    }
    count
}

/// How many sites a list of zones has.
pub(crate) fn sites_in(zones: &[Zone]) -> u128
    ensures { result ≡ sum_by zone_sites zones.now }
{
    let mut count = 0;
    for zone in zones {
        count += u128::from(sites_of(*zone));
    }
    count
}
