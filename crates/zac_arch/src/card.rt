//! The card of a machine: its figures and its zones.

ghost use Rattle.std.specs.Prelude.{◌≡◌, ◌+◌, ◌*◌, ◌<◌, ◌≤◌, ◌↔◌, ℕ, IsTrue, IfOk, Some, MatchOption, MatchResult, length, [], ◌∷◌};
ghost use Rattle.zac_arch.specs.Architecture.{is_storage, trap_count, traps_before, storage_count, site_count, StandsAt, left_trap, right_trap, IsTrapOf, IsInZone, IsLit};
ghost use Rattle.zac_arch.specs.Distances.{IsFarther, IsMoveTime};
ghost use Rattle.zac_arch.specs.Rules.{KeepsRules, HasFigureRanges, IsLeastBroken, passes_pairs, stands_in_order};
ghost use Rattle.zac_arch.specs.Tiny.{built_in_figures, tiny_architecture};
ghost use Rattle.zac_arch.specs.Standard.{standard_architecture};
ghost use Rattle.zac_arch.specs.declared.place.Point.{Point};

use crate::Memory;
use crate::counts::{sites_in, storage_traps_in};
use crate::duration::least_time;
use crate::place::{Point, SiteId, TrapId};
use crate::rules::least_broken_rule;
use crate::zone_grid::{is_lit_by, is_off, place_at, point_in, traps_of};
use std::alloc::Global;
use std::marker::Model;

/// The figures of a machine.
#[derive(Clone, Copy, Debug, PartialEq, Eq)]
pub struct Figures {
    /// The least distance of neighbouring rows, and of neighbouring columns, of one AOD: 1 to 100,000.
    pub gap: u32,
    /// How far a beam is parked from the place that it keeps clear of: 1 to 100,000.
    pub park: u32,
    /// The distance within which a crossing touches a trap or another crossing: 0 to 100,000.
    pub reach: u32,
    /// The blockade radius: 1 to 100,000.
    pub radius: u32,
    /// The acceleration of a beam, in metres per second squared: 100 to 1,000,000. It is the a in `sqrt(d/a)`,
    /// the time of a move over the distance d.
    pub accel: u32,
    /// How long beams take to switch on, in nanoseconds: 1 to 1,000,000,000.
    pub activate: u32,
    /// How long beams take to switch off, in nanoseconds: 1 to 1,000,000,000.
    pub deactivate: u32,
    /// How long a one-qubit gate takes, in nanoseconds: 1 to 1,000,000,000.
    pub one: u32,
    /// How long a pulse takes, in nanoseconds: 1 to 1,000,000,000.
    pub pulse: u32,
    /// How long a readout takes, in nanoseconds: 1 to 1,000,000,000.
    pub readout: u32,
    /// The number of AODs: 1 to 8.
    pub aods: u8,
    /// The most row beams of one AOD: 1 to 64.
    pub rows: u8,
    /// The most column beams of one AOD: 1 to 64.
    pub columns: u8,
}

/// What a zone is for.
#[derive(Clone, Copy, Debug, PartialEq, Eq)]
pub enum ZoneKind {
    /// Atoms rest there, and no pulse lights them.
    Storage,
    /// A pulse lights it, and makes a CZ of the two atoms of each site.
    Entangling,
}

impl ZoneKind {
    /// Whether atoms rest there.
    pub(crate) fn is_for_storage(self) -> bool
        ensures { result ≡ is_storage self }
    {
        match self {
            ZoneKind::Storage => true,
            ZoneKind::Entangling => false,
        }
    }
}

/// A zone: a grid of traps, or of sites with two traps each.
#[derive(Clone, Copy, Debug, PartialEq, Eq)]
pub struct Zone {
    /// What it is for.
    pub kind: ZoneKind,
    /// The x of its first trap: 0 to 1,000,000.
    pub x: u32,
    /// The y of its first trap: 0 to 1,000,000.
    pub y: u32,
    /// The distance of its columns: 1 to 1,000,000.
    pub dx: u32,
    /// The distance of its rows: 1 to 1,000,000.
    pub dy: u32,
    /// How far the right trap of a site is from the left one: 1 to 1,000,000; 0 in storage.
    pub pair: u32,
    /// The number of its columns, in an entangling zone of sites: 1 to 65,536.
    pub columns: u32,
    /// The number of its rows: 1 to 65,536.
    pub rows: u32,
}

/// The card of a machine. Each card keeps all rules: the numbers of its zones, traps and sites, the room
/// between traps, the blockade, the distance between zones, and the ranges of its numbers.
#[derive(Debug, Drop)]
pub struct Card {
    figures: Figures,
    zones: Vec<Zone>,
}

impl Model for Card {
    ghost use Rattle.zac_arch.specs.Architecture.{Architecture};

    ghost Value = { Architecture };

    ghost use Rattle.zac_arch.specs.Rules.{KeepsRules};

    ghost view = { λ c. record { figures = c.figures; zones = c.zones.items } };

    ghost invariant = { λ c. KeepsRules (record { figures = c.figures; zones = c.zones.items }) };
}

/// The figures of the built-in cards, with so many beams of an AOD.
fn figures_with(rows: u8, columns: u8) -> Figures
    ensures { result ≡ built_in_figures rows columns }
{
    Figures {
        gap: 10,
        park: 10,
        reach: 5,
        radius: 60,
        accel: 2750,
        activate: 15_000,
        deactivate: 15_000,
        one: 52_000,
        pulse: 360,
        readout: 1_000_000,
        aods: 2,
        rows,
        columns,
    }
}

/// A storage zone and an entangling zone.
fn two_zones(alloc: Global, storage: Zone, entangling: Zone) -> Result<Vec<Zone>, Memory>
    ensures { IfOk result (λ zones. zones.items ≡ storage ∷ entangling ∷ []) }
{
    let mut zones = Vec::with_capacity(alloc, 2)?;
    zones.push(storage)?;
    zones.push(entangling)?;
    Ok(zones)
}

impl Card {
    /// The card of these figures and zones.
    ///
    /// The error is the number of the least rule that they break:
    /// 1, the numbers of zones, storage traps and sites; 2, the parking of beams; 3, the room between
    /// neighbouring traps; 4, the blockade; 5, the distance of zones; 6, the extent of the field; 7, the ranges
    /// of the numbers.
    pub fn new(figures: Figures, zones: Vec<Zone>) -> Result<Card, u8>
        requires storage_first { IsTrue (passes_pairs stands_in_order zones.items) }
        ensures { MatchResult result
            (λ c. (c ≡ record { figures = figures; zones = zones.items }) × KeepsRules (record { figures = figures; zones = zones.items }))
            (λ n. IsLeastBroken (record { figures = figures; zones = zones.items }) n) }
    {
        match least_broken_rule(figures, zones.as_slice()) {
            Some(rule) => Err(rule),
            None => Ok(Card { figures, zones }),
        }
    }

    /// The tiny card: four storage traps in a row, and two sites in a row above them.
    ///
    /// It has two AODs of four rows and four columns.
    pub fn tiny(alloc: Global) -> Result<Card, Memory>
        ensures { IfOk result (λ c. c ≡ tiny_architecture) }
    {
        let storage = Zone {
            kind: ZoneKind::Storage,
            x: 0,
            y: 0,
            dx: 30,
            dy: 30,
            pair: 0,
            columns: 4,
            rows: 1,
        };
        let entangling = Zone {
            kind: ZoneKind::Entangling,
            x: 0,
            y: 100,
            dx: 120,
            dy: 100,
            pair: 20,
            columns: 2,
            rows: 1,
        };
        let zones = two_zones(alloc, storage, entangling)?;
        Ok(Card {
            figures: figures_with(4, 4),
            zones,
        })
    }

    /// The standard card: 10,000 storage traps in a square, and 140 sites above them.
    ///
    /// It has two AODs of 64 rows and 64 columns.
    pub fn standard(alloc: Global) -> Result<Card, Memory>
        ensures { IfOk result (λ c. c ≡ standard_architecture) }
    {
        let storage = Zone {
            kind: ZoneKind::Storage,
            x: 0,
            y: 0,
            dx: 30,
            dy: 30,
            pair: 0,
            columns: 100,
            rows: 100,
        };
        let entangling = Zone {
            kind: ZoneKind::Entangling,
            x: 0,
            y: 3070,
            dx: 120,
            dy: 100,
            pair: 20,
            columns: 20,
            rows: 7,
        };
        let zones = two_zones(alloc, storage, entangling)?;
        Ok(Card {
            figures: figures_with(64, 64),
            zones,
        })
    }

    /// The figures.
    pub fn figures(&self) -> Figures
        ensures figures { result ≡ self.now.figures }
        ensures rules { KeepsRules self.now }
        ensures ranges { HasFigureRanges result }
    {
        self.figures
    }

    /// The zones, storage zones first.
    pub fn zones(&self) -> &[Zone]
        ensures { result.now ≡ self.now.zones }
    {
        self.zones.as_slice()
    }

    /// The zones, with the rules that they keep.
    fn ruled_zones(&self) -> &[Zone]
        ensures zones { result.now ≡ self.now.zones }
        ensures rules { KeepsRules self.now }
    {
        self.zones.as_slice()
    }

    /// How many storage traps there are: 1 to 65,536.
    pub fn storage_traps(&self) -> u32
        ensures { result ≡ storage_count self.now }
    {
        storage_traps_in(self.ruled_zones()) as u32
    }

    /// How many sites there are: 1 to 1,024.
    pub fn sites(&self) -> u32
        ensures { result ≡ site_count self.now }
    {
        sites_in(self.ruled_zones()) as u32
    }

    /// How many traps there are: those of storage, and two of each site.
    pub fn traps(&self) -> u32
        ensures { result ≡ trap_count self.now }
    {
        let _ = &self.figures;
        self.storage_traps() + 2 * self.sites()
    }

    /// The left and the right trap of a site.
    pub fn site_traps(&self, s: SiteId) -> (TrapId, TrapId)
        requires { s.0 < site_count self.now }
        ensures left { result.0.0 ≡ left_trap self.now s.0 }
        ensures right { result.1.0 ≡ right_trap self.now s.0 }
        ensures left_in { result.0.0 < trap_count self.now }
        ensures right_in { result.1.0 < trap_count self.now }
    {
        let _ = &self.figures;
        let left = self.storage_traps() + 2 * s.0;
        (TrapId(left), TrapId(left + 1))
    }

    /// The number of a trap's zone, and the trap's place in it.
    fn place_of(&self, t: TrapId) -> (usize, u32)
        requires { t.0 < trap_count self.now }
        ensures zone_in { result.0 < length self.now.zones }
        ensures in_zone { IsInZone self.now t.0 result.0 }
        ensures place { t.0 ≡ traps_before self.now result.0 + result.1 }
    {
        let zones = self.ruled_zones();
        let mut place = t.0;
        for (number, zone) in zones.iter().enumerate() {
            let count = traps_of(*zone);
            if place < count {
                return (number, place);
            }
            place -= count;
        }
        unreachable!()
    }

    /// Where a trap stands.
    pub fn point(&self, t: TrapId) -> Point
        requires { t.0 < trap_count self.now }
        ensures { StandsAt self.now t.0 result }
    {
        let (number, place) = self.place_of(t);
        let zones = self.ruled_zones();
        point_in(zones[number], place)
    }

    /// The number of a trap's zone.
    pub fn zone_of(&self, t: TrapId) -> u8
        requires { t.0 < trap_count self.now }
        ensures { IsInZone self.now t.0 result }
    {
        let _ = &self.figures;
        self.place_of(t).0 as u8
    }

    /// The site of a trap; none exactly for a storage trap.
    pub fn site_of(&self, t: TrapId) -> Option<SiteId>
        requires { t.0 < trap_count self.now }
        ensures { MatchOption result (t.0 < storage_count self.now)
            (λ s. (s.0 < site_count self.now) × IsTrapOf self.now s.0 t.0) }
    {
        let storage = self.storage_traps();
        if t.0 < storage {
            return None;
        }
        Some(SiteId((t.0 - storage) / 2))
    }

    /// The trap that stands at a point; none exactly where no trap stands.
    pub fn trap_at(&self, p: Point) -> Option<TrapId>
        ensures { MatchOption result ((t : ℕ) → ¬ StandsAt self.now t p) (λ t. StandsAt self.now t.0 p) }
    {
        let zones = self.ruled_zones();
        let mut before = 0;
        for zone in zones {
            if let Some(place) = place_at(*zone, p) {
                return Some(TrapId(before + place));
            }
            before += traps_of(*zone);
        }
        None
    }

    /// Whether a pulse lights a point: it lies in the box of an entangling zone's traps widened by the
    /// blockade radius on all sides, border included.
    pub fn lit(&self, p: Point) -> bool
        ensures { IsTrue result ↔ IsLit self.now p }
    {
        let radius = self.figures().radius;
        let zones = self.ruled_zones();
        for zone in zones {
            if is_lit_by(*zone, radius, p) {
                return true;
            }
        }
        false
    }

    /// Whether a point is farther than the reach from every trap.
    pub fn is_off_traps(&self, p: Point) -> bool
        ensures { IsTrue result ↔ ((t : ℕ) (q : Point) → StandsAt self.now t q → IsFarther self.now.figures.reach p q) }
    {
        let reach = self.figures().reach;
        let zones = self.ruled_zones();
        for zone in zones {
            if !is_off(*zone, reach, p) {
                return false;
            }
        }
        true
    }

    /// How long a move takes whose greatest change of a column is `dx` and of a row is `dy`, in nanoseconds.
    ///
    /// It is the least whole t with `accel^2 * t^4 >= (dx^2 + dy^2) * 10^22`, after `t = sqrt(d/a)`.
    pub fn move_time(&self, dx: u32, dy: u32) -> u64
        requires dx_most { dx ≤ 1000000 }
        requires dy_most { dy ≤ 1000000 }
        ensures { IsMoveTime self.now.figures.accel dx dy result }
    {
        let figures = self.figures();
        least_time(figures.accel, dx, dy)
    }
}
