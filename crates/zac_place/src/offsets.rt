//! How far traps are apart, and the storage traps by their nearness to site 0.

ghost use Rattle.std.specs.Prelude.{◌≡◌, ◌+◌, ◌<◌, ◌≤◌, All, IfOk, map, vec_len};
ghost use Rattle.std.specs.List.{range_with_len};
ghost use Rattle.zac_arch.specs.Architecture.{storage_count, trap_count};
ghost use Rattle.zac_arch.specs.Distances.{difference};
ghost use Rattle.zac_place.specs.Homes.{IsFilledBefore, IsOrderBelow, rise, run};
ghost use Rattle.zac_place.specs.Ranks.{IsRanked, number_of};
ghost use Rattle.zac_world.specs.Nearest.{point_of, trap_distance};

use std::alloc::Global;
use zac_arch::{Card, Point, SiteId, TrapId, laws_of_traps};
use zac_memory::Memory;

/// Where a trap stands, at most 1,000,000 in x and in y.
pub(crate) fn point_of(card: &Card, t: TrapId) -> Point
    requires { t.0 < trap_count card.now }
    ensures point { result ≡ point_of card.now t.0 }
    ensures x_most { result.x ≤ 1000000 }
    ensures y_most { result.y ≤ 1000000 }
{
    laws_of_traps(card);
    card.point(t)
}

/// How far two points of the field are apart in x, and how far in y, added.
pub(crate) fn apart(p: Point, q: Point) -> u32
    requires first_x { p.x ≤ 1000000 }
    requires first_y { p.y ≤ 1000000 }
    requires second_x { q.x ≤ 1000000 }
    requires second_y { q.y ≤ 1000000 }
    ensures apart { result ≡ difference p.x q.x + difference p.y q.y }
    ensures most { result ≤ 2000000 }
{
    p.x.abs_diff(q.x) + p.y.abs_diff(q.y)
}

/// The distance of two traps: how far they are apart in x, and how far in y, added.
pub(crate) fn distance(card: &Card, s: TrapId, t: TrapId) -> u32
    requires first { s.0 < trap_count card.now }
    requires second { t.0 < trap_count card.now }
    ensures distance { result ≡ trap_distance card.now s.0 t.0 }
    ensures most { result ≤ 2000000 }
{
    let p = point_of(card, s);
    let q = point_of(card, t);
    p.x.abs_diff(q.x) + p.y.abs_diff(q.y)
}

/// A storage trap, and how near to site 0 it is.
#[derive(Clone, Copy, Debug, PartialEq, Eq, PartialOrd, Ord)]
pub(crate) struct RankedTrap {
    /// How far it and the left trap of site 0 are apart in y.
    pub(crate) rise: u32,
    /// How far they are apart in x.
    pub(crate) run: u32,
    /// Its number.
    pub(crate) number: u32,
}

impl RankedTrap {
    /// A storage trap with its nearness.
    fn of(card: &Card, t: TrapId) -> RankedTrap
        requires { t.0 < trap_count card.now }
        ensures ranked { IsRanked card.now result }
        ensures number { result.number ≡ t.0 }
    {
        // Its contract says that the card keeps all rules.
        let _rules = card.figures();
        let (origin, _) = card.site_traps(SiteId(0));
        let p = point_of(card, t);
        let q = point_of(card, origin);
        RankedTrap {
            rise: p.y.abs_diff(q.y),
            run: p.x.abs_diff(q.x),
            number: t.0,
        }
    }
}

/// The storage traps by rising number.
fn ranked_traps(alloc: Global, card: &Card) -> Result<Vec<RankedTrap>, Memory>
    ensures ranked { IfOk result (λ ranked. All (IsRanked card.now) ranked.items) }
    ensures numbers { IfOk result (λ ranked. map number_of ranked.items ≡ range_with_len 0 (storage_count card.now)) }
{
    laws_of_traps(card);
    let mut ranked = Vec::new(alloc);
    for t in 0..card.storage_traps() {
        ranked.push(RankedTrap::of(card, TrapId(t)))?;
    }
    Ok(ranked)
}

/// The storage traps in the order of their filling.
pub(crate) fn traps_by_filling(alloc: Global, card: &Card) -> Result<Vec<RankedTrap>, Memory>
    ensures order { IfOk result (λ traps. IsOrderBelow (IsFilledBefore card.now) (storage_count card.now) (map number_of traps.items)) }
    ensures number { IfOk result (λ traps. vec_len traps ≡ storage_count card.now) }
{
    let mut ranked = ranked_traps(alloc, card)?;
    ranked.sort()?;
    Ok(ranked)
}
