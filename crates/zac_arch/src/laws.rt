//! What holds of the traps of every card.

ghost use Rattle.std.specs.Prelude.{◌≡◌, ℕ, ◌+◌, ◌*◌, ◌<◌, ◌≤◌, ◌≢◌};
ghost use Rattle.zac_arch.specs.declared.place.Point.{Point};
ghost use Rattle.zac_arch.specs.Architecture.{trap_count, storage_count, site_count, StandsAt, left_trap, right_trap, IsTrapOf, IsInZone, IsLit};
ghost use Rattle.zac_arch.specs.Distances.{IsWithin, IsFarther};
ghost use Rattle.zac_arch.specs.Parking.{IsCorner, IsParkedBeside};

use crate::card::Card;

/// The laws of a card's traps: how many there are, that no two stand at one point nor within reach of each
/// other, that a beam parked beyond a trap is on the field, that a pulse lights just the traps of sites, and
/// that two of these are within the blockade radius exactly where they are of one site.
pub fn laws_of_traps(card: &Card)
    ensures counts { trap_count card.now ≡ storage_count card.now + 2 * site_count card.now }
    ensures one_trap { (t u : ℕ) → (p : Point)
        → StandsAt card.now t p → StandsAt card.now u p → t ≡ u }
    ensures apart { (t u : ℕ) → (p q : Point) → t ≢ u
        → StandsAt card.now t p → StandsAt card.now u q → IsFarther card.now.figures.reach p q }
    ensures on_the_field { (t : ℕ) → (p : Point) → StandsAt card.now t p
        → (p.x + card.now.figures.park ≤ 1000000) × (p.y + card.now.figures.park ≤ 1000000) }
    ensures storage_dark { (t : ℕ) → (p : Point)
        → t < storage_count card.now → StandsAt card.now t p → ¬ IsLit card.now p }
    ensures sites_lit { (t : ℕ) → (p : Point)
        → storage_count card.now ≤ t → StandsAt card.now t p → IsLit card.now p }
    ensures site_within { (s : ℕ) → (p q : Point) → s < site_count card.now
        → StandsAt card.now (left_trap card.now s) p → StandsAt card.now (right_trap card.now s) q
        → IsWithin card.now.figures.radius p q }
    ensures one_site { (s r t u : ℕ) → (p q : Point)
        → IsTrapOf card.now s t → IsTrapOf card.now r u → StandsAt card.now t p → StandsAt card.now u q
        → IsWithin card.now.figures.radius p q → s ≡ r }
{
    let _rules = card.figures();
}

/// Where beams come to rest at traps and beside them: no two such points of different traps are within reach of
/// each other, and no point beside a trap is within reach of any trap.
pub fn laws_of_parking(card: &Card)
    ensures corners_apart { (t u : ℕ) → (p q r s : Point) → t ≢ u
        → StandsAt card.now t p → StandsAt card.now u q
        → IsCorner card.now.figures.park p r → IsCorner card.now.figures.park q s
        → IsFarther card.now.figures.reach r s }
    ensures parked_apart { (t u : ℕ) → (p q r : Point)
        → StandsAt card.now t p → StandsAt card.now u q
        → IsParkedBeside card.now.figures.park p r → IsFarther card.now.figures.reach r q }
{
    let _rules = card.figures();
}

/// The laws of a zone: no trap is in two zones; a zone with a storage trap has no others; the traps of a zone are a full grid, so that one stands in the column of any of
/// them and the row of any other; and between two columns of a zone, as between two rows, there is room for a parked beam and
/// the gap beside it.
pub fn laws_of_zones(card: &Card)
    ensures one_zone { (t m n : ℕ) → IsInZone card.now t m → IsInZone card.now t n → m ≡ n }
    ensures one_kind { (zone t u : ℕ) → (p q : Point)
        → IsInZone card.now t zone → IsInZone card.now u zone → StandsAt card.now t p → StandsAt card.now u q
        → t < storage_count card.now → u < storage_count card.now }
    ensures grid { (zone t u : ℕ) → (p q : Point)
        → IsInZone card.now t zone → IsInZone card.now u zone → StandsAt card.now t p → StandsAt card.now u q
        → (v : ℕ) × IsInZone card.now v zone × StandsAt card.now v (record { x = p.x; y = q.y }) }
    ensures columns { (zone t u : ℕ) → (p q : Point)
        → IsInZone card.now t zone → IsInZone card.now u zone → StandsAt card.now t p → StandsAt card.now u q
        → p.x < q.x → p.x + card.now.figures.park + card.now.figures.gap ≤ q.x }
    ensures rows { (zone t u : ℕ) → (p q : Point)
        → IsInZone card.now t zone → IsInZone card.now u zone → StandsAt card.now t p → StandsAt card.now u q
        → p.y < q.y → p.y + card.now.figures.park + card.now.figures.gap ≤ q.y }
{
    let _rules = card.figures();
}
