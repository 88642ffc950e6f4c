//! What holds of all groups.

ghost use Rattle.std.specs.Prelude.{◌≡◌, List};
ghost use Rattle.zac_group.specs.declared.shift.Shift.{Shift};
ghost use Rattle.zac_group.specs.FirstFit.{IsGrouping};
ghost use Rattle.zac_group.specs.Groups.{MoveGroup};

use zac_arch::Card;

/// The law of groups: moves have one grouping on a card at most.
pub fn one_grouping(card: &Card)
    ensures { (shifts : List Shift) → (groups others : List MoveGroup)
        → IsGrouping card.now shifts groups → IsGrouping card.now shifts others → groups ≡ others }
{
    let _ = card;
}
