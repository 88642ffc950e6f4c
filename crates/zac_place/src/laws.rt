//! What prices tell, as a law.

ghost use Rattle.zac_place.specs.Placing.{PricesBoundEveryPlacing};

/// Prices as [`crate::returns`] and [`crate::gate_sites`] answer them bound every other placing, whatever is offered.
pub fn prices_bound_every_placing()
    ensures { PricesBoundEveryPlacing }
{}
