//! A least assignment of a worked table: that the call succeeds where there is memory.

ghost use Rattle.std.specs.Prelude.{◌≤◌};

use std::alloc::Global;
use std::test::Fail;
use zac_assign::{Costs, assign};
use zac_gates::List;

/// The column of each row.
fn columns(alloc: Global, costs: &Costs) -> Option<List<u32>>
    requires { costs.now.rows ≤ costs.now.columns }
{
    match assign(alloc, costs) {
        Ok(assigned) => Some(assigned.columns),
        Err(_memory) => None,
    }
}

#[test]
fn takes_the_two_that_cost_less_together(rt: HostRuntime) -> Result<(), Fail> {
    let mut costs = Costs::new(rt.alloc(), 2, 2).ok().ok_or("memory")?;
    costs.set(0, 0, 210);
    costs.set(0, 1, 230);
    costs.set(1, 0, 220);
    costs.set(1, 1, 310);
    let chosen = columns(rt.alloc(), &costs).ok_or("memory")?;
    assert_eq!(rt; chosen.as_slice(), [1, 0].as_slice());
    assert_eq!(rt; costs.cost(0, 1) + costs.cost(1, 0), 450);
    Ok(())
}
