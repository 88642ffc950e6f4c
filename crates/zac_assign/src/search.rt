//! The search for the column of one more row, along pairs that cost just their prices.

ghost use Rattle.std.specs.Prelude.{ℕ, ◌≡◌, ◌≢◌, ◌+◌, ◌<◌, ◌≤◌, ◌⊎◌, ◌^◌, None, Some, true, false, length, IfSome, IfNone, IfOk, IsSome, OnOk, slice_index, vec_len};
ghost use Rattle.zac_assign.specs.Assignment.{cost_at};
ghost use Rattle.zac_pairing.specs.Pairing.{mate, free_count};
ghost use Rattle.zac_pairing.specs.Tree.{left_at};
ghost use Rattle.zac_assign.specs.Search.{unused_count};
ghost use Rattle.zac_assign.specs.Search.{is_used, ArePrices, IsSearch, IsFound, IsNearest, RaisesRows, RaisesColumns, Relaxes};

use crate::table::Costs;
use std::alloc::{AllocError, Global};
use zac_pairing::{End, Pairing, Step, flip};

/// What a search works in: for each column whether it is in the tree, its distance and the place
/// that it is nearest to, and the rows of the tree.
#[derive(Drop)]
pub struct Room {
    pub used: Vec<bool>,
    pub distance: Vec<u32>,
    pub from: Vec<usize>,
    pub steps: Vec<Step>,
}

impl Room {
    /// The room for so many columns.
    pub fn new(alloc: Global, columns: usize) -> Result<Room, AllocError>
        ensures used_len { IfOk result (λ room. vec_len room.used ≡ columns) }
        ensures distance_len { IfOk result (λ room. vec_len room.distance ≡ columns) }
        ensures from_len { IfOk result (λ room. vec_len room.from ≡ columns) }
    {
        Ok(Room {
            used: vec![in alloc; false; columns]?,
            distance: vec![in alloc; 0; columns]?,
            from: vec![in alloc; 0; columns]?,
            steps: Vec::new(alloc),
        })
    }
}

/// Whether a column is better than the best so far: it is nearer, or as near and has no row.
fn is_better(best: Option<u32>, least: u32, distance: u32, has_row: bool) -> bool
    ensures yes { result ≡ true → (best ≡ None) ⊎ (distance ≤ least) }
    ensures no { result ≡ false → IsSome best × (least ≤ distance) }
{
    best.is_none() || distance < least || (distance == least && !has_row)
}

/// The nearest column that is not in the tree, if there is one. Of several it takes one that has no row, where there is
/// one: there the search ends, in place of going on from row to row at the same distance.
fn nearest(pairs: &Pairing, room: &Room) -> Option<u32>
    requires rows_len { vec_len pairs.now.right ≡ vec_len room.now.distance }
    requires same_len { vec_len room.now.used ≡ vec_len room.now.distance }
    requires few { vec_len room.now.distance < 2 ^ 32 }
    ensures found { IfSome result (IsNearest room.now.used.items room.now.distance.items) }
    ensures none { IfNone result ((c : ℕ) → c < vec_len room.now.distance →
        is_used room.now.used.items c ≢ false) }
{
    let mut best = None;
    let mut least = u32::MAX;
    for column in 0..room.distance.len() {
        let distance = room.distance[column];
        if !room.used[column] && is_better(best, least, distance, pairs.right[column].is_some()) {
            best = Some(column as u32);
            least = distance;
        }
    }
    best
}

/// Raises the prices of the rows in the tree.
fn raise_rows(price: &mut [u32], room: &Room, by: u32)
    requires inside { (k : ℕ) → k < length room.now.steps.items →
        left_at room.now.steps.items k < length price.old }
    requires fits { (k : ℕ) → k < length room.now.steps.items →
        slice_index price.old (left_at room.now.steps.items k) + by < 2 ^ 32 }
    requires distinct { (i j : ℕ) → i < j → j < length room.now.steps.items →
        left_at room.now.steps.items i ≢ left_at room.now.steps.items j }
    ensures { RaisesRows room.now.steps.items (length room.now.steps.items) by price.old price.new }
{
    for step in &room.steps {
        price[step.left as usize] += by;
    }
}

/// Raises the fees of the columns in the tree, by as much.
fn raise_columns(fee: &mut [u32], pairs: &Pairing, room: &Room, by: u32)
    requires rows_in { (k : ℕ) → k < length room.now.steps.items →
        left_at room.now.steps.items k < vec_len pairs.now.left }
    requires inside { (k c : ℕ) → k < length room.now.steps.items →
        mate pairs.now.left.items (left_at room.now.steps.items k) ≡ Some c → c < length fee.old }
    requires fits { (k c : ℕ) → k < length room.now.steps.items →
        mate pairs.now.left.items (left_at room.now.steps.items k) ≡ Some c →
        slice_index fee.old c + by < 2 ^ 32 }
    requires distinct { (i j c : ℕ) → i < j → j < length room.now.steps.items →
        mate pairs.now.left.items (left_at room.now.steps.items i) ≡ Some c →
        mate pairs.now.left.items (left_at room.now.steps.items j) ≢ Some c }
    ensures { RaisesColumns pairs.now.left.items room.now.steps.items
        (length room.now.steps.items) by fee.old fee.new }
{
    for step in &room.steps {
        if let Some(column) = pairs.left[step.left as usize] {
            fee[column as usize] += by;
        }
    }
}

/// Forgets the last search, and takes the distances from a row whose price is 0.
fn begin(costs: &Costs, fee: &[u32], room: &mut Room, row: u32)
    requires row_in { row < costs.now.rows }
    requires fee_len { length fee.now ≡ costs.now.columns }
    requires used_len { vec_len room.old.used ≡ costs.now.columns }
    requires distance_len { vec_len room.old.distance ≡ costs.now.columns }
    requires from_len { vec_len room.old.from ≡ costs.now.columns }
    requires fits { (c : ℕ) → c < costs.now.columns → slice_index fee.now c ≤ 8000000 }
    ensures used_len { vec_len room.new.used ≡ costs.now.columns }
    ensures distance_len { vec_len room.new.distance ≡ costs.now.columns }
    ensures from_len { vec_len room.new.from ≡ costs.now.columns }
    ensures steps { length room.new.steps.items ≡ 0 }
    ensures used { (c : ℕ) → is_used room.new.used.items c ≡ false }
    ensures distance { (c : ℕ) → c < costs.now.columns →
        slice_index room.new.distance.items c ≡ cost_at costs.now row c + slice_index fee.now c }
    ensures from { (c : ℕ) → c < costs.now.columns → slice_index room.new.from.items c ≡ 0 }
{
    for column in 0..costs.columns() {
        let at = column as usize;
        room.used[at] = false;
        room.distance[at] = costs.cost(row, column) + fee[at];
        room.from[at] = 0;
    }
    room.steps.clear();
}

/// A row has joined the tree at a place: brings the columns nearer that it pays less for.
fn relax(
    costs: &Costs,
    fee: &[u32],
    price: u32,
    room: &mut Room,
    row: u32,
    place: usize,
    raised: u32,
)
    requires row_in { row < costs.now.rows }
    requires fee_len { length fee.now ≡ costs.now.columns }
    requires used_len { vec_len room.old.used ≡ costs.now.columns }
    requires distance_len { vec_len room.old.distance ≡ costs.now.columns }
    requires from_len { vec_len room.old.from ≡ costs.now.columns }
    requires fits { (c : ℕ) → c < costs.now.columns → slice_index fee.now c ≤ 8000000 }
    requires raised_fits { raised ≤ 8000000 }
    requires bound { (c : ℕ) → c < costs.now.columns →
        price ≤ cost_at costs.now row c + slice_index fee.now c }
    ensures used { room.new.used ≡ room.old.used }
    ensures distance_len { vec_len room.new.distance ≡ costs.now.columns }
    ensures from_len { vec_len room.new.from ≡ costs.now.columns }
    ensures steps { room.new.steps ≡ room.old.steps }
    ensures relaxed { (c : ℕ) → c < costs.now.columns → is_used room.old.used.items c ≡ false →
        Relaxes costs.now price fee.now row place raised c room.old.distance.items
        room.new.distance.items room.old.from.items room.new.from.items }
{
    for column in 0..costs.columns() {
        let at = column as usize;
        if !room.used[at] {
            let reached = costs.cost(row, column) + fee[at] + raised - price;
            if reached < room.distance[at] {
                room.distance[at] = reached;
                room.from[at] = place;
            }
        }
    }
}

/// Finds the nearest column and raises the prices of the tree until a row of it pays just its price
/// there. The end is that column, and the place of that row.
fn approach(
    costs: &Costs,
    pairs: &Pairing,
    price: &mut [u32],
    fee: &mut [u32],
    room: &Room,
    raised: u32,
) -> End
    requires columns_len { vec_len pairs.now.left ≡ costs.now.rows }
    requires rows_len { vec_len pairs.now.right ≡ costs.now.columns }
    requires price_len { length price.old ≡ costs.now.rows }
    requires fee_len { length fee.old ≡ costs.now.columns }
    requires used_len { vec_len room.now.used ≡ costs.now.columns }
    requires distance_len { vec_len room.now.distance ≡ costs.now.columns }
    requires from_len { vec_len room.now.from ≡ costs.now.columns }
    requires small { (r c : ℕ) → cost_at costs.now r c ≤ 8000000 }
    requires few { costs.now.columns < 2 ^ 32 }
    requires some_free { 0 < free_count pairs.now.right.items }
    requires prices { ArePrices costs.now price.old fee.old pairs.now.left.items
        pairs.now.right.items }
    requires search { IsSearch costs.now price.old fee.old pairs.now.left.items
        room.now.used.items room.now.distance.items room.now.from.items
        room.now.steps.items raised }
    ensures nearest { IsNearest room.now.used.items room.now.distance.items result.right }
    ensures from { result.from ≡ slice_index room.now.from.items result.right }
    ensures prices { ArePrices costs.now price.new fee.new pairs.now.left.items
        pairs.now.right.items }
    ensures search { IsSearch costs.now price.new fee.new pairs.now.left.items
        room.now.used.items room.now.distance.items room.now.from.items room.now.steps.items
        (slice_index room.now.distance.items result.right) }
    ensures from_in { result.from < length room.now.steps.items }
    ensures own { slice_index price.new (left_at room.now.steps.items result.from)
        ≡ cost_at costs.now (left_at room.now.steps.items result.from) result.right
        + slice_index fee.new result.right }
{
    let Some(column) = nearest(pairs, room) else {
        unreachable!()
    };
    let by = room.distance[column as usize] - raised;
    raise_rows(price, room, by);
    raise_columns(fee, pairs, room, by);
    End {
        from: room.from[column as usize],
        right: column,
    }
}

/// The end's column has a row, which joins the tree.
fn join(
    costs: &Costs,
    pairs: &Pairing,
    price: &[u32],
    fee: &[u32],
    room: &mut Room,
    end: End,
    next: u32,
    raised: u32,
) -> Result<(), AllocError>
    requires columns_len { vec_len pairs.now.left ≡ costs.now.rows }
    requires rows_len { vec_len pairs.now.right ≡ costs.now.columns }
    requires price_len { length price.now ≡ costs.now.rows }
    requires fee_len { length fee.now ≡ costs.now.columns }
    requires used_len { vec_len room.old.used ≡ costs.now.columns }
    requires distance_len { vec_len room.old.distance ≡ costs.now.columns }
    requires from_len { vec_len room.old.from ≡ costs.now.columns }
    requires small { (r c : ℕ) → cost_at costs.now r c ≤ 8000000 }
    requires some_free { 0 < free_count pairs.now.right.items }
    requires prices { ArePrices costs.now price.now fee.now pairs.now.left.items
        pairs.now.right.items }
    requires search { IsSearch costs.now price.now fee.now pairs.now.left.items
        room.old.used.items room.old.distance.items room.old.from.items
        room.old.steps.items raised }
    requires column_in { end.right < costs.now.columns }
    requires unused { is_used room.old.used.items end.right ≡ false }
    requires from { end.from ≡ slice_index room.old.from.items end.right }
    requires own { slice_index price.now (left_at room.old.steps.items end.from)
        ≡ cost_at costs.now (left_at room.old.steps.items end.from) end.right
        + slice_index fee.now end.right }
    requires next { mate pairs.now.right.items end.right ≡ Some next }
    ensures used_len { vec_len room.new.used ≡ costs.now.columns }
    ensures distance_len { vec_len room.new.distance ≡ costs.now.columns }
    ensures from_len { vec_len room.new.from ≡ costs.now.columns }
    ensures fewer { OnOk result (unused_count room.new.used.items + 1
        ≡ unused_count room.old.used.items) }
    ensures root { OnOk result (left_at room.new.steps.items 0 ≡ left_at room.old.steps.items 0) }
    ensures search { OnOk result (IsSearch costs.now price.now fee.now pairs.now.left.items
        room.new.used.items room.new.distance.items room.new.from.items
        room.new.steps.items raised) }
{
    let place = room.steps.len();
    room.steps.push(Step {
        left: next,
        from: end.from,
    })?;
    room.used[end.right as usize] = true;
    relax(costs, fee, price[next as usize], room, next, place, raised);
    Ok(())
}

/// Searches for a column of one more row. The prices are raised along the way, by no more than they
/// must be, until the row, or another one whose column it may take, pays just its price at a column
/// that no row has.
fn search(
    costs: &Costs,
    pairs: &Pairing,
    price: &mut [u32],
    fee: &mut [u32],
    room: &mut Room,
    row: u32,
) -> Result<End, AllocError>
    requires row_in { row < costs.now.rows }
    requires columns_len { vec_len pairs.now.left ≡ costs.now.rows }
    requires rows_len { vec_len pairs.now.right ≡ costs.now.columns }
    requires price_len { length price.old ≡ costs.now.rows }
    requires fee_len { length fee.old ≡ costs.now.columns }
    requires used_len { vec_len room.old.used ≡ costs.now.columns }
    requires distance_len { vec_len room.old.distance ≡ costs.now.columns }
    requires from_len { vec_len room.old.from ≡ costs.now.columns }
    requires small { (r c : ℕ) → cost_at costs.now r c ≤ 8000000 }
    requires few { costs.now.columns < 2 ^ 32 }
    requires prices { ArePrices costs.now price.old fee.old pairs.now.left.items
        pairs.now.right.items }
    requires alone { mate pairs.now.left.items row ≡ None }
    requires some_free { 0 < free_count pairs.now.right.items }
    ensures used_len { vec_len room.new.used ≡ costs.now.columns }
    ensures distance_len { vec_len room.new.distance ≡ costs.now.columns }
    ensures from_len { vec_len room.new.from ≡ costs.now.columns }
    ensures prices { OnOk result (ArePrices costs.now price.new fee.new pairs.now.left.items
        pairs.now.right.items) }
    ensures found { IfOk result (λ end. IsFound costs.now price.new fee.new
        pairs.now.left.items pairs.now.right.items room.new.steps.items end.from end.right) }
    ensures root { OnOk result (left_at room.new.steps.items 0 ≡ row) }
{
    begin(costs, fee, room, row);
    room.steps.push(Step { left: row, from: 0 })?;
    price[row as usize] = 0;
    let mut raised = 0;
    loop {
        let end = approach(costs, pairs, price, fee, room, raised);
        raised = room.distance[end.right as usize];
        match pairs.right[end.right as usize] {
            None => return Ok(end),
            Some(next) => join(costs, pairs, price, fee, room, end, next, raised)?,
        }
    }
}

/// Finds a column for one more row.
pub fn add_row(
    costs: &Costs,
    pairs: &mut Pairing,
    price: &mut [u32],
    fee: &mut [u32],
    room: &mut Room,
    row: u32,
) -> Result<(), AllocError>
    requires row_in { row < costs.now.rows }
    requires columns_len { vec_len pairs.old.left ≡ costs.now.rows }
    requires rows_len { vec_len pairs.old.right ≡ costs.now.columns }
    requires price_len { length price.old ≡ costs.now.rows }
    requires fee_len { length fee.old ≡ costs.now.columns }
    requires used_len { vec_len room.old.used ≡ costs.now.columns }
    requires distance_len { vec_len room.old.distance ≡ costs.now.columns }
    requires from_len { vec_len room.old.from ≡ costs.now.columns }
    requires small { (r c : ℕ) → cost_at costs.now r c ≤ 8000000 }
    requires few { costs.now.columns < 2 ^ 32 }
    requires prices { ArePrices costs.now price.old fee.old pairs.old.left.items
        pairs.old.right.items }
    requires alone { mate pairs.old.left.items row ≡ None }
    requires some_free { 0 < free_count pairs.old.right.items }
    ensures columns_len { vec_len pairs.new.left ≡ costs.now.rows }
    ensures rows_len { vec_len pairs.new.right ≡ costs.now.columns }
    ensures used_len { vec_len room.new.used ≡ costs.now.columns }
    ensures distance_len { vec_len room.new.distance ≡ costs.now.columns }
    ensures from_len { vec_len room.new.from ≡ costs.now.columns }
    ensures prices { OnOk result (ArePrices costs.now price.new fee.new pairs.new.left.items
        pairs.new.right.items) }
    ensures fewer { OnOk result (free_count pairs.new.right.items + 1
        ≡ free_count pairs.old.right.items) }
    ensures stay { OnOk result ((r c : ℕ) → mate pairs.old.left.items r ≡ Some c →
        IsSome (mate pairs.new.left.items r)) }
    ensures others { OnOk result ((r : ℕ) → r ≢ row → mate pairs.old.left.items r ≡ None →
        mate pairs.new.left.items r ≡ None) }
    ensures added { OnOk result (IsSome (mate pairs.new.left.items row)) }
{
    let end = search(costs, pairs, price, fee, room, row)?;
    flip(pairs, &room.steps, end);
    Ok(())
}

/// Finds a column for each row, and prices.
pub fn add_rows(
    costs: &Costs,
    pairs: &mut Pairing,
    price: &mut [u32],
    fee: &mut [u32],
    room: &mut Room,
) -> Result<(), AllocError>
    requires enough { costs.now.rows ≤ costs.now.columns }
    requires columns_len { vec_len pairs.old.left ≡ costs.now.rows }
    requires rows_len { vec_len pairs.old.right ≡ costs.now.columns }
    requires price_len { length price.old ≡ costs.now.rows }
    requires fee_len { length fee.old ≡ costs.now.columns }
    requires used_len { vec_len room.old.used ≡ costs.now.columns }
    requires distance_len { vec_len room.old.distance ≡ costs.now.columns }
    requires from_len { vec_len room.old.from ≡ costs.now.columns }
    requires small { (r c : ℕ) → cost_at costs.now r c ≤ 8000000 }
    requires few { costs.now.columns < 2 ^ 32 }
    requires prices { ArePrices costs.now price.old fee.old pairs.old.left.items
        pairs.old.right.items }
    requires alone { (r : ℕ) → mate pairs.old.left.items r ≡ None }
    requires free { free_count pairs.old.right.items ≡ costs.now.columns }
    ensures columns_len { vec_len pairs.new.left ≡ costs.now.rows }
    ensures rows_len { vec_len pairs.new.right ≡ costs.now.columns }
    ensures prices { OnOk result (ArePrices costs.now price.new fee.new pairs.new.left.items
        pairs.new.right.items) }
    ensures all { OnOk result ((r : ℕ) → r < costs.now.rows →
        IsSome (mate pairs.new.left.items r)) }
{
    for row in 0..costs.rows() {
        add_row(costs, pairs, price, fee, room, row)?;
    }
    Ok(())
}
