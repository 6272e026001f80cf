// The cells go into the places of a table and come out again.
ghost use Rattle.std.specs.Prelude.{◌≡◌, ◌≤◌, [], IfOk, List, OnErr, Some, map, vec_len, vec_capacity};
ghost use Rattle.std.specs.Mem.Slots.{IsFull, slots_items, slots_len};

use atomic_table::Closed;
use std::alloc::{AllocError, Global};

/// The cells, each in a place, in their order. The emptied vector keeps its room. Where there is no
/// memory for the places the cells stay where they are.
pub fn to_places<C: Drop>(alloc: Global, cells: &mut Vec<C>) -> Result<Vec<Option<C>>, AllocError>
    ensures ok { IfOk result (λ places. (places.items ≡ map Some cells.old.items) × (cells.new.items ≡ []) × (vec_len cells.new ≡ 0)) }
    ensures err { OnErr result (cells.new.items ≡ cells.old.items) }
    ensures room { IfOk result (λ places. vec_len places ≤ vec_capacity cells.new) }
{
    cells.reserve(0)?;
    let mut places = Vec::with_capacity(alloc, cells.len())?;
    while let Some(cell) = cells.pop() {
        let Ok(()) = places.push(Some(cell)) else {
            unreachable!()
        };
    }
    places.reverse();
    Ok(places)
}

/// The cells of these places, each of which has one, in their order, in the vector that they came in.
pub fn from_places<C: Drop>(mut places: Vec<Option<C>>, cells: &mut Vec<C>)
    requires full { (row : List C) × (places.items ≡ map Some row) }
    requires empty { cells.old.items ≡ [] }
    requires room { vec_len places ≤ vec_capacity cells.old }
    ensures { places.items ≡ map Some cells.new.items }
{
    places.reverse();
    while let Some(place) = places.pop() {
        let Some(cell) = place else { unreachable!() };
        let Ok(()) = cells.push(cell) else {
            unreachable!()
        };
    }
}

/// The cells of a table that is shared no more, each place of which has one, in their order, in this
/// emptied vector.
pub fn take_cells<C: Drop>(mut closed: Closed<Option<C>, Global>, mut cells: Vec<C>) -> Vec<C>
    requires full { IsFull closed.slots }
    requires each { (row : List C) × (slots_items closed.slots ≡ map Some row) }
    requires empty { (cells.items ≡ []) × (vec_len cells ≡ 0) }
    requires room { slots_len closed.slots ≤ vec_capacity cells }
    ensures { slots_items closed.slots ≡ map Some result.items }
{
    let count = closed.slot_count();
    for at in 0..count {
        let Some(cell) = closed.take(at) else {
            unreachable!()
        };
        let Ok(()) = cells.push(cell) else {
            unreachable!()
        };
    }
    closed.free();
    cells
}
