// The shelves of workers are made of passes and stations, and taken apart again.
ghost use Rattle.std.specs.Prelude.{All, Contains, IfOk, [], map, vec_capacity, vec_len, ◌≡◌, ◌≤◌};
ghost use Rattle.store_rule.specs.Closing.{IsResting};
ghost use Rattle.store_rule.specs.Passes.{basis};
ghost use Rattle.worker_shelf.specs.Shelves.{AllFree, IsRoomFor, OnShelf};
ghost use Rattle.rock_run.specs.Crews.{AreShelvesOf, MayRest};

use rock_disk::{Cell, Station};
use rock_io::Memory;
use std::alloc::Global;
use store_rule::{Origin, Pass, Store};
use worker_shelf::{ShelfRoom, WorkerShelf};

/// Allocates room for `count` shelves of a store with slots of `slot` bytes.
pub(crate) fn make_rooms(alloc: Global, slot: u32, count: usize) -> Result<Vec<ShelfRoom>, Memory>
    ensures many { IfOk result (λ rooms. vec_len rooms ≡ count) }
    ensures each { IfOk result (λ rooms. All (IsRoomFor slot) rooms.items) }
{
    let mut rooms = Vec::with_capacity(alloc, count)?;
    for _ in 0..count {
        rooms.push_reserved(ShelfRoom::new(alloc, slot)?);
    }
    Ok(rooms)
}

/// Makes a shelf of each pass and the station at its place. The vectors of passes and stations are empty then, with their
/// room.
pub(crate) fn hire<'a, C: Cell, O: Origin, St: Station<C = C>>(
    store: &'a Store<C, O>,
    passes: &mut Vec<Pass<C>>,
    stations: &mut Vec<St>,
    mut rooms: Vec<ShelfRoom>,
    shelves: &mut Vec<WorkerShelf<'a, C, O, St>>,
)
    requires may { All (MayRest C.tells C.state O.offers store.now) passes.old.items }
    requires stations { vec_len stations.old ≡ vec_len passes.old }
    requires rooms { vec_len rooms ≡ vec_len passes.old }
    requires sized { All (IsRoomFor (basis C.tells C.state O.offers store.now).slot) rooms.items }
    requires empty { shelves.old.items ≡ [] }
    requires room { vec_len passes.old ≤ vec_capacity shelves.old }
    ensures hired { AreShelvesOf store.now passes.old.items stations.old.items shelves.new.items }
    ensures emptied { (passes.new.items ≡ []) × (stations.new.items ≡ []) }
    ensures room { (vec_capacity passes.new ≡ vec_capacity passes.old) × (vec_capacity stations.new ≡ vec_capacity stations.old) }
{
    for _ in 0..passes.len() {
        let (pass, station) = (passes.remove(0), stations.remove(0));
        shelves.push_reserved(WorkerShelf::with_room(store, pass, station, rooms.remove(0)));
    }
    rooms.destroy_empty();
}

/// Takes shelves apart whose tabs are free. There is room for their passes and stations.
pub(crate) fn dismiss<C: Cell, O: Origin, St: Station<C = C>>(
    mut shelves: Vec<WorkerShelf<'_, C, O, St>>,
    passes: &mut Vec<Pass<C>>,
    stations: &mut Vec<St>,
)
    requires free { (shelf : OnShelf C O St) → Contains shelves.items shelf → AllFree shelf.pass }
    requires empty { (passes.old.items ≡ []) × (stations.old.items ≡ []) }
    requires room { (vec_len shelves ≤ vec_capacity passes.old) × (vec_len shelves ≤ vec_capacity stations.old) }
    ensures passes { passes.new.items ≡ map (λ (shelf : OnShelf C O St). shelf.pass) shelves.entry.items }
    ensures stations { stations.new.items ≡ map (λ (shelf : OnShelf C O St). shelf.station) shelves.entry.items }
    ensures rest { All (λ (shelf : OnShelf C O St). MayRest C.tells C.state O.offers shelf.store shelf.pass) shelves.entry.items }
{
    for _ in 0..shelves.len() {
        let (pass, station) = shelves.remove(0).into_parts();
        passes.push_reserved(pass);
        stations.push_reserved(station);
    }
    shelves.destroy_empty();
}
