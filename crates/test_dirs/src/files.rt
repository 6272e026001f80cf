// The files of a cache in memory, and the stations that work on them.
ghost use Rattle.std.specs.Prelude.{IfSome, IsTrue, OnOk, OnSome, [], codes, length, vec_capacity, vec_len, ◌+◌, ◌<◌, ◌≡◌, ◌≤◌};
ghost use Rattle.rock_disk.specs.File.{IsThere, NoneAway};
ghost use Rattle.test_dirs.specs.Offered.{AreFiles, IsFile, offers_in};

use crate::shelf::{Ask, told_all};
use dir_set::Dirs;
use rock_disk::{Cell, StationFault, Volume, opened_cells_are_the_files};
use rock_open::{OpenStore, open_store};
use std::alloc::Global;
use std::sync::Wait;
use store_rule::{Origin, Pass, Store};

/// A store of the file of a volume, which is then open, and its one pass.
pub fn opened<V: Volume, O: Origin>(
    alloc: Global,
    volume: &mut V,
    origin: O,
    first: &[u8],
    second: &[u8],
    body: &[u8],
) -> Option<(Store<V::C, O>, Pass<V::C>)>
    requires home { IsTrue V.tells → NoneAway (V.files volume.old) }
    requires offers { O.offers origin ≡ offers_in first.now second.now body.now }
    ensures file { IfSome result (λ r. IsFile V.C.tells V.C.state O.offers 3 (offers_in first.now second.now body.now) r.0 r.1) }
    ensures there { OnSome result (IsTrue V.tells → IsThere (V.files volume.new) (codes "db")) }
{
    opened_cells_are_the_files();
    let Ok(open) = open_store(alloc, volume, "db", 512, 1, 1, origin) else {
        return None;
    };
    let OpenStore {
        store,
        mut passes,
        header: _,
    } = open;
    let Some(pass) = passes.pop() else {
        return None;
    };
    Some((store, pass))
}

/// One more file of a cache.
pub fn add<C: Cell, O: Origin>(
    stores: &mut Vec<Store<C, O>>,
    passes: &mut Vec<Pass<C>>,
    store: Store<C, O>,
    pass: Pass<C>,
    first: &[u8],
    second: &[u8],
    body: &[u8],
) -> Option<()>
    requires files { AreFiles C.tells C.state O.offers 3 (offers_in first.now second.now body.now) stores.old.items passes.old.items }
    requires file { IsFile C.tells C.state O.offers 3 (offers_in first.now second.now body.now) store pass }
    ensures files { OnSome result (AreFiles C.tells C.state O.offers 3 (offers_in first.now second.now body.now) stores.new.items passes.new.items) }
    ensures many { OnSome result (vec_len stores.new ≡ vec_len stores.old + 1) }
{
    let Ok(()) = stores.push(store) else {
        return None;
    };
    let Ok(()) = passes.push(pass) else {
        return None;
    };
    Some(())
}

/// Asks one thing after the other of a cache over these files, with a station for each from one volume.
pub fn told_over<R: Wait, V: Volume, O: Origin>(
    rt: &R,
    alloc: Global,
    devices: &mut V,
    stores: Vec<Store<V::C, O>>,
    passes: Vec<Pass<V::C>>,
    first: &[u8],
    second: &[u8],
    body: &[u8],
    asks: &[(Ask, bool)],
) -> Option<String>
    requires there { IsTrue V.tells → IsThere (V.files devices.old) (codes "db") }
    requires files { AreFiles V.C.tells V.C.state O.offers 3 (offers_in first.now second.now body.now) stores.items passes.items }
    requires some { 0 < vec_len stores }
    requires few { vec_len stores ≤ 8 }
{
    let dirs = Dirs::from_stores(stores);
    let mut pass = dirs.pass(passes);
    let count = dirs.count() as usize;
    let Ok(mut stations) = Vec::with_capacity(alloc, count) else {
        return None;
    };
    let text = match make_stations(devices, count, &mut stations) {
        Ok(()) => told_all(
            rt,
            alloc,
            &dirs,
            &mut pass,
            &mut stations,
            first,
            second,
            body,
            asks,
        ),
        Err(_) => None,
    };
    end_stations(devices, stations);
    text
}

// Makes so many stations. There is room for them.
fn make_stations<V: Volume>(
    volume: &mut V,
    count: usize,
    stations: &mut Vec<V::St>,
) -> Result<(), StationFault>
    requires there { IsTrue V.tells → IsThere (V.files volume.old) (codes "db") }
    requires empty { stations.old.items ≡ [] }
    requires room { count ≤ vec_capacity stations.old }
    ensures all { OnOk result (vec_len stations.new ≡ count) }
    ensures made { V.made volume.new ≡ V.made volume.old + vec_len stations.new }
    ensures ended { V.ended volume.new ≡ V.ended volume.old }
{
    for _ in 0..count {
        stations.push_reserved(volume.station("db")?);
    }
    Ok(())
}

// Ends stations.
fn end_stations<V: Volume>(volume: &mut V, mut stations: Vec<V::St>)
    requires { length (V.ended volume.old) + vec_len stations ≤ V.made volume.old }
{
    for _ in 0..stations.len() {
        volume.end_station(stations.remove(0));
    }
    stations.destroy_empty();
}
