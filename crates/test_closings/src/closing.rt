// The script of one worker is served on a store, which is then closed and counted.
ghost use Rattle.std.specs.Prelude.{IsTrue, ◌≡◌};
ghost use Rattle.rock_disk.specs.File.{NoneAway};
ghost use Rattle.rock_run.specs.Crews.{MayRest};
ghost use Rattle.rock_run.specs.Offered.{offers_of};
ghost use Rattle.rock_run.specs.Scripts.{MayBeServed};
ghost use Rattle.store_rule.specs.Passes.{basis, view};

use pass_laws::new_passes_rest;
use rock_disk::{Cell, Station, Volume, opened_cells_are_the_files};
use rock_open::{Counted, OpenStore, close_counted, open_store};
use rock_run::{ScriptOrigin, script_lines_may_be_asked};
use script_text::{Request, Script, Shelf};
use std::alloc::Global;
use std::sync::Wait;
use store_rule::{Pass, Store};
use worker_shelf::WorkerShelf;

/// Serves the lines of a script on the first pass of a store, in their order, but for those of marks, and leaves all tabs. A line for
/// which memory is wanting is passed over.
pub(crate) fn serve_all<R: Wait, C: Cell + Send, St: Station<C = C>>(
    rt: &R,
    alloc: Global,
    store: &Store<C, ScriptOrigin>,
    pass: Pass<C>,
    station: St,
    script: &Script,
) -> (Pass<C>, St)
    requires may { MayRest C.tells C.state offers_of store.now pass }
    requires number { (view pass).pass ≡ 0 }
    requires offers { (basis C.tells C.state offers_of store.now).offers ≡ offers_of script.now.lines }
    requires lines { MayBeServed 1 script.now.lines }
    ensures may { MayRest C.tells C.state offers_of store.now result.0 }
    ensures number { (view result.0).pass ≡ (view pass).pass }
{
    script_lines_may_be_asked::<C, ScriptOrigin>();
    let mut shelf = match WorkerShelf::new(alloc, store, pass, station) {
        Ok(shelf) => shelf,
        Err(back) => return back,
    };
    for line in script.lines.as_slice() {
        if let Request::Mark { .. } | Request::Await { .. } = line.request {
            continue;
        }
        let _ = shelf.serve(rt, alloc, line);
    }
    shelf.leave_all();
    shelf.into_parts()
}

/// Serves the script of one worker over the file `db` of a volume, opened with so many anchors, and closes the store.
pub(crate) fn left_by<R: Wait, V: Volume>(
    rt: &R,
    alloc: Global,
    volume: &mut V,
    anchors: u32,
    script: &Script,
) -> Option<Counted<V::C>>
    requires home { IsTrue V.tells → NoneAway (V.files volume.old) }
    requires lines { MayBeServed 1 script.now.lines }
{
    new_passes_rest::<V::C, ScriptOrigin>();
    opened_cells_are_the_files();
    let origin = ScriptOrigin::new(script);
    let Ok(open) = open_store(alloc, volume, "db", 512, anchors, 1, origin) else {
        return None;
    };
    let OpenStore {
        store,
        mut passes,
        header: _,
    } = open;
    let Ok(station) = volume.station("db") else {
        return None;
    };
    let Some(pass) = passes.pop() else {
        unreachable!()
    };
    let (pass, station) = serve_all(rt, alloc, &store, pass, station, script);
    passes.push_reserved(pass);
    volume.end_station(station);
    Some(close_counted(store, passes))
}
