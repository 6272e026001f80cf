// The lines of two workers are served on a store, which is then closed. Those of the second one are durable purges.
ghost use Rattle.std.specs.Prelude.{IsTrue, ◌+◌, ◌≡◌, ◌≤◌};
ghost use Rattle.rock_disk.specs.File.{NoneAway};
ghost use Rattle.rock_run.specs.Asked.{IsFound};
ghost use Rattle.rock_run.specs.Crews.{MayRest};
ghost use Rattle.rock_run.specs.Offered.{offers_of};
ghost use Rattle.rock_run.specs.Scripts.{MayBeServed};
ghost use Rattle.store_rule.specs.Passes.{basis, view};
ghost use Rattle.worker_shelf.specs.Taking.{Takes};

use lock_word::{Cause, Epoch};
use pass_laws::new_passes_rest;
use purge_entry::{WipeFault, Wiped, purge_durable};
use rock_disk::{Cell, Station, Volume, opened_cells_are_the_files};
use rock_open::{Counted, OpenStore, close_counted, open_store};
use rock_run::{ScriptOrigin, script_lines_may_be_asked};
use script_text::{Line, Request, Script, Shelf};
use std::alloc::Global;
use std::sync::Wait;
use store_rule::{Pass, Store};
use worker_shelf::WorkerShelf;

/// An epoch in words.
fn epoch_text(alloc: Global, epoch: Epoch) -> Option<String> {
    let Epoch {
        version,
        doom,
        stage,
    } = epoch;
    if doom {
        format!(in alloc; "{version} {stage:?} doomed").ok()
    } else {
        format!(in alloc; "{version} {stage:?}").ok()
    }
}

/// Why there was no entry, in words.
fn cause_text(alloc: Global, cause: Cause) -> Option<String> {
    let (word, epoch) = match cause {
        Cause::Absent { epoch } => ("absent", epoch),
        Cause::Writing { epoch } => ("writing", epoch),
        Cause::Leaving { epoch } => ("leaving", epoch),
        Cause::OtherKey { epoch, .. } => ("other", epoch),
    };
    let epoch = epoch_text(alloc, epoch)?;
    format!(in alloc; "NONE {word} {epoch}").ok()
}

/// What came of a durable purge, in words.
fn answer_text(alloc: Global, answer: Result<Wiped, WipeFault>) -> Option<String> {
    let (word, epoch) = match answer {
        Ok(Wiped::Gone { epoch }) => ("WIPED", epoch),
        Ok(Wiped::Later { epoch }) => ("LATER", epoch),
        Err(WipeFault::NoEntry { cause }) => return cause_text(alloc, cause),
        Err(WipeFault::Fault) => return format!(in alloc; "FAULT").ok(),
    };
    let epoch = epoch_text(alloc, epoch)?;
    format!(in alloc; "{word} {epoch}").ok()
}

/// Purges the URL of a line of the second worker, and tells what came of it.
fn wipe_for<C: Cell + Send, St: Station<C = C>>(
    alloc: Global,
    store: &Store<C, ScriptOrigin>,
    pass: &mut Pass<C>,
    station: &mut St,
    script: &Script,
    line: &Line,
) -> Option<String>
    requires may { MayRest C.tells C.state offers_of store.now pass.old }
    requires number { (view pass.old).pass ≡ 1 }
    requires offers { (basis C.tells C.state offers_of store.now).offers ≡ offers_of script.now.lines }
    requires found { IsFound script.now.lines line.now }
    requires worker { line.now.worker ≡ 2 }
    ensures may { MayRest C.tells C.state offers_of store.now pass.new }
    ensures number { (view pass.new).pass ≡ 1 }
{
    script_lines_may_be_asked::<C, ScriptOrigin>();
    let Request::Purge { url } = &line.request else {
        return None;
    };
    let answer = purge_durable(store, pass, station, url.as_slice());
    answer_text(alloc, answer)
}

/// Serves a line of the first worker on its shelf. What it is answered does not matter here.
fn serve_first<R: Wait, C: Cell + Send, St: Station<C = C>>(
    rt: &R,
    alloc: Global,
    shelf: &mut WorkerShelf<'_, C, ScriptOrigin, St>,
    line: &Line,
)
    requires takes { Takes C.tells C.state offers_of shelf.old.store shelf.old.pass line.now }
    ensures store { shelf.new.store ≡ shelf.old.store }
    ensures number { (view shelf.new.pass).pass ≡ (view shelf.old.pass).pass }
{
    let _ = shelf.serve(rt, alloc, line);
}

/// Tells what came of a purge, on a line of its own. Where memory was wanting for it, the line has a question mark.
fn tell(told: &mut String, answer: Option<String>) {
    let text = answer.as_ref().map(|text| text.as_str()).unwrap_or("?");
    let _ = told.push_str(text);
    let _ = told.push_str("\n");
}

/// Serves the lines of a script, in their order: those of the first worker on a shelf, but for those of marks, and those of
/// the second one as durable purges. Then the first worker leaves all tabs. What came of the purges is told, a line for each.
fn serve_all<R: Wait, C: Cell + Send, St: Station<C = C>>(
    rt: &R,
    alloc: Global,
    store: &Store<C, ScriptOrigin>,
    pass: Pass<C>,
    second: &mut Pass<C>,
    station: St,
    second_station: &mut St,
    script: &Script,
    told: &mut String,
) -> (Pass<C>, St)
    requires may { MayRest C.tells C.state offers_of store.now pass }
    requires number { (view pass).pass ≡ 0 }
    requires second { MayRest C.tells C.state offers_of store.now second.old }
    requires second_number { (view second.old).pass ≡ 1 }
    requires offers { (basis C.tells C.state offers_of store.now).offers ≡ offers_of script.now.lines }
    requires lines { MayBeServed 2 script.now.lines }
    ensures may { MayRest C.tells C.state offers_of store.now result.0 }
    ensures number { (view result.0).pass ≡ (view pass).pass }
    ensures second { MayRest C.tells C.state offers_of store.now second.new }
{
    script_lines_may_be_asked::<C, ScriptOrigin>();
    let mut shelf = match WorkerShelf::new(alloc, store, pass, station) {
        Ok(shelf) => shelf,
        Err(back) => return back,
    };
    for line in script.lines.as_slice() {
        if let Request::Mark { .. } | Request::Await { .. } = line.request {
            continue;
        }
        if line.worker == 1 {
            serve_first(rt, alloc, &mut shelf, line);
        } else {
            let answer = wipe_for(alloc, store, second, second_station, script, line);
            tell(told, answer);
        }
    }
    shelf.leave_all();
    shelf.into_parts()
}

/// Serves the script of two workers over the file `db` of a volume, opened with so many anchors, and closes the store. The
/// first station that is made rebuilds, the next one is the first worker's, and then the second worker's is made.
pub(crate) fn left_by<R: Wait, V: Volume>(
    rt: &R,
    alloc: Global,
    volume: &mut V,
    anchors: u32,
    script: &Script,
    told: &mut String,
) -> Option<Counted<V::C>>
    requires home { IsTrue V.tells → NoneAway (V.files volume.old) }
    requires lines { MayBeServed 2 script.now.lines }
{
    new_passes_rest::<V::C, ScriptOrigin>();
    opened_cells_are_the_files();
    let origin = ScriptOrigin::new(script);
    let Ok(open) = open_store(alloc, volume, "db", 512, anchors, 2, origin) else {
        return None;
    };
    let OpenStore {
        store,
        mut passes,
        header: _,
    } = open;
    let Ok(station) = volume.station("db") else {
        return None;
    };
    let Ok(mut second_station) = volume.station("db") else {
        volume.end_station(station);
        return None;
    };
    let Some(mut second) = passes.pop() else {
        unreachable!()
    };
    let Some(pass) = passes.pop() else {
        unreachable!()
    };
    let (pass, station) = serve_all(
        rt,
        alloc,
        &store,
        pass,
        &mut second,
        station,
        &mut second_station,
        script,
        told,
    );
    passes.push_reserved(pass);
    passes.push_reserved(second);
    volume.end_station(station);
    volume.end_station(second_station);
    Some(close_counted(store, passes))
}
