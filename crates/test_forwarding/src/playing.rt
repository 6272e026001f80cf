// The lines of a script are served on a small store. What worker 1 puts is forwarded.
ghost use Rattle.std.specs.Prelude.{All, IfOk, IfSome, IsTrue, map, ◌%◌, ◌+◌, ◌≡◌};
ghost use Rattle.std.specs.List.{range_with_len};
ghost use Rattle.plain_model.specs.Serving.{bytes_of};
ghost use Rattle.rock_disk.specs.File.{NoneAway};
ghost use Rattle.test_forwarding_kit.specs.Shared.{shared_of};
ghost use Rattle.store_rule.specs.Passes.{IsNewOf, basis};
ghost use Rattle.store_serve.specs.Tabs.{IsFree, IsOffered, MayGo};
ghost use Rattle.test_forwarding_kit.specs.Standing.{IsAtWork, IsRead, IsReady, IsScripted};

use collapse::{MemFetcher, forward_within};
use rock_disk::{Cell, Station, Volume, opened_cells_are_the_files};
use rock_io::MemSink;
use rock_open::{OpenStore, open_store};
use script_text::{Body, Line, Request, Script};
use std::alloc::{AllocError, Global};
use std::sync::Wait;
use store_rule::{Pass, Store};
use store_serve::{ScriptTab, add_to_tab, begin_on_tab};
use test_forwarding_kit::{
    Midst, Other, SharedOrigin, forwarded, shared_lines_may_be_asked, spelled, told,
};

/// How often a forwarding may look in vain, and the calls of the fetcher and of the sink that fail. A fetcher and a sink are
/// new for each forwarding.
#[derive(Clone, Copy)]
pub(crate) struct Limits {
    pub(crate) most: u32,
    pub(crate) fetch_fails: u64,
    pub(crate) sink_fails: u64,
}

/// How many bytes a fetcher gives at most in a call. A slot of 512 bytes has room for fewer.
const PIECE: usize = 600;

/// A list of one number.
pub(crate) fn alone(alloc: Global, number: u64) -> Option<Vec<u64>> {
    let mut list = Vec::new(alloc);
    list.push(number).ok()?;
    Some(list)
}

fn letters(alloc: Global, count: u32, shift: u8) -> Result<Vec<u8>, AllocError>
    ensures { IfOk result (λ bytes. bytes.items ≡ map (λ i. 97 + (i + shift) % 26) (range_with_len 0 count)) }
{
    (0..count)
        .map(|i| 97 + ((u64::from(i) + u64::from(shift)) % 26) as u8)
        .collect(alloc)
}

/// The bytes of a body.
fn bytes_of(alloc: Global, body: &Body) -> Result<Vec<u8>, AllocError>
    ensures { IfOk result (λ bytes. bytes.items ≡ bytes_of body.now) }
{
    match body {
        Body::Text(text) => text.as_slice().to_vec(alloc),
        Body::Made { length, shift } => letters(alloc, *length, *shift),
    }
}

/// Forwards what a line offers, and tells the answer, what went to the sink, and how many fetches were started.
fn forward_offer<R: Wait, C: Cell, St: Station<C = C>>(
    rt: &R,
    alloc: Global,
    store: &Store<C, SharedOrigin>,
    pass: &mut Pass<C>,
    station: &mut St,
    limits: &Limits,
    offer: u64,
    url: &[u8],
    body: &Body,
    out: &mut Midst<'_, R, C, St>,
) -> Option<()>
    requires ready { IsReady C.tells C.state shared_of store.now pass.old }
    requires offered { IsOffered C.tells C.state shared_of store.now offer url.now body.now }
    requires goes { MayGo C.tells C.state shared_of store.now pass.old url.now }
    ensures ready { IsReady C.tells C.state shared_of store.now pass.new }
    ensures idle { IsFree pass.old 0 → IsFree pass.new 0 }
{
    let Ok(bytes) = bytes_of(alloc, body) else {
        return None;
    };
    let mut fetcher = MemFetcher::new(bytes, PIECE, alone(alloc, limits.fetch_fails)?);
    let mut buf = [0u8; PIECE];
    if store.slot_size() > 512 {
        return None;
    }
    let answer = forward_within(
        rt,
        store,
        pass,
        station,
        &mut fetcher,
        offer,
        url,
        limits.most,
        &mut buf,
        out,
    );
    let body = spelled(alloc, out.sink.taken())?;
    let answer = forwarded(alloc, &answer)?;
    let text = format!(in alloc; "{answer} {body} {}", fetcher.starts()).ok()?;
    out.other.tell(text.as_str())
}

/// Begins to write what a line offers on tab 0, and adds up to 900 bytes of it.
fn write_offer<R: Wait, C: Cell, St: Station<C = C>>(
    alloc: Global,
    store: &Store<C, SharedOrigin>,
    pass: &mut Pass<C>,
    station: &mut St,
    offer: u64,
    url: &[u8],
    body: &Body,
    out: &mut Midst<'_, R, C, St>,
) -> Option<()>
    requires ready { IsReady C.tells C.state shared_of store.now pass.old }
    requires idle { IsFree pass.old 0 }
    requires offered { IsOffered C.tells C.state shared_of store.now offer url.now body.now }
    requires goes { MayGo C.tells C.state shared_of store.now pass.old url.now }
    ensures { IsReady C.tells C.state shared_of store.now pass.new }
{
    let Ok(begun) = begin_on_tab(alloc, store, pass, 0, ScriptTab::Free, offer, url, body) else {
        return None;
    };
    let added = add_to_tab(store, pass, station, 0, begun.tab, 900);
    let begun = told(alloc, &begun.answer)?;
    let added = told(alloc, &added.answer)?;
    let text = format!(in alloc; "{begun} {added}").ok()?;
    out.other.tell(text.as_str())
}

/// Serves a line of worker 1: a `put` line is forwarded, and a `begin` line begins an entry on tab 0, where that was not used
/// yet. Answers whether that is so still.
fn serve_line<R: Wait, C: Cell, St: Station<C = C>>(
    rt: &R,
    alloc: Global,
    store: &Store<C, SharedOrigin>,
    pass: &mut Pass<C>,
    station: &mut St,
    limits: &Limits,
    lines: &[Line],
    line: &Line,
    is_idle: bool,
    out: &mut Midst<'_, R, C, St>,
) -> Option<bool>
    requires ready { IsReady C.tells C.state shared_of store.now pass.old }
    requires idle { IsTrue is_idle → IsFree pass.old 0 }
    requires offers { (basis C.tells C.state shared_of store.now).offers ≡ shared_of lines.now }
    requires read { IsRead lines.now line.now }
    ensures ready { IsReady C.tells C.state shared_of store.now pass.new }
    ensures idle { IfSome result (λ is_still. IsTrue is_still → IsFree pass.new 0) }
{
    shared_lines_may_be_asked::<C, SharedOrigin>();
    let offer = u64::from(store.slots()) + u64::from(line.number);
    match &line.request {
        Request::Put { url, body } => {
            forward_offer(
                rt,
                alloc,
                store,
                pass,
                station,
                limits,
                offer,
                url.as_slice(),
                body,
                out,
            )?;
            Some(is_idle)
        }
        Request::Begin { url, body, .. } if is_idle => {
            write_offer(
                alloc,
                store,
                pass,
                station,
                offer,
                url.as_slice(),
                body,
                out,
            )?;
            Some(false)
        }
        _ => None,
    }
}

/// Serves the lines in their order: those of worker 1 on this pass, those of worker 2 by the other worker, and those of
/// worker 3 by the other worker too, but in the midst of the forwarding below them.
fn serve_lines<R: Wait, C: Cell, St: Station<C = C>>(
    rt: &R,
    alloc: Global,
    store: &Store<C, SharedOrigin>,
    pass: &mut Pass<C>,
    station: &mut St,
    limits: &Limits,
    lines: &[Line],
    out: &mut Midst<'_, R, C, St>,
) -> Option<()>
    requires ready { IsReady C.tells C.state shared_of store.now pass.old }
    requires idle { IsFree pass.old 0 }
    requires script { IsScripted C.tells C.state shared_of store.now lines.now }
{
    let mut is_idle = true;
    for at in 0..lines.len() {
        let line = &lines[at];
        if line.worker == 1 {
            out.end = at;
            out.sink = MemSink::new(alloc, 8192, 8192, alone(alloc, limits.sink_fails)?).ok()?;
            is_idle = serve_line(
                rt, alloc, store, pass, station, limits, lines, line, is_idle, out,
            )?;
        }
        if line.worker == 2 {
            out.other.serve(at);
        }
        if line.worker != 3 {
            out.next = at + 1;
        }
    }
    Some(())
}

/// One of the new passes of a store.
fn next_pass<C: Cell>(store: &Store<C, SharedOrigin>, passes: &mut Vec<Pass<C>>) -> Option<Pass<C>>
    requires { All (IsNewOf C.tells C.state shared_of store.now) passes.old.items }
    ensures pass { IfSome result (λ pass. IsAtWork C.tells C.state shared_of store.now pass ScriptTab.Free) }
    ensures passes { All (IsNewOf C.tells C.state shared_of store.now) passes.new.items }
{
    passes.pop()
}

/// Serves a script by two of these passes, and tells what its lines came to. The second station comes back.
fn serve_script<R: Wait, C: Cell, St: Station<C = C>>(
    rt: &R,
    alloc: Global,
    store: &Store<C, SharedOrigin>,
    passes: &mut Vec<Pass<C>>,
    station: &mut St,
    other: St,
    limits: &Limits,
    lines: &[Line],
) -> (St, Option<String>)
    requires passes { All (IsNewOf C.tells C.state shared_of store.now) passes.old.items }
    requires script { IsScripted C.tells C.state shared_of store.now lines.now }
{
    let Some(second) = next_pass(store, passes) else {
        return (other, None);
    };
    let Some(mut pass) = next_pass(store, passes) else {
        return (other, None);
    };
    let Ok(sink) = MemSink::new(alloc, 0, 1, Vec::new(alloc)) else {
        return (other, None);
    };
    let mut out = Midst {
        other: Other::new(rt, alloc, store, lines, second, other),
        sink,
        next: 0,
        end: 0,
    };
    let served = serve_lines(
        rt, alloc, store, &mut pass, station, limits, lines, &mut out,
    );
    let Midst {
        other,
        sink: _,
        next: _,
        end: _,
    } = out;
    let (other, story) = other.into_parts();
    (other, served.map(|()| story))
}

/// Serves a script over the file `db` of a volume, opened with so many anchors, and tells what its lines came to, each on a
/// line of its own.
pub(crate) fn played<R: Wait, V: Volume>(
    rt: &R,
    alloc: Global,
    volume: &mut V,
    anchors: u32,
    limits: &Limits,
    script: &Script,
) -> Option<String>
    requires home { IsTrue V.tells → NoneAway (V.files volume.old) }
    requires read { All (IsRead script.now.lines) script.now.lines }
{
    opened_cells_are_the_files();
    let origin = SharedOrigin::new(script);
    let Ok(open) = open_store(alloc, volume, "db", 512, anchors, 2, origin) else {
        return None;
    };
    let OpenStore {
        store,
        mut passes,
        header: _,
    } = open;
    let Ok(mut station) = volume.station("db") else {
        return None;
    };
    let Ok(other) = volume.station("db") else {
        volume.end_station(station);
        return None;
    };
    let (other, story) = serve_script(
        rt,
        alloc,
        &store,
        &mut passes,
        &mut station,
        other,
        limits,
        script.lines.as_slice(),
    );
    volume.end_station(station);
    volume.end_station(other);
    story
}
