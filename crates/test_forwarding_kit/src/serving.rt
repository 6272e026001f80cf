// A line of a script is served on a pass, of which tab 0 alone is used for those that name a tab.
ghost use Rattle.std.specs.Prelude.{IfOk, OnErr, ◌≡◌, ◌≤◌};
ghost use Rattle.test_forwarding_kit.specs.Shared.{shared_of};
ghost use Rattle.store_rule.specs.Passes.{basis};
ghost use Rattle.store_serve.specs.Serving.{Takes, offer_of};
ghost use Rattle.store_serve.specs.Tabs.{Holds, IsFree, Leaves};
ghost use Rattle.store_serve.specs.declared.tabs.ScriptTab.{ScriptTab as Kept};
ghost use Rattle.test_forwarding_kit.specs.Standing.{IsReady};

use crate::shared::SharedOrigin;
use rock_disk::{Cell, Station};
use rock_io::Memory;
use script_text::{Answer, Line, Request};
use std::alloc::Global;
use std::sync::Wait;
use store_rule::{Pass, Store};
use store_serve::{
    ScriptTab, Told, add_to_tab, begin_on_tab, close_tab, drop_tab, end_tab, get_whole, open_tab,
    purge_url, put_whole, read_more, requests_keep_other_tabs, wipe_url,
};

/// The answer to a line, if there is one, and what is kept of tab 0 behind it.
pub(crate) struct Served {
    pub(crate) answer: Option<Answer>,
    pub(crate) tab: ScriptTab,
}

/// Serves a line that names no tab.
fn serve_whole<R: Wait, C: Cell, St: Station<C = C>>(
    rt: &R,
    alloc: Global,
    store: &Store<C, SharedOrigin>,
    pass: &mut Pass<C>,
    station: &mut St,
    offer: u64,
    line: &Line,
) -> Option<Answer>
    requires ready { IsReady C.tells C.state shared_of store.now pass.old }
    requires offer { offer ≡ offer_of C.tells C.state shared_of store.now line.now.number }
    requires takes { Takes C.tells C.state shared_of store.now pass.old line.now }
    requires room { (basis C.tells C.state shared_of store.now).slot ≤ 512 }
    ensures ready { IsReady C.tells C.state shared_of store.now pass.new }
    ensures holds { (kept : Kept) → Holds C.tells C.state shared_of store.now pass.old 0 kept → Holds C.tells C.state shared_of store.now pass.new 0 kept }
{
    requests_keep_other_tabs::<C, SharedOrigin>();
    let mut piece = [0u8; 512];
    match &line.request {
        Request::Put { url, body } => Some(put_whole(
            store,
            pass,
            station,
            offer,
            url.as_slice(),
            body,
            false,
        )),
        Request::Get { url } => get_whole(
            rt,
            alloc,
            store,
            pass,
            station,
            url.as_slice(),
            &mut piece,
        ).ok(),
        Request::Purge { url } => Some(purge_url(store, pass, url.as_slice())),
        Request::Wipe { url } => Some(wipe_url(store, pass, station, url.as_slice())),
        _ => None,
    }
}

/// Serves a line that names a tab, on tab 0.
fn serve_on_tab<R: Wait, C: Cell, St: Station<C = C>>(
    rt: &R,
    alloc: Global,
    store: &Store<C, SharedOrigin>,
    pass: &mut Pass<C>,
    station: &mut St,
    kept: ScriptTab,
    offer: u64,
    line: &Line,
) -> Result<Told, Memory>
    requires ready { IsReady C.tells C.state shared_of store.now pass.old }
    requires holds { Holds C.tells C.state shared_of store.now pass.old 0 kept }
    requires offer { offer ≡ offer_of C.tells C.state shared_of store.now line.now.number }
    requires takes { Takes C.tells C.state shared_of store.now pass.old line.now }
    requires room { (basis C.tells C.state shared_of store.now).slot ≤ 512 }
    ensures leaves { Leaves C.tells C.state shared_of store.now 0 pass.old pass.new }
    ensures holds { IfOk result (λ told. Holds C.tells C.state shared_of store.now pass.new 0 told.tab) }
    ensures free { OnErr result (IsFree pass.new 0) }
{
    let mut piece = [0u8; 512];
    match &line.request {
        Request::Begin { url, body, .. } => {
            begin_on_tab(alloc, store, pass, 0, kept, offer, url.as_slice(), body)
        }
        Request::Add { count, .. } => Ok(add_to_tab(store, pass, station, 0, kept, *count)),
        Request::End { .. } => Ok(end_tab(store, pass, station, 0, kept)),
        Request::DropTab { .. } => Ok(drop_tab(store, pass, 0, kept)),
        Request::OpenTab { url, .. } => Ok(open_tab(store, pass, 0, kept, url.as_slice())),
        Request::More { .. } => read_more(rt, alloc, store, pass, station, 0, kept, &mut piece),
        _ => Ok(close_tab(store, pass, 0, kept)),
    }
}

/// Serves a line that names no mark.
pub(crate) fn serve_line<R: Wait, C: Cell, St: Station<C = C>>(
    rt: &R,
    alloc: Global,
    store: &Store<C, SharedOrigin>,
    pass: &mut Pass<C>,
    station: &mut St,
    kept: ScriptTab,
    offer: u64,
    line: &Line,
) -> Served
    requires ready { IsReady C.tells C.state shared_of store.now pass.old }
    requires holds { Holds C.tells C.state shared_of store.now pass.old 0 kept }
    requires offer { offer ≡ offer_of C.tells C.state shared_of store.now line.now.number }
    requires takes { Takes C.tells C.state shared_of store.now pass.old line.now }
    ensures ready { IsReady C.tells C.state shared_of store.now pass.new }
    ensures holds { Holds C.tells C.state shared_of store.now pass.new 0 result.tab }
{
    if store.slot_size() > 512 {
        return Served {
            answer: None,
            tab: kept,
        };
    }
    if let Request::Put { .. }
    | Request::Get { .. }
    | Request::Purge { .. }
    | Request::Wipe { .. } = line.request
    {
        return Served {
            answer: serve_whole(rt, alloc, store, pass, station, offer, line),
            tab: kept,
        };
    }
    match serve_on_tab(rt, alloc, store, pass, station, kept, offer, line) {
        Ok(told) => Served {
            answer: Some(told.answer),
            tab: told.tab,
        },
        Err(_) => Served {
            answer: None,
            tab: ScriptTab::Free,
        },
    }
}
