// Requests on tabs that write are served.
ghost use Rattle.std.specs.Prelude.{IfOk, OnErr, false, ◌<◌, ◌≡◌};
ghost use Rattle.core_model.specs.Tabs.{inner};
ghost use Rattle.plain_model.specs.Serving.{bytes_of};
ghost use Rattle.rock_writer.specs.Entries.{Entry, WritesAs};
ghost use Rattle.store_serve.specs.Answers.{TellsFaults, is_fault};
ghost use Rattle.store_serve.specs.Tabs.{Holds, IsFree, IsOffered, IsReady, Leaves, MayGo, WritesBody};
ghost use Rattle.store_serve.specs.Writing.{AddsOn, AddsTo, BeginsOn, DropsOn, EndsEntry, EndsOn};

use crate::adding::add_bytes;
use crate::answers::{ended, given_up, refused};
use crate::bodies::body_length;
use crate::storing::end_entry;
use crate::tabs::{ScriptTab, Told};
use crate::{serving_grows, writing_grows};
use rock_disk::{Cell, Station};
use rock_io::{Memory, Octets};
use rock_writer::{abort, begin};
use script_text::{Answer, Body};
use std::alloc::Global;
use store_rule::{Origin, Pass, Store};

/// Begins the entry of an offer on a free tab. The offer is numbered from the number of slots on.
///
/// # Errors
///
/// Want of memory, for the body of a free tab. Nothing was done.
pub fn begin_on_tab<C: Cell, O: Origin>(
    alloc: Global,
    store: &Store<C, O>,
    pass: &mut Pass<C>,
    tab: u8,
    kept: ScriptTab,
    offer: u64,
    url: &[u8],
    body: &Body,
) -> Result<Told, Memory>
    requires ready { IsReady C.tells C.state O.offers store.now pass.old }
    requires below { tab < inner }
    requires holds { Holds C.tells C.state O.offers store.now pass.old tab kept }
    requires offer { IsOffered C.tells C.state O.offers store.now offer url.now body.now }
    requires name { MayGo C.tells C.state O.offers store.now pass.old url.now }
    ensures served { IfOk result (λ told. BeginsOn C.tells C.state O.offers store.now tab pass.old told.answer pass.new offer url.now) }
    ensures holds { IfOk result (λ told. Holds C.tells C.state O.offers store.now pass.new tab told.tab) }
    ensures no_fault { IfOk result (λ told. is_fault told.answer ≡ false) }
    ensures free { OnErr result (IsFree pass.new tab) }
    ensures leaves { Leaves C.tells C.state O.offers store.now tab pass.old pass.new }
{
    match kept {
        ScriptTab::Free => (),
        other => {
            return Ok(Told {
                answer: Answer::Tab,
                tab: other,
            });
        }
    }
    let body = copied(alloc, body)?;
    writing_grows::<C, O>();
    let told = match begin(store, pass, tab, offer, url, false) {
        Ok(version) => Told {
            answer: Answer::Begun { version },
            tab: ScriptTab::Writing { body, taken: 0 },
        },
        Err(fault) => Told {
            answer: refused(fault),
            tab: ScriptTab::Free,
        },
    };
    Ok(told)
}

// A body of its own with the same bytes.
fn copied(alloc: Global, body: &Body) -> Result<Body, Memory>
    ensures { IfOk result (λ copy. copy ≡ body.now) }
{
    match body {
        Body::Text(text) => Ok(Body::Text(Octets::from_vec(text.as_slice().to_vec(alloc)?))),
        Body::Made { length, shift } => Ok(Body::Made {
            length: *length,
            shift: *shift,
        }),
    }
}

/// Takes the next bytes of the body of the entry that a tab writes: `count` bytes, or all that are left.
pub fn add_to_tab<C: Cell, O: Origin, St: Station<C = C>>(
    store: &Store<C, O>,
    pass: &mut Pass<C>,
    station: &mut St,
    tab: u8,
    kept: ScriptTab,
    count: u32,
) -> Told
    requires ready { IsReady C.tells C.state O.offers store.now pass.old }
    requires below { tab < inner }
    requires holds { Holds C.tells C.state O.offers store.now pass.old tab kept }
    ensures served { AddsOn C.tells C.state O.offers store.now tab pass.old result.answer pass.new count }
    ensures holds { Holds C.tells C.state O.offers store.now pass.new tab result.tab }
    ensures faults { TellsFaults result.answer (St.faults station.old) (St.faults station.new) }
    ensures leaves { Leaves C.tells C.state O.offers store.now tab pass.old pass.new }
{
    match kept {
        ScriptTab::Writing { body, taken } => {
            add_some(store, pass, station, tab, body, taken, count)
        }
        other => Told {
            answer: Answer::Tab,
            tab: other,
        },
    }
}

// Adds the next `count` bytes of this body, of which `taken` were taken, or all that are left.
fn add_some<C: Cell, O: Origin, St: Station<C = C>>(
    store: &Store<C, O>,
    pass: &mut Pass<C>,
    station: &mut St,
    tab: u8,
    body: Body,
    taken: usize,
    count: u32,
) -> Told
    requires below { tab < inner }
    requires writes { WritesBody C.tells C.state O.offers store.now pass.old tab (bytes_of body) taken }
    ensures served { (e : Entry) → WritesAs C.tells C.state O.offers store.now pass.old tab e → AddsTo C.tells C.state O.offers store.now tab pass.old result.answer pass.new count e }
    ensures holds { Holds C.tells C.state O.offers store.now pass.new tab result.tab }
    ensures faults { TellsFaults result.answer (St.faults station.old) (St.faults station.new) }
    ensures leaves { Leaves C.tells C.state O.offers store.now tab pass.old pass.new }
{
    serving_grows::<C, O>();
    let upto = taken.saturating_add(count as usize).min(body_length(&body));
    match add_bytes(store, pass, station, tab, &body, taken, upto) {
        Ok(()) => Told {
            answer: Answer::Added {
                count: (upto - taken) as u32,
            },
            tab: ScriptTab::Writing { body, taken: upto },
        },
        Err(fault) => Told {
            answer: given_up(fault),
            tab: ScriptTab::Free,
        },
    }
}

/// Takes the rest of the body of the entry that a tab writes, and ends the entry. The tab is free afterwards.
pub fn end_tab<C: Cell, O: Origin, St: Station<C = C>>(
    store: &Store<C, O>,
    pass: &mut Pass<C>,
    station: &mut St,
    tab: u8,
    kept: ScriptTab,
) -> Told
    requires ready { IsReady C.tells C.state O.offers store.now pass.old }
    requires below { tab < inner }
    requires holds { Holds C.tells C.state O.offers store.now pass.old tab kept }
    ensures served { EndsOn C.tells C.state O.offers store.now tab pass.old result.answer pass.new }
    ensures holds { Holds C.tells C.state O.offers store.now pass.new tab result.tab }
    ensures faults { TellsFaults result.answer (St.faults station.old) (St.faults station.new) }
    ensures leaves { Leaves C.tells C.state O.offers store.now tab pass.old pass.new }
{
    match kept {
        ScriptTab::Writing { body, taken } => Told {
            answer: end_body(store, pass, station, tab, &body, taken),
            tab: ScriptTab::Free,
        },
        other => Told {
            answer: Answer::Tab,
            tab: other,
        },
    }
}

// Adds what is left of this body, of which `taken` bytes were taken, and ends the entry.
fn end_body<C: Cell, O: Origin, St: Station<C = C>>(
    store: &Store<C, O>,
    pass: &mut Pass<C>,
    station: &mut St,
    tab: u8,
    body: &Body,
    taken: usize,
) -> Answer
    requires below { tab < inner }
    requires writes { WritesBody C.tells C.state O.offers store.now pass.old tab (bytes_of body.now) taken }
    ensures served { (e : Entry) → WritesAs C.tells C.state O.offers store.now pass.old tab e → EndsEntry C.tells C.state O.offers store.now tab pass.old result pass.new e }
    ensures free { IsFree pass.new tab }
    ensures faults { TellsFaults result (St.faults station.old) (St.faults station.new) }
    ensures leaves { Leaves C.tells C.state O.offers store.now tab pass.old pass.new }
{
    serving_grows::<C, O>();
    ended(end_entry(store, pass, station, tab, body, taken))
}

/// Gives up the entry that a tab writes. The tab is free afterwards.
pub fn drop_tab<C: Cell, O: Origin>(
    store: &Store<C, O>,
    pass: &mut Pass<C>,
    tab: u8,
    kept: ScriptTab,
) -> Told
    requires ready { IsReady C.tells C.state O.offers store.now pass.old }
    requires below { tab < inner }
    requires holds { Holds C.tells C.state O.offers store.now pass.old tab kept }
    ensures served { DropsOn C.tells C.state O.offers store.now tab pass.old result.answer pass.new }
    ensures holds { Holds C.tells C.state O.offers store.now pass.new tab result.tab }
    ensures no_fault { is_fault result.answer ≡ false }
    ensures leaves { Leaves C.tells C.state O.offers store.now tab pass.old pass.new }
{
    match kept {
        ScriptTab::Writing { .. } => {
            writing_grows::<C, O>();
            abort(store, pass, tab);
            Told {
                answer: Answer::Dropped,
                tab: ScriptTab::Free,
            }
        }
        other => Told {
            answer: Answer::Tab,
            tab: other,
        },
    }
}
