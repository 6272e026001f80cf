// Whole requests are served, each on the tab of whole requests.
ghost use Rattle.std.specs.Prelude.{IfOk, OnErr, false, length, ◌+◌, ◌≡◌, ◌≤◌, ℕ};
ghost use Rattle.slot_cell.specs.declared.header.TheConstants.{HEADER_SIZE};
ghost use Rattle.store_rule.specs.Passes.{basis};
ghost use Rattle.store_serve.specs.Answers.{TellsFaults, is_fault};
ghost use Rattle.store_serve.specs.Tabs.{IsFree, IsOffered, IsReady, Leaves, MayGo};
ghost use Rattle.store_serve.specs.Whole.{Gets, Purges, Puts, Wipes, whole_tab};

use crate::answers::{got, purged, stored, wiped};
use crate::getting::get_entry;
use crate::storing::put_entry;
use crate::{purging_grows, serving_grows};
use purge_entry::{purge, purge_durable};
use rock_disk::{Cell, Station};
use rock_io::{Memory, Octets};
use script_text::{Answer, Body};
use std::alloc::Global;
use std::sync::Wait;
use store_rule::{Origin, Pass, Store};

/// The tab of whole requests. Those of a script are below it.
pub const WHOLE_TAB: u8 = 7;

/// Stores a whole response. Its offer is numbered from the number of slots on. If `durable`, each slot is synced before
/// it is published.
pub fn put_whole<C: Cell, O: Origin, St: Station<C = C>>(
    store: &Store<C, O>,
    pass: &mut Pass<C>,
    station: &mut St,
    offer: u64,
    url: &[u8],
    body: &Body,
    durable: bool,
) -> Answer
    requires ready { IsReady C.tells C.state O.offers store.now pass.old }
    requires free { IsFree pass.old whole_tab }
    requires offer { IsOffered C.tells C.state O.offers store.now offer url.now body.now }
    requires name { MayGo C.tells C.state O.offers store.now pass.old url.now }
    ensures served { Puts C.tells C.state O.offers store.now url.now pass.old result pass.new offer durable }
    ensures leaves { Leaves C.tells C.state O.offers store.now whole_tab pass.old pass.new }
    ensures faults { TellsFaults result (St.faults station.old) (St.faults station.new) }
{
    serving_grows::<C, O>();
    let outcome = put_entry(store, pass, station, WHOLE_TAB, offer, url, body, durable);
    stored(outcome)
}

/// Reads the response of a URL as far as it goes. `piece` has room for what a slot may add to a body.
///
/// # Errors
///
/// Want of memory.
pub fn get_whole<R: Wait, C: Cell, O: Origin, St: Station<C = C>>(
    rt: &R,
    alloc: Global,
    store: &Store<C, O>,
    pass: &mut Pass<C>,
    station: &mut St,
    url: &[u8],
    piece: &mut [u8],
) -> Result<Answer, Memory>
    requires ready { IsReady C.tells C.state O.offers store.now pass.old }
    requires free { IsFree pass.old whole_tab }
    requires name { MayGo C.tells C.state O.offers store.now pass.old url.now }
    requires room { (basis C.tells C.state O.offers store.now).slot ≤ length piece.old + HEADER_SIZE }
    ensures served { IfOk result (λ answer. Gets C.tells C.state O.offers store.now url.now pass.old answer pass.new) }
    ensures free { IsFree pass.new whole_tab }
    ensures leaves { Leaves C.tells C.state O.offers store.now whole_tab pass.old pass.new }
    ensures faults { IfOk result (λ answer. TellsFaults answer (St.faults station.old) (St.faults station.new)) }
    ensures memory { OnErr result (St.faults station.new ≡ St.faults station.old) }
    ensures length { length piece.new ≡ length piece.old }
{
    serving_grows::<C, O>();
    let mut out = Vec::new(alloc);
    match get_entry(rt, store, pass, station, WHOLE_TAB, url, piece, &mut out) {
        Ok(found) => Ok(got(found, Octets::from_vec(out))),
        Err(_) => Err(Memory),
    }
}

/// Purges the entry of a URL.
pub fn purge_url<C: Cell, O: Origin>(store: &Store<C, O>, pass: &mut Pass<C>, url: &[u8]) -> Answer
    requires ready { IsReady C.tells C.state O.offers store.now pass.old }
    requires name { MayGo C.tells C.state O.offers store.now pass.old url.now }
    ensures served { Purges C.tells C.state O.offers store.now url.now pass.old result pass.new }
    ensures leaves { (t : ℕ) → Leaves C.tells C.state O.offers store.now t pass.old pass.new }
    ensures no_fault { is_fault result ≡ false }
{
    purging_grows::<Octets>();
    let outcome = purge(store, pass, url);
    purged(outcome)
}

/// Purges it, and where nobody else uses it erases it on the disk.
pub fn wipe_url<C: Cell, O: Origin, St: Station<C = C>>(
    store: &Store<C, O>,
    pass: &mut Pass<C>,
    station: &mut St,
    url: &[u8],
) -> Answer
    requires ready { IsReady C.tells C.state O.offers store.now pass.old }
    requires name { MayGo C.tells C.state O.offers store.now pass.old url.now }
    ensures served { Wipes C.tells C.state O.offers store.now url.now pass.old result pass.new }
    ensures leaves { (t : ℕ) → Leaves C.tells C.state O.offers store.now t pass.old pass.new }
    ensures faults { TellsFaults result (St.faults station.old) (St.faults station.new) }
{
    let outcome = purge_durable(store, pass, station, url);
    wiped(outcome)
}
