// A response is fetched, given to the sink and stored.
ghost use Rattle.std.specs.Prelude.{IfErr, IsErrOf, OnOk, length, ◌+◌, ◌-◌, ◌<◌, ◌≡◌, ℕ};
ghost use Rattle.core_model.specs.Tabs.{InnerIsFree, tab_at};
ghost use Rattle.core_model.specs.declared.tab.Tab.TheVariants.{Free};
ghost use Rattle.rock_io.specs.Faults.{Rose};
ghost use Rattle.rock_writer.specs.Appending.{MayAppend};
ghost use Rattle.rock_writer.specs.Entries.{Entry, WritesAs};
ghost use Rattle.rock_writer.specs.Passes.{FollowsWriting};
ghost use Rattle.collapse.specs.Faults.{FetcherAt, FetcherAtKept, SinkAt, SinkAtKept, StationAt, StationAtKept};
ghost use Rattle.collapse.specs.Forwarding.{Begins, Forwards, fresh};
ghost use Rattle.collapse.specs.Writing.{Added, KeptAs, MayTake, NotAdded};
ghost use Rattle.store_rule.specs.Passes.{basis, view};
ghost use Rattle.store_rule.specs.declared.store.Pass.{Pass as PassOf};

use crate::Fetcher;
use crate::answer::{Forwarded, Why};
use crate::sending::send_past;
use rock_disk::{Cell, Station};
use rock_io::{Failed, Sink, write_all};
use rock_writer::{WriteFault, abort, append, finish};
use store_rule::{Origin, Pass, Store};

/// How far a fetch was kept.
#[derive(Clone, Copy)]
pub(crate) enum Kept {
    /// All came, and was taken.
    Whole,
    /// The entry was given up, for this cause; more may come.
    Refused(WriteFault),
    /// The fetcher failed.
    FetchFault,
    /// The sink failed.
    SinkFault,
}

/// Gives what is left of a fetch to the sink, and then appends it to the entry that a tab writes, piece by piece.
pub(crate) fn keep_rest<C: Cell, O: Origin, St: Station<C = C>, F: Fetcher, K: Sink>(
    store: &Store<C, O>,
    pass: &mut Pass<C>,
    station: &mut St,
    fetcher: &mut F,
    tab: u8,
    buf: &mut [u8],
    out: &mut K,
) -> Kept
    requires takes { (e : Entry) × MayTake C.tells C.state O.offers store.now tab e (F.left fetcher.old) pass.old }
    requires some { 0 < length buf.old }
    ensures kept { (e : Entry) → MayTake C.tells C.state O.offers store.now tab e (F.left fetcher.old) pass.old
        → KeptAs C.tells C.state O.offers store.now tab e pass.old pass.new K.tells (K.taken out.old) (K.taken out.new) (F.left fetcher.old) (F.left fetcher.new) result }
    ensures others { FollowsWriting C.tells C.state O.offers store.now tab pass.old pass.new }
    ensures length { length buf.new ≡ length buf.old }
    ensures starts { F.starts fetcher.new ≡ F.starts fetcher.old }
    ensures station { StationAtKept result (St.faults station.old) (St.faults station.new) }
    ensures fetch { FetcherAtKept result (F.faults fetcher.old) (F.faults fetcher.new) }
    ensures sink { SinkAtKept result (K.faults out.old) (K.faults out.new) }
{
    loop {
        let Ok(count) = fetcher.next(buf) else {
            return Kept::FetchFault;
        };
        if count == 0 {
            return Kept::Whole;
        }
        if let Err(Failed) = write_all(out, &buf[..count]) {
            return Kept::SinkFault;
        }
        if let Err(fault) = append_all(store, pass, station, tab, &buf[..count]) {
            return Kept::Refused(fault);
        }
    }
}

// Appends all of these bytes to the entry that a tab writes.
fn append_all<C: Cell, O: Origin, St: Station<C = C>>(
    store: &Store<C, O>,
    pass: &mut Pass<C>,
    station: &mut St,
    tab: u8,
    bytes: &[u8],
) -> Result<(), WriteFault>
    requires { (e : Entry) × MayAppend C.tells C.state O.offers store.now tab e bytes.now pass.old }
    ensures ok { (e : Entry) → MayAppend C.tells C.state O.offers store.now tab e bytes.now pass.old
        → OnOk result (Added C.tells C.state O.offers store.now tab e pass.old pass.new (e.taken + length bytes.now)) }
    ensures err { (e : Entry) → MayAppend C.tells C.state O.offers store.now tab e bytes.now pass.old
        → IfErr result (λ fault. NotAdded C.tells C.state O.offers store.now tab e pass.old pass.new fault) }
    ensures others { FollowsWriting C.tells C.state O.offers store.now tab pass.old pass.new }
    ensures unfailed { (IsErrOf result WriteFault.Fault → ⊥) → St.faults station.new ≡ St.faults station.old }
    ensures failed { IsErrOf result WriteFault.Fault → Rose (St.faults station.old) (St.faults station.new) }
{
    let mut taken = 0;
    while taken < bytes.len() {
        match append(store, pass, station, tab, &bytes[taken..]) {
            Ok(count) => taken += count,
            Err(fault) => return Err(fault),
        }
    }
    Ok(())
}

/// Fetches a response, gives it to the sink and stores it in the entry of this version that a tab has just begun. Where
/// that is given up, the fetch goes on without it.
pub(crate) fn write_entry<C: Cell, O: Origin, St: Station<C = C>, F: Fetcher, K: Sink>(
    store: &Store<C, O>,
    pass: &mut Pass<C>,
    station: &mut St,
    fetcher: &mut F,
    tab: u8,
    offer: u64,
    url: &[u8],
    version: u32,
    buf: &mut [u8],
    out: &mut K,
) -> Forwarded
    requires writes { WritesAs C.tells C.state O.offers store.now pass.old tab (fresh C.tells C.state O.offers store.now tab offer url.now version) }
    requires body { (basis C.tells C.state O.offers store.now).offers.body (offer - (basis C.tells C.state O.offers store.now).setting.slots) ≡ F.body fetcher.old url.now offer }
    requires some { 0 < length buf.old }
    ensures forwards { (p : PassOf C) (most : ℕ) → Begins C.tells C.state O.offers store.now tab offer url.now most p pass.old version
        → Forwards C.tells C.state O.offers store.now tab offer url.now most p pass.new (F.body fetcher.old url.now offer) K.tells (K.taken out.old) (K.taken out.new) (F.starts fetcher.old) (F.starts fetcher.new) result }
    ensures free { tab_at (view pass.new) tab ≡ Free }
    ensures inner { InnerIsFree (view pass.new) }
    ensures others { FollowsWriting C.tells C.state O.offers store.now tab pass.old pass.new }
    ensures station { StationAt result (St.faults station.old) (St.faults station.new) }
    ensures fetch { FetcherAt result (F.faults fetcher.old) (F.faults fetcher.new) }
    ensures sink { SinkAt result (K.faults out.old) (K.faults out.new) }
{
    if let Err(Failed) = fetcher.start(url, offer) {
        abort(store, pass, tab);
        return Forwarded::FetchFault;
    }
    match keep_rest(store, pass, station, fetcher, tab, buf, out) {
        Kept::Whole => match finish(store, pass, station, tab) {
            Ok(_) => Forwarded::Fetched { version },
            Err(fault) => Forwarded::Direct {
                why: Why::Write(fault),
            },
        },
        Kept::Refused(fault) => send_past::<C, O, F, K>(fetcher, Why::Write(fault), buf, out),
        Kept::FetchFault => {
            abort(store, pass, tab);
            Forwarded::FetchFault
        }
        Kept::SinkFault => {
            abort(store, pass, tab);
            Forwarded::SinkFault
        }
    }
}
