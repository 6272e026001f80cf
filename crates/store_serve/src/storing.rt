// An entry is written to its end, and a response is stored whole.
ghost use Rattle.std.specs.Prelude.{IfErr, IfOk, IsErrOf, OnErr, OnOk, length, true, ◌-◌, ◌≡◌, ◌↔◌, ℕ};
ghost use Rattle.core_model.specs.Tabs.{InnerIsFree, tab_at};
ghost use Rattle.core_model.specs.declared.tab.Tab.TheVariants.{Free};
ghost use Rattle.plain_model.specs.Serving.{bytes_of};
ghost use Rattle.rock_io.specs.Faults.{Rose};
ghost use Rattle.rock_writer.specs.Beginning.{IsTooLong, MayBegin};
ghost use Rattle.rock_writer.specs.Durable.{ClosedDurably, LoggedSoFar};
ghost use Rattle.rock_writer.specs.Entries.{Entry, with_taken};
ghost use Rattle.rock_writer.specs.Passes.{FollowsWriting};
ghost use Rattle.store_rule.specs.Passes.{basis, view};
ghost use Rattle.store_serve.specs.Adding.{MayAdd};
ghost use Rattle.store_serve.specs.Storing.{EndedWhole, NotEnded, NotPut, PutWhole, StaysUnlessBegun, put_as};

use crate::adding::add_bytes;
use crate::bodies::body_length;
use rock_disk::{Cell, Station};
use rock_writer::{BeginFault, Ended, WriteFault, begin, finish};
use script_text::Body;
use store_rule::{Origin, Pass, Store};

/// Why a response was not stored.
#[derive(Debug, Drop, PartialEq)]
pub enum PutFault {
    /// Its entry was not begun.
    Begin(BeginFault),
    /// It was, and was given up.
    Write(WriteFault),
}

/// Appends what is left of a body from a place on to the entry that a tab writes, and ends the entry. The tab is
/// free afterwards.
///
/// # Errors
///
/// A slot was not published. The entry is halted.
pub fn end_entry<C: Cell, O: Origin, St: Station<C = C>>(
    store: &Store<C, O>,
    pass: &mut Pass<C>,
    station: &mut St,
    tab: u8,
    body: &Body,
    from: usize,
) -> Result<Ended, WriteFault>
    requires { (e : Entry) × MayAdd C.tells C.state O.offers store.now tab e (bytes_of body.now) from (length (bytes_of body.now)) pass.old }
    ensures ok { (e : Entry) → MayAdd C.tells C.state O.offers store.now tab e (bytes_of body.now) from (length (bytes_of body.now)) pass.old
        → IfOk result (λ ended. EndedWhole C.tells C.state O.offers store.now tab e pass.old pass.new ended) }
    ensures durable { (e : Entry) → MayAdd C.tells C.state O.offers store.now tab e (bytes_of body.now) from (length (bytes_of body.now)) pass.old
        → e.is_durable ≡ true → LoggedSoFar (basis C.tells C.state O.offers store.now) e (view pass.old)
        → OnOk result (ClosedDurably (basis C.tells C.state O.offers store.now) tab (with_taken e (length (bytes_of body.now))) (view pass.new)) }
    ensures err { (e : Entry) → MayAdd C.tells C.state O.offers store.now tab e (bytes_of body.now) from (length (bytes_of body.now)) pass.old
        → IfErr result (λ fault. NotEnded C.tells C.state O.offers store.now tab e pass.old pass.new fault) }
    ensures free { tab_at (view pass.new) tab ≡ Free }
    ensures inner { InnerIsFree (view pass.new) }
    ensures others { FollowsWriting C.tells C.state O.offers store.now tab pass.old pass.new }
    ensures unfailed { (IsErrOf result WriteFault.Fault → ⊥) → St.faults station.new ≡ St.faults station.old }
    ensures failed { IsErrOf result WriteFault.Fault → Rose (St.faults station.old) (St.faults station.new) }
{
    let upto = body_length(body);
    match add_bytes(store, pass, station, tab, body, from, upto) {
        Ok(()) => finish(store, pass, station, tab),
        Err(fault) => Err(fault),
    }
}

/// Stores a whole response on a free tab: its entry is begun, its body appended, and the entry ended. The offer is
/// numbered from the number of slots on. If `durable`, each slot is synced before it is published. The tab is free
/// afterwards.
///
/// # Errors
///
/// The entry was not begun, or it was and is halted.
pub fn put_entry<C: Cell, O: Origin, St: Station<C = C>>(
    store: &Store<C, O>,
    pass: &mut Pass<C>,
    station: &mut St,
    tab: u8,
    offer: u64,
    url: &[u8],
    body: &Body,
    durable: bool,
) -> Result<Ended, PutFault>
    requires may { MayBegin C.tells C.state O.offers store.now pass.old tab offer url.now }
    requires body { (basis C.tells C.state O.offers store.now).offers.body (offer - (basis C.tells C.state O.offers store.now).setting.slots) ≡ bytes_of body.now }
    ensures ok { IfOk result (λ ended. PutWhole C.tells C.state O.offers store.now tab offer url.now durable pass.old pass.new ended) }
    ensures durable { durable ≡ true
        → IfOk result (λ ended. ClosedDurably (basis C.tells C.state O.offers store.now) tab (put_as (basis C.tells C.state O.offers store.now) offer url.now durable ended) (view pass.new)) }
    ensures err { IfErr result (λ fault. NotPut C.tells C.state O.offers store.now tab offer url.now durable pass.old pass.new fault) }
    ensures long { IsErrOf result (PutFault.Begin BeginFault.LongUrl) ↔ IsTooLong (basis C.tells C.state O.offers store.now) url.now }
    ensures stays { IfErr result (λ fault. StaysUnlessBegun fault pass.old.hand pass.new.hand) }
    ensures free { tab_at (view pass.new) tab ≡ Free }
    ensures inner { InnerIsFree (view pass.new) }
    ensures others { FollowsWriting C.tells C.state O.offers store.now tab pass.old pass.new }
    ensures unfailed { (IsErrOf result (PutFault.Write WriteFault.Fault) → ⊥) → St.faults station.new ≡ St.faults station.old }
    ensures failed { IsErrOf result (PutFault.Write WriteFault.Fault) → Rose (St.faults station.old) (St.faults station.new) }
{
    if let Err(fault) = begin(store, pass, tab, offer, url, durable) {
        return Err(PutFault::Begin(fault));
    }
    match end_entry(store, pass, station, tab, body, 0) {
        Ok(ended) => Ok(ended),
        Err(fault) => Err(PutFault::Write(fault)),
    }
}
