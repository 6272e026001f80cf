// An entry is purged on the disk too.
ghost use Rattle.core_model.specs.Tabs.{inner};
ghost use Rattle.purge_entry.specs.Purging.{MayPurge};
ghost use Rattle.purge_entry.specs.Wiping.{CallsMade, FaultTells, WipedAndFreed, WipedTells};
ghost use Rattle.rock_io.specs.Faults.{Rose};
ghost use Rattle.rock_reader.specs.Wanted.{FollowsReader};
ghost use Rattle.slice_chain.specs.Wiping.{MayWipeFirst};
ghost use Rattle.slice_chain.specs.Written.{StoppedAt, calls_to_write};
ghost use Rattle.std.specs.Prelude.{IfErr, IfOk, IsErrOf, IsTrue, OnErr, OnOk, true, false, ◌≡◌, ◌≢◌};
ghost use Rattle.store_rule.specs.Passes.{basis, view};
ghost use Rattle.store_rule.specs.Quiet.{DoomsNothing, Quiet};

use core_model::INNER_TAB;
use lock_word::{Cause, Epoch};
use rock_disk::{Cell, Station};
use rock_io::Failed;
use rock_reader::come;
use rw_anchor::{Left, doom, leave};
use slice_chain::{free_chain, wipe_first};
use store_rule::{Origin, Pass, Store};

/// What became of an entry that was purged. The epoch is the one that the purge left, which has the doom bit.
#[derive(Clone, Copy, Debug, PartialEq, Eq)]
pub enum Wiped {
    /// The call was the last user of the entry, and its first slot has zeros on the disk. So a crash brings nothing of the entry back.
    Gone { epoch: Epoch },
    /// The entry has other users, or another pass frees it. It is purged in the table alone.
    Later { epoch: Epoch },
}

/// Why an entry was not purged on the disk.
#[derive(Clone, Copy, Debug, PartialEq, Eq)]
pub enum WipeFault {
    /// There is none with the key of the URL to read.
    NoEntry { cause: Cause },
    /// The station failed. The entry is purged in the table, and its slots are free.
    Fault,
}

/// Purges the entry with the key of a URL as `purge` does. Where the call is its last user it writes zeros into the first
/// slot, and syncs that, before it gives a slot back.
///
/// # Errors
///
/// Why there is no such entry to read, as of `purge`; or that the station failed. It is not known then what a crash leaves of
/// the first slot.
pub fn purge_durable<C: Cell, O: Origin, St: Station<C = C>>(
    store: &Store<C, O>,
    pass: &mut Pass<C>,
    station: &mut St,
    url: &[u8],
) -> Result<Wiped, WipeFault>
    requires { MayPurge C.tells C.state O.offers store.now pass.old url.now }
    ensures ok { IfOk result (WipedTells (basis C.tells C.state O.offers store.now) url.now (view pass.old) (view pass.new)) }
    ensures err { IfErr result (FaultTells (basis C.tells C.state O.offers store.now) url.now (view pass.old) (view pass.new)) }
    ensures free { (view pass.new).tabs ≡ (view pass.old).tabs }
    ensures others { FollowsReader C.tells C.state O.offers store.now inner pass.old pass.new }
    ensures quiet { IfErr result (λ fault. fault ≢ WipeFault.Fault → DoomsNothing (view pass.old) (view pass.new)) }
    ensures called { IsTrue St.counts → CallsMade result (St.calls station.old) (St.calls station.new) }
    ensures unfailed { (IsErrOf result WipeFault.Fault → ⊥) → St.faults station.new ≡ St.faults station.old }
    ensures failed { IsErrOf result WipeFault.Fault → Rose (St.faults station.old) (St.faults station.new) }
{
    if let Err(cause) = come(store, pass, INNER_TAB, url) {
        return Err(WipeFault::NoEntry { cause });
    }
    let epoch = doom(store, pass, INNER_TAB).epoch;
    match leave(store, pass, INNER_TAB) {
        Left::Done => Ok(Wiped::Later { epoch }),
        Left::MustFree => match wipe_and_free(store, pass, station) {
            Ok(()) => Ok(Wiped::Gone { epoch }),
            Err(_) => Err(WipeFault::Fault),
        },
    }
}

// Wipes the first slot of the doomed entry that the inner tab frees, and then gives back each slot of it, also where the
// station failed.
fn wipe_and_free<C: Cell, O: Origin, St: Station<C = C>>(
    store: &Store<C, O>,
    pass: &mut Pass<C>,
    station: &mut St,
) -> Result<(), Failed>
    requires { MayWipeFirst C.tells C.state O.offers store.now pass.old }
    ensures ok { OnOk result (WipedAndFreed (basis C.tells C.state O.offers store.now) true (view pass.old) (view pass.new)) }
    ensures err { OnErr result (WipedAndFreed (basis C.tells C.state O.offers store.now) false (view pass.old) (view pass.new)) }
    ensures others { FollowsReader C.tells C.state O.offers store.now inner pass.old pass.new }
    ensures quiet { Quiet (view pass.old) (view pass.new) }
    ensures called { IsTrue St.counts → OnOk result (St.calls station.new ≡ calls_to_write true (St.calls station.old)) }
    ensures stopped { IsTrue St.counts → OnErr result (StoppedAt true (St.calls station.old) (St.calls station.new)) }
    ensures unfailed { OnOk result (St.faults station.new ≡ St.faults station.old) }
    ensures failed { OnErr result (Rose (St.faults station.old) (St.faults station.new)) }
{
    let wiped = wipe_first(store, pass, station);
    free_chain(store, pass);
    wiped
}
