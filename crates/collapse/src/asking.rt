// The entry of a URL is asked for: it is opened, or one is begun.
ghost use Rattle.std.specs.Prelude.{false, true, ◌≡◌, ◌≢◌};
ghost use Rattle.lock_word.specs.declared.epoch.Epoch.{Epoch};
ghost use Rattle.lock_word.specs.declared.word.Word.{Word};
ghost use Rattle.collapse.specs.Asking.{AskedIn, AskedNow, IfIdle};
ghost use Rattle.collapse.specs.Passes.{FollowsForward};
ghost use Rattle.core_model.specs.Tabs.{InnerIsFree, tab_at};
ghost use Rattle.core_model.specs.declared.tab.Tab.TheVariants.{Free};
ghost use Rattle.rock_writer.specs.Beginning.{MayBegin};
ghost use Rattle.store_rule.specs.Passes.{view};

use lock_word::Cause;
use rock_disk::Cell;
use rock_reader::open_entry;
use rock_writer::{BeginFault, begin};
use std::thread;
use store_rule::{Origin, Pass, Store};

/// What asking for the entry of a URL came to.
#[derive(Clone, Copy)]
pub(crate) enum Asked {
    /// The tab reads the entry of this version.
    Open { version: u32 },
    /// The tab writes the entry of this version.
    Begun { version: u32 },
    /// There is none to read, and none was begun.
    NotBegun { fault: BeginFault },
    /// Another worker is at it.
    InVain,
}

/// Asks for the entry of a URL until there is one to read or to write, or it is known that neither can be, and counts
/// how often it was in vain, at most so many times. The other worker that is at the entry goes on between two times.
pub(crate) fn ask<C: Cell, O: Origin>(
    store: &Store<C, O>,
    pass: &mut Pass<C>,
    tab: u8,
    offer: u64,
    url: &[u8],
    most: u32,
    looks: &mut u32,
) -> Asked
    requires may { MayBegin C.tells C.state O.offers store.now pass.old tab offer url.now }
    requires none { looks.old ≡ 0 }
    ensures asked { AskedIn C.tells C.state O.offers store.now tab offer url.now most pass.old looks.new pass.new result }
    ensures free { IfIdle result (tab_at (view pass.new) tab ≡ Free) }
    ensures inner { InnerIsFree (view pass.new) }
    ensures others { FollowsForward C.tells C.state O.offers store.now tab pass.old pass.new }
{
    while *looks < most {
        let asked = ask_once(store, pass, tab, offer, url);
        let Asked::InVain = asked else {
            return asked;
        };
        *looks += 1;
        thread::yield_now();
    }
    Asked::InVain
}

// Asks once.
fn ask_once<C: Cell, O: Origin>(
    store: &Store<C, O>,
    pass: &mut Pass<C>,
    tab: u8,
    offer: u64,
    url: &[u8],
) -> Asked
    requires { MayBegin C.tells C.state O.offers store.now pass.old tab offer url.now }
    ensures asked { AskedNow C.tells C.state O.offers store.now tab offer url.now pass.old pass.new result }
    ensures free { IfIdle result (tab_at (view pass.new) tab ≡ Free) }
    ensures inner { InnerIsFree (view pass.new) }
    ensures still { result ≡ Asked.InVain → MayBegin C.tells C.state O.offers store.now pass.new tab offer url.now }
    ensures others { FollowsForward C.tells C.state O.offers store.now tab pass.old pass.new }
{
    let cause = match open_entry(store, pass, tab, url) {
        Ok(version) => return Asked::Open { version },
        Err(cause) => cause,
    };
    if let Cause::Writing { .. } = cause {
        return Asked::InVain;
    }
    let fault = match begin(store, pass, tab, offer, url, false) {
        Ok(version) => return Asked::Begun { version },
        Err(fault) => fault,
    };
    if is_overtaken(&cause, &fault) {
        return Asked::InVain;
    }
    Asked::NotBegun { fault }
}

// Whether another worker came to an anchor first: it was found without an entry, and then busy.
fn is_overtaken(cause: &Cause, fault: &BeginFault) -> bool
    ensures yes { result ≡ true → (epoch : Epoch) × (looked : Word) × (found : Word) × (cause.now ≡ Cause.Absent epoch) × (fault.now ≡ BeginFault.Busy looked found) }
    ensures no { result ≡ false → (looked found : Word) → fault.now ≡ BeginFault.Busy looked found → (epoch : Epoch) → cause.now ≢ Cause.Absent epoch }
{
    match (cause, fault) {
        (Cause::Absent { .. }, BeginFault::Busy { .. }) => true,
        _ => false,
    }
}
