// The entry of a URL is opened, read as far as it goes, and closed.
ghost use Rattle.std.specs.Prelude.{IfOk, List, OnErr, length, ◌++◌, ◌+◌, ◌≡◌, ◌≤◌, ℕ};
ghost use Rattle.core_model.specs.Tabs.{tab_at};
ghost use Rattle.rock_io.specs.Faults.{Rose};
ghost use Rattle.rock_reader.specs.Opening.{MayOpen};
ghost use Rattle.rock_reader.specs.Wanted.{FollowsReader};
ghost use Rattle.slot_cell.specs.declared.header.TheConstants.{HEADER_SIZE};
ghost use Rattle.store_rule.specs.Passes.{basis, view};
ghost use Rattle.store_serve.specs.Getting.{EndedWith, GotAs, StoppedGetting};

use crate::following::read_on;
use lock_word::Cause;
use rock_disk::{Cell, Station};
use rock_reader::{More, close_entry, open_entry, reading_tabs_may_go_on};
use std::alloc::AllocError;
use std::sync::Wait;
use store_rule::{Origin, Pass, Store};

/// What came of getting the entry of a URL.
#[derive(Debug, Drop, PartialEq)]
pub enum Got {
    /// There was none to read, for this cause.
    Missing(Cause),
    /// There was one, of this version; and why reading it ended, which was never with a piece.
    Found { version: u32, ended: More },
}

/// Opens the entry of a URL for a free tab, reads it as far as it goes, and closes it. All that the tab was given
/// is put behind `out`. `piece` has room for what a slot may add to a body. The tab is free afterwards.
///
/// # Errors
///
/// Want of memory.
pub fn get_entry<R: Wait, C: Cell, O: Origin, St: Station<C = C>>(
    rt: &R,
    store: &Store<C, O>,
    pass: &mut Pass<C>,
    station: &mut St,
    tab: u8,
    url: &[u8],
    piece: &mut [u8],
    out: &mut Vec<u8>,
) -> Result<Got, AllocError>
    requires may { MayOpen C.tells C.state O.offers store.now pass.old tab url.now }
    requires room { (basis C.tells C.state O.offers store.now).slot ≤ length piece.old + HEADER_SIZE }
    ensures got { IfOk result (λ got. (bytes : List ℕ) × (out.new.items ≡ out.old.items ++ bytes) × GotAs C.tells C.state O.offers store.now tab url.now pass.old pass.new bytes got) }
    ensures stopped { OnErr result ((bytes : List ℕ) × StoppedGetting C.tells C.state O.offers store.now tab url.now pass.old pass.new bytes) }
    ensures free { (j : ℕ) → tab_at (view pass.new) j ≡ tab_at (view pass.old) j }
    ensures others { FollowsReader C.tells C.state O.offers store.now tab pass.old pass.new }
    ensures length { length piece.new ≡ length piece.old }
    ensures failed { IfOk result (λ got. EndedWith got More.Fault → Rose (St.faults station.old) (St.faults station.new)) }
    ensures unfailed { IfOk result (λ got. (EndedWith got More.Fault → ⊥) → St.faults station.new ≡ St.faults station.old) }
    ensures memory { OnErr result (St.faults station.new ≡ St.faults station.old) }
{
    reading_tabs_may_go_on::<C, O>();
    let version = match open_entry(store, pass, tab, url) {
        Ok(version) => version,
        Err(cause) => return Ok(Got::Missing(cause)),
    };
    let ended = read_on(rt, store, pass, station, tab, piece, out);
    close_entry(store, pass, tab);
    match ended {
        Ok(ended) => Ok(Got::Found { version, ended }),
        Err(fault) => Err(fault),
    }
}
