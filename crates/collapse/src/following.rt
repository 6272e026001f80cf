// A tab follows an entry, also while it grows.
ghost use Rattle.std.specs.Prelude.{false, length, true, ◌+◌, ◌<◌, ◌≡◌, ◌≤◌, ◌⊎◌};
ghost use Rattle.core_model.specs.Tabs.{inner, tab_at};
ghost use Rattle.rock_reader.specs.Reading.{ReadsAs, Standing};
ghost use Rattle.rock_reader.specs.Wanted.{FollowsReader};
ghost use Rattle.slot_cell.specs.declared.header.TheConstants.{HEADER_SIZE};
ghost use Rattle.store_rule.specs.Passes.{basis, view};
ghost use Rattle.collapse.specs.Faults.{SinkAtFollowed, StationAtFollowed};
ghost use Rattle.collapse.specs.Following.{FollowedAs};

use rock_disk::{Cell, Station};
use rock_io::{Failed, Sink, write_all};
use rock_reader::{More, more, reading_tabs_may_go_on};
use std::sync::Wait;
use std::thread;
use store_rule::{Origin, Pass, Store};

/// Why a tab does not follow its entry any more.
#[derive(Clone, Copy)]
pub(crate) enum Followed {
    /// The whole body was given.
    End,
    /// The writer gave up.
    Halted,
    /// The station failed.
    Fault,
    /// The entry is of another URL, behind a byte that was given, or none.
    OtherUrl { is_late: bool },
    /// There was nothing to give yet, so often as may be.
    Waited { looks: u32 },
    /// The sink failed.
    SinkFault,
}

/// Follows the entry that a tab reads, and gives each piece to the sink. It looks in vain until that was so at most
/// times, of which `looks` were before; another worker goes on between two looks.
pub(crate) fn follow<R: Wait, C: Cell, O: Origin, St: Station<C = C>, K: Sink>(
    rt: &R,
    store: &Store<C, O>,
    pass: &mut Pass<C>,
    station: &mut St,
    tab: u8,
    looks: u32,
    most: u32,
    buf: &mut [u8],
    out: &mut K,
) -> Followed
    requires reads { (e : Standing) × ReadsAs C.tells C.state O.offers store.now pass.old tab e }
    requires room { (basis C.tells C.state O.offers store.now).slot ≤ length buf.old + HEADER_SIZE }
    requires fewer { looks < most }
    ensures went { (e : Standing) → ReadsAs C.tells C.state O.offers store.now pass.old tab e
        → FollowedAs C.tells C.state O.offers store.now tab e pass.old pass.new K.tells (K.taken out.old) (K.taken out.new) looks most result }
    ensures reads { (e : Standing) × ReadsAs C.tells C.state O.offers store.now pass.new tab e }
    ensures others { FollowsReader C.tells C.state O.offers store.now tab pass.old pass.new }
    ensures inner { tab_at (view pass.new) inner ≡ tab_at (view pass.old) inner }
    ensures length { length buf.new ≡ length buf.old }
    ensures station { StationAtFollowed result (St.faults station.old) (St.faults station.new) }
    ensures sink { SinkAtFollowed result (K.faults out.old) (K.faults out.new) }
{
    reading_tabs_may_go_on::<C, O>();
    let mut times = looks;
    let mut is_late = false;
    for _ in rt.forever() {
        let answer = more(rt, store, pass, station, tab, buf);
        match answer {
            More::Piece { count } => {
                let later = is_late_with(is_late, count);
                is_late = later;
                if let Err(Failed) = write_all(out, &buf[..count]) {
                    return Followed::SinkFault;
                }
            }
            More::NotYet { .. } => {
                times += 1;
                if times == most {
                    return Followed::Waited { looks: times };
                }
                thread::yield_now();
            }
            More::End => return Followed::End,
            More::Halted => return Followed::Halted,
            More::OtherUrl => return Followed::OtherUrl { is_late },
            More::Fault => return Followed::Fault,
        }
    }
    unreachable!()
}

// Whether a byte was given, where that was so before or this many are given now.
fn is_late_with(is_late: bool, count: usize) -> bool
    ensures none { result ≡ false → (is_late ≡ false) × (count ≡ 0) }
    ensures some { result ≡ true → (is_late ≡ true) ⊎ (0 < count) }
{
    is_late || count > 0
}
