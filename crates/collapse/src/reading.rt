// The entry of a URL was opened: it is followed, or a response is fetched in its place.
ghost use Rattle.std.specs.Prelude.{List, length, ◌+◌, ◌<◌, ◌≡◌, ◌≤◌, ℕ};
ghost use Rattle.collapse.specs.Faults.{FetcherAt, SinkAt, StationAt};
ghost use Rattle.collapse.specs.Forwarding.{Forwards, Opened};
ghost use Rattle.core_model.specs.Tabs.{InnerIsFree, tab_at};
ghost use Rattle.core_model.specs.declared.tab.Tab.TheVariants.{Free};
ghost use Rattle.rock_reader.specs.Reading.{ReadsAs, Standing};
ghost use Rattle.rock_reader.specs.Wanted.{FollowsReader};
ghost use Rattle.slot_cell.specs.declared.header.TheConstants.{HEADER_SIZE};
ghost use Rattle.store_rule.specs.Passes.{basis, view};
ghost use Rattle.store_rule.specs.declared.store.Pass.{Pass as PassOf};

use crate::Fetcher;
use crate::answer::{Forwarded, Why};
use crate::following::{Followed, follow};
use crate::sending::fetch_past;
use rock_disk::{Cell, Station};
use rock_io::Sink;
use rock_reader::{close_entry, reading_tabs_may_go_on};
use std::sync::Wait;
use store_rule::{Origin, Pass, Store};

/// Follows the entry of this version that a tab has opened behind so many times in vain, and closes it. Where the entry
/// turns out to be of another URL before a byte was given, the response is fetched.
pub(crate) fn read_entry<R: Wait, C: Cell, O: Origin, St: Station<C = C>, F: Fetcher, K: Sink>(
    rt: &R,
    store: &Store<C, O>,
    pass: &mut Pass<C>,
    station: &mut St,
    fetcher: &mut F,
    tab: u8,
    offer: u64,
    url: &[u8],
    version: u32,
    looks: u32,
    most: u32,
    buf: &mut [u8],
    out: &mut K,
) -> Forwarded
    requires reads { (e : Standing) × ReadsAs C.tells C.state O.offers store.now pass.old tab e }
    requires inner { InnerIsFree (view pass.old) }
    requires room { (basis C.tells C.state O.offers store.now).slot ≤ length buf.old + HEADER_SIZE }
    requires some { 0 < length buf.old }
    requires fewer { looks < most }
    ensures forwards { (p : PassOf C) (rounds : List (PassOf C)) → Opened C.tells C.state O.offers store.now tab offer url.now p rounds pass.old version
        → length rounds ≡ looks
        → Forwards C.tells C.state O.offers store.now tab offer url.now most p pass.new (F.body fetcher.old url.now offer) K.tells (K.taken out.old) (K.taken out.new) (F.starts fetcher.old) (F.starts fetcher.new) result }
    ensures free { tab_at (view pass.new) tab ≡ Free }
    ensures inner { InnerIsFree (view pass.new) }
    ensures others { FollowsReader C.tells C.state O.offers store.now tab pass.old pass.new }
    ensures station { StationAt result (St.faults station.old) (St.faults station.new) }
    ensures fetch { FetcherAt result (F.faults fetcher.old) (F.faults fetcher.new) }
    ensures sink { SinkAt result (K.faults out.old) (K.faults out.new) }
{
    reading_tabs_may_go_on::<C, O>();
    let followed = follow(rt, store, pass, station, tab, looks, most, buf, out);
    close_entry(store, pass, tab);
    match followed {
        Followed::End => Forwarded::Hit { version },
        Followed::Halted => Forwarded::Halted,
        Followed::Fault => Forwarded::Fault,
        Followed::OtherUrl { is_late } => {
            if is_late {
                Forwarded::Halted
            } else {
                fetch_past::<C, O, F, K>(fetcher, offer, url, Why::OtherUrl, buf, out)
            }
        }
        Followed::Waited { looks } => Forwarded::Waited { looks },
        Followed::SinkFault => Forwarded::SinkFault,
    }
}
