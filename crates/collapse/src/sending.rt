// A response is fetched, and goes to the sink alone.
ghost use Rattle.std.specs.Prelude.{List, [], length, ◌+◌, ◌++◌, ◌<◌, ◌≡◌, ℕ};
ghost use Rattle.collapse.specs.Faults.{FetcherAt, FetcherAtSent, SinkAt, SinkAtSent};
ghost use Rattle.collapse.specs.Forwarding.{ComesPast, Forwards, GoesDirect};
ghost use Rattle.collapse.specs.Sending.{Sends, SentAs};
ghost use Rattle.store_rule.specs.declared.store.Pass.{Pass};
ghost use Rattle.store_rule.specs.declared.store.Store.{Store};

use crate::Fetcher;
use crate::answer::{Forwarded, Why};
use rock_disk::Cell;
use rock_io::{Failed, Sink, write_all};
use store_rule::Origin;

/// How a fetch ended.
#[derive(Clone, Copy)]
pub(crate) enum Sent {
    /// All came, and went to the sink.
    Whole,
    /// The fetcher failed.
    FetchFault,
    /// The sink failed.
    SinkFault,
}

/// Fetches a response that is not stored, for this cause, and gives it to the sink.
pub(crate) fn fetch_past<C: Cell, O: Origin, F: Fetcher, K: Sink>(
    fetcher: &mut F,
    offer: u64,
    url: &[u8],
    why: Why,
    buf: &mut [u8],
    out: &mut K,
) -> Forwarded
    requires { 0 < length buf.old }
    ensures forwards { (s : Store C O) (t : ℕ) (p q : Pass C) (most : ℕ) (old : List ℕ)
        → GoesDirect C.tells C.state O.offers s t offer url.now most p q (length (F.body fetcher.old url.now offer)) why
        → Sends K.tells old (K.taken out.old) []
        → Forwards C.tells C.state O.offers s t offer url.now most p q (F.body fetcher.old url.now offer) K.tells old (K.taken out.new) (F.starts fetcher.old) (F.starts fetcher.new) result }
    ensures past { ComesPast why result }
    ensures fetch { FetcherAt result (F.faults fetcher.old) (F.faults fetcher.new) }
    ensures sink { SinkAt result (K.faults out.old) (K.faults out.new) }
{
    if let Err(Failed) = fetcher.start(url, offer) {
        return Forwarded::FetchFault;
    }
    send_past::<C, O, F, K>(fetcher, why, buf, out)
}

/// Gives what is left of a fetch that is not stored, for this cause, to the sink.
pub(crate) fn send_past<C: Cell, O: Origin, F: Fetcher, K: Sink>(
    fetcher: &mut F,
    why: Why,
    buf: &mut [u8],
    out: &mut K,
) -> Forwarded
    requires { 0 < length buf.old }
    ensures forwards { (s : Store C O) (t offer : ℕ) (url : List ℕ) (p q : Pass C) (body sent old : List ℕ) (starts most : ℕ)
        → GoesDirect C.tells C.state O.offers s t offer url most p q (length body) why
        → body ≡ sent ++ F.left fetcher.old → Sends K.tells old (K.taken out.old) sent → F.starts fetcher.old ≡ starts + 1
        → Forwards C.tells C.state O.offers s t offer url most p q body K.tells old (K.taken out.new) starts (F.starts fetcher.new) result }
    ensures past { ComesPast why result }
    ensures fetch { FetcherAt result (F.faults fetcher.old) (F.faults fetcher.new) }
    ensures sink { SinkAt result (K.faults out.old) (K.faults out.new) }
{
    match send_rest(fetcher, buf, out) {
        Sent::Whole => Forwarded::Direct { why },
        Sent::FetchFault => Forwarded::FetchFault,
        Sent::SinkFault => Forwarded::SinkFault,
    }
}

// Gives what is left of a fetch to the sink.
fn send_rest<F: Fetcher, K: Sink>(fetcher: &mut F, buf: &mut [u8], out: &mut K) -> Sent
    requires { 0 < length buf.old }
    ensures sent { SentAs K.tells (K.taken out.old) (K.taken out.new) (F.left fetcher.old) result }
    ensures starts { F.starts fetcher.new ≡ F.starts fetcher.old }
    ensures fetch { FetcherAtSent result (F.faults fetcher.old) (F.faults fetcher.new) }
    ensures sink { SinkAtSent result (K.faults out.old) (K.faults out.new) }
{
    loop {
        let Ok(count) = fetcher.next(buf) else {
            return Sent::FetchFault;
        };
        if count == 0 {
            return Sent::Whole;
        }
        if let Err(Failed) = write_all(out, &buf[..count]) {
            return Sent::SinkFault;
        }
    }
}
