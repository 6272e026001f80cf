// A tab reads on, as far as its entry goes.
ghost use Rattle.std.specs.Prelude.{IfOk, List, OnErr, [], length, ◌++◌, ◌+◌, ◌≡◌, ◌≢◌, ◌≤◌, ℕ};
ghost use Rattle.core_model.specs.Tabs.{inner, tab_at};
ghost use Rattle.rock_io.specs.Faults.{Rose};
ghost use Rattle.rock_reader.specs.Reading.{ReadsAs, Standing};
ghost use Rattle.rock_reader.specs.Wanted.{FollowsReader};
ghost use Rattle.slot_cell.specs.declared.header.TheConstants.{HEADER_SIZE};
ghost use Rattle.store_rule.specs.Passes.{basis, view};
ghost use Rattle.store_serve.specs.Following.{GaveSome, WentOn};

use rock_disk::{Cell, Station};
use rock_reader::{More, more, reading_tabs_may_go_on};
use std::alloc::AllocError;
use std::sync::Wait;
use store_rule::{Origin, Pass, Store};

/// Reads on for a tab until there is nothing to give, puts all that it was given behind `out`, and answers why it
/// ended: never with a piece. `piece` has room for what a slot may add to a body.
///
/// # Errors
///
/// Want of memory. The tab reads still; what it was given is not all in `out`.
pub fn read_on<R: Wait, C: Cell, O: Origin, St: Station<C = C>>(
    rt: &R,
    store: &Store<C, O>,
    pass: &mut Pass<C>,
    station: &mut St,
    tab: u8,
    piece: &mut [u8],
    out: &mut Vec<u8>,
) -> Result<More, AllocError>
    requires reads { (e : Standing) × ReadsAs C.tells C.state O.offers store.now pass.old tab e }
    requires room { (basis C.tells C.state O.offers store.now).slot ≤ length piece.old + HEADER_SIZE }
    ensures went { (e : Standing) → ReadsAs C.tells C.state O.offers store.now pass.old tab e
        → IfOk result (λ answer. (bytes : List ℕ) × (out.new.items ≡ out.old.items ++ bytes) × WentOn C.tells C.state O.offers store.now tab e pass.old pass.new bytes answer) }
    ensures stopped { (e : Standing) → ReadsAs C.tells C.state O.offers store.now pass.old tab e
        → OnErr result ((bytes : List ℕ) × GaveSome C.tells C.state O.offers store.now tab e pass.old pass.new bytes) }
    ensures others { FollowsReader C.tells C.state O.offers store.now tab pass.old pass.new }
    ensures inner { tab_at (view pass.new) inner ≡ tab_at (view pass.old) inner }
    ensures length { length piece.new ≡ length piece.old }
    ensures failed { IfOk result (λ answer. answer ≡ More.Fault → Rose (St.faults station.old) (St.faults station.new)) }
    ensures unfailed { IfOk result (λ answer. answer ≢ More.Fault → St.faults station.new ≡ St.faults station.old) }
    ensures memory { OnErr result (St.faults station.new ≡ St.faults station.old) }
{
    reading_tabs_may_go_on::<C, O>();
    for _ in rt.forever() {
        let answer = more(rt, store, pass, station, tab, piece);
        let More::Piece { count } = answer else {
            return Ok(answer);
        };
        out.extend_from_slice(&piece[..count])?;
    }
    unreachable!()
}
