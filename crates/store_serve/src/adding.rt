// Bytes of a body are appended to the entry that a tab writes.
ghost use Rattle.std.specs.Prelude.{IfErr, IfOk, IsErrOf, List, OnOk, length, ◌+◌, ◌-◌, ◌<◌, ◌≡◌, ◌≤◌, ℕ};
ghost use Rattle.plain_model.specs.Serving.{bytes_of};
ghost use Rattle.rock_io.specs.Faults.{Rose};
ghost use Rattle.rock_writer.specs.Appending.{Appended, NotAppended};
ghost use Rattle.rock_writer.specs.Durable.{LoggedSoFar};
ghost use Rattle.rock_writer.specs.Entries.{Entry};
ghost use Rattle.rock_writer.specs.Passes.{FollowsWriting};
ghost use Rattle.store_rule.specs.Passes.{basis, view};
ghost use Rattle.store_serve.specs.Adding.{Added, MayAdd, NotAdded, StoppedBelow, taken_on};

use crate::bodies::{PIECE, letters};
use rock_disk::{Cell, Station};
use rock_writer::{WriteFault, append};
use script_text::Body;
use store_rule::{Origin, Pass, Store};

/// Appends the bytes of a body from a place up to another one to the entry that a tab writes.
///
/// # Errors
///
/// A slot was full and was not published. The entry is halted, and the tab free.
pub fn add_bytes<C: Cell, O: Origin, St: Station<C = C>>(
    store: &Store<C, O>,
    pass: &mut Pass<C>,
    station: &mut St,
    tab: u8,
    body: &Body,
    from: usize,
    upto: usize,
) -> Result<(), WriteFault>
    requires { (e : Entry) × MayAdd C.tells C.state O.offers store.now tab e (bytes_of body.now) from upto pass.old }
    ensures ok { (e : Entry) → MayAdd C.tells C.state O.offers store.now tab e (bytes_of body.now) from upto pass.old
        → IfOk result (λ done. Added C.tells C.state O.offers store.now tab e pass.old pass.new (upto - from)) }
    ensures durable { (e : Entry) → MayAdd C.tells C.state O.offers store.now tab e (bytes_of body.now) from upto pass.old
        → LoggedSoFar (basis C.tells C.state O.offers store.now) e (view pass.old)
        → OnOk result (LoggedSoFar (basis C.tells C.state O.offers store.now) (taken_on e (upto - from)) (view pass.new)) }
    ensures err { (e : Entry) → MayAdd C.tells C.state O.offers store.now tab e (bytes_of body.now) from upto pass.old
        → IfErr result (λ fault. NotAdded C.tells C.state O.offers store.now tab e pass.old pass.new fault) }
    ensures fewer { (e : Entry) → MayAdd C.tells C.state O.offers store.now tab e (bytes_of body.now) from upto pass.old
        → IfErr result (λ fault. StoppedBelow C.tells C.state O.offers store.now tab e pass.old pass.new (upto - from) fault) }
    ensures others { FollowsWriting C.tells C.state O.offers store.now tab pass.old pass.new }
    ensures unfailed { (IsErrOf result WriteFault.Fault → ⊥) → St.faults station.new ≡ St.faults station.old }
    ensures failed { IsErrOf result WriteFault.Fault → Rose (St.faults station.old) (St.faults station.new) }
{
    let mut taken = from;
    while taken < upto {
        match append_some(store, pass, station, tab, body, taken, upto) {
            Ok(count) => taken += count,
            Err(fault) => return Err(fault),
        }
    }
    Ok(())
}

// Appends some of these bytes, and answers how many.
fn append_some<C: Cell, O: Origin, St: Station<C = C>>(
    store: &Store<C, O>,
    pass: &mut Pass<C>,
    station: &mut St,
    tab: u8,
    body: &Body,
    from: usize,
    upto: usize,
) -> Result<usize, WriteFault>
    requires may { (e : Entry) × MayAdd C.tells C.state O.offers store.now tab e (bytes_of body.now) from upto pass.old }
    requires some { from < upto }
    ensures ok { (e : Entry) → MayAdd C.tells C.state O.offers store.now tab e (bytes_of body.now) from upto pass.old
        → IfOk result (λ count. (bytes : List ℕ) × Appended C.tells C.state O.offers store.now tab e bytes pass.old pass.new count) }
    ensures durable { (e : Entry) → MayAdd C.tells C.state O.offers store.now tab e (bytes_of body.now) from upto pass.old
        → LoggedSoFar (basis C.tells C.state O.offers store.now) e (view pass.old)
        → IfOk result (λ count. LoggedSoFar (basis C.tells C.state O.offers store.now) (taken_on e count) (view pass.new)) }
    ensures some { IfOk result (λ count. (0 < count) × (from + count ≤ upto)) }
    ensures err { (e : Entry) → MayAdd C.tells C.state O.offers store.now tab e (bytes_of body.now) from upto pass.old
        → IfErr result (λ fault. (bytes : List ℕ) × NotAppended C.tells C.state O.offers store.now tab e bytes pass.old pass.new fault) }
    ensures others { FollowsWriting C.tells C.state O.offers store.now tab pass.old pass.new }
    ensures unfailed { (IsErrOf result WriteFault.Fault → ⊥) → St.faults station.new ≡ St.faults station.old }
    ensures failed { IsErrOf result WriteFault.Fault → Rose (St.faults station.old) (St.faults station.new) }
{
    match body {
        Body::Text(text) => append(store, pass, station, tab, &text.as_slice()[from..upto]),
        Body::Made { shift, .. } => {
            let count = PIECE.min(upto - from);
            append(store, pass, station, tab, &letters(from, *shift)[..count])
        }
    }
}
