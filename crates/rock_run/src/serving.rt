// Workers serve a script on a store, each with a pass and a station.
ghost use Rattle.std.specs.Prelude.{All, IfOk, map, vec_capacity, vec_len, ◌≡◌, ◌≤◌};
ghost use Rattle.store_rule.specs.Passes.{AreNumbered, IsNewOf, basis};
ghost use Rattle.rock_run.specs.Offered.{offers_of};
ghost use Rattle.rock_run.specs.Crews.{MayRest};
ghost use Rattle.rock_run.specs.Runs.{HasPlayed};
ghost use Rattle.rock_run.specs.Scripts.{MayBeServed};

use crate::asked::script_lines_may_be_asked;
use crate::crew::{dismiss, hire, make_rooms};
use crate::origin::ScriptOrigin;
use rock_disk::{Cell, Station};
use rock_io::Memory;
use script_text::{Answer, Script};
use std::alloc::Global;
use std::sync::Wait;
use std::thread::Threads;
use store_rule::{Pass, Store};
use worker_pool::{OpenGate, Ran, run_workers};

/// Serves a script, whose origin the store has, by as many workers as there are passes. Passes and stations are there again
/// afterwards, in their order.
///
/// # Errors
///
/// Want of memory. Lines may have been served.
pub(crate) fn serve<R: Threads + Wait + Sync, C: Cell + Send, St: Station<C = C> + Send>(
    rt: &R,
    alloc: Global,
    store: &Store<C, ScriptOrigin>,
    passes: &mut Vec<Pass<C>>,
    stations: &mut Vec<St>,
    script: &Script,
) -> Result<Vec<Vec<(u32, Answer)>>, Memory>
    requires new { All (IsNewOf C.tells C.state offers_of store.now) passes.old.items }
    requires rest { All (MayRest C.tells C.state offers_of store.now) passes.old.items }
    requires numbered { AreNumbered passes.old.items }
    requires count { (1 ≤ vec_len passes.old) × (vec_len passes.old ≤ 32) }
    requires stations { vec_len stations.old ≡ vec_len passes.old }
    requires offers { (basis C.tells C.state offers_of store.now).offers ≡ offers_of script.now.lines }
    requires lines { MayBeServed (vec_len passes.old) script.now.lines }
    ensures played { IfOk result (λ answers. HasPlayed C.tells C.state offers_of St.faults store.now script.now.lines
        passes.old.items stations.old.items passes.new.items stations.new.items (map (λ each. each.items) answers.items)) }
    ensures rest { All (MayRest C.tells C.state offers_of store.now) passes.new.items }
    ensures numbered { AreNumbered passes.new.items }
    ensures count { (vec_len passes.new ≡ vec_len passes.old) × (vec_len stations.new ≡ vec_len stations.old) }
{
    script_lines_may_be_asked::<C, ScriptOrigin>();
    let count = passes.len();
    let rooms = make_rooms(alloc, store.slot_size(), count)?;
    let mut shelves = Vec::with_capacity(alloc, count)?;
    hire(store, passes, stations, rooms, &mut shelves);
    match run_workers(rt, alloc, shelves, script, &OpenGate) {
        Ok(Ran { shelves, answers }) => {
            dismiss(shelves, passes, stations);
            Ok(answers)
        }
        Err(shelves) => {
            dismiss(shelves, passes, stations);
            Err(Memory)
        }
    }
}
