// A script is run over a file.
ghost use Rattle.std.specs.Prelude.{All, IfErr, IfOk, IsErr, IsErrOf, IsTrue, None, [], map, vec_len, ◌+◌, ◌≡◌, ◌≤◌, ℕ};
ghost use Rattle.std.specs.FinMap.{get};
ghost use Rattle.db_layout.specs.Layout.{IsSlotSize};
ghost use Rattle.rock_disk.specs.File.{IsKept, IsNotAway, IsThere, NoneAway};
ghost use Rattle.rock_disk.specs.Opened.{IsSmall};
ghost use Rattle.store_rule.specs.Passes.{AreNumbered, IsNewOf, basis};
ghost use Rattle.rock_disk.specs.Counts.{NoStation, counts};
ghost use Rattle.rock_open.specs.Opening.{FileSays, HasSlots, IsAnchors, IsPasses};
ghost use Rattle.rock_run.specs.Offered.{offers_of};
ghost use Rattle.rock_run.specs.Crews.{MayRest};
ghost use Rattle.rock_run.specs.Device.{RunEnded, RunUnfailed, RunEnds, ServingEnds};
ghost use Rattle.rock_run.specs.Runs.{HasClosed, HasRun, HasServed, RefusalLeaves};
ghost use Rattle.rock_run.specs.Scripts.{MayBeServed};

use crate::origin::ScriptOrigin;
use crate::serving::serve;
use crate::stations::{end_stations, make_stations};
use pass_laws::new_passes_rest;
use rock_disk::{StationFault, Volume, opened_cells_are_the_files, opened_slots_are_wide_and_few};
use rock_open::{
    Counted, OpenStore, OpenStoreFault, close_counted, closed_cells_may_be_given_back, open_store,
};
use script_text::{Answer, Script};
use std::alloc::Global;
use std::sync::Wait;
use std::thread::Threads;
use store_rule::{Pass, Store};

/// The numbers of the lines of each worker, with their answers.
type Answers = Vec<Vec<(u32, Answer)>>;

// Makes the stations of the workers, and serves the script.
fn serve_by_stations<R: Threads + Wait + Sync, V: Volume>(
    rt: &R,
    alloc: Global,
    volume: &mut V,
    name: &str,
    store: &Store<V::C, ScriptOrigin>,
    passes: &mut Vec<Pass<V::C>>,
    stations: &mut Vec<V::St>,
    script: &Script,
) -> Result<Answers, OpenStoreFault>
where
    V::St: Send,
    requires there { IsTrue V.tells → IsThere (V.files volume.old) name.now }
    requires new { All (IsNewOf V.C.tells V.C.state offers_of store.now) passes.old.items }
    requires rest { All (MayRest V.C.tells V.C.state offers_of store.now) passes.old.items }
    requires numbered { AreNumbered passes.old.items }
    requires count { (1 ≤ vec_len passes.old) × (vec_len passes.old ≤ 32) }
    requires empty { stations.old.items ≡ [] }
    requires offers { (basis V.C.tells V.C.state offers_of store.now).offers ≡ offers_of script.now.lines }
    requires lines { MayBeServed (vec_len passes.old) script.now.lines }
    ensures played { IfOk result (λ answers. HasServed V.C.tells V.C.state offers_of V.St.faults store.now script.now.lines
        passes.old.items passes.new.items stations.new.items (map (λ each. each.items) answers.items)) }
    ensures refused { IfErr result (ServingEnds (V.faults volume.old) (V.faults volume.new)) }
    ensures rest { All (MayRest V.C.tells V.C.state offers_of store.now) passes.new.items }
    ensures numbered { AreNumbered passes.new.items }
    ensures count { vec_len passes.new ≡ vec_len passes.old }
    ensures made { V.made volume.new ≡ V.made volume.old + vec_len stations.new }
    ensures unfailed { (IsErrOf result OpenStoreFault.Failed → ⊥) → V.faults volume.new ≡ V.faults volume.old }
    ensures faults { V.faults volume.old ≤ V.faults volume.new }
    ensures files { V.files volume.new ≡ V.files volume.old }
    ensures ended { V.ended volume.new ≡ V.ended volume.old }
{
    let count = passes.len();
    let Ok(()) = stations.reserve(count) else {
        return Err(OpenStoreFault::Memory);
    };
    match make_stations(volume, name, count, stations) {
        Ok(()) => (),
        Err(StationFault::Failed) => return Err(OpenStoreFault::Failed),
        Err(StationFault::Memory) => return Err(OpenStoreFault::Memory),
    }
    match serve(rt, alloc, store, passes, stations, script) {
        Ok(answers) => Ok(answers),
        Err(_) => Err(OpenStoreFault::Memory),
    }
}

/// Runs a script that was read for so many workers over a file: opens it as a store, makes a station for each worker, lets
/// the workers serve their lines on threads, closes the store, gives the cells back and ends the stations. The answers are
/// those of each worker, in order, with the numbers of its lines.
///
/// `slot` is the size of a slot in bytes.
///
/// # Errors
///
/// In this order: [`OpenStoreFault::BadGeometry`] with field 1 where the slot size is outside its limits, and with field 3
/// where there are not 1 to 32 workers; [`OpenStoreFault::Missing`]; [`OpenStoreFault::Small`]; `BadGeometry` with field 2
/// where there are no anchors, or more than slots. Where one of these is due, no station is made.
/// [`OpenStoreFault::Failed`] comes where the volume's count of faults rose, or the station of the rebuild was ended with a
/// count above 0. [`OpenStoreFault::Memory`] may come at any point, also when lines were served. After each refusal the file
/// is back in the volume, and each station that was made is ended.
pub fn run_script<R: Threads + Wait + Sync, V: Volume>(
    rt: &R,
    alloc: Global,
    volume: &mut V,
    name: &str,
    slot: u32,
    anchors: u32,
    workers: u32,
    script: &Script,
) -> Result<Answers, OpenStoreFault>
where
    V::St: Send,
    requires home { IsTrue V.tells → IsNotAway (get (V.files volume.old) name.now) }
    requires lines { MayBeServed workers script.now.lines }

    ensures ran { IfOk result (λ answers. HasRun V.tells V.C.tells V.C.state (V.files volume.old) (V.files volume.new)
        name.now slot anchors workers script.now.lines V.St.faults (map (λ each. each.items) answers.items)
        (counts V.faults V.made V.ended volume.old)
        (counts V.faults V.made V.ended volume.new)) }

    // When each refusal comes: only where its cause stands, by the numbers, the counts and the file;
    ensures refused { IfErr result (RunEnds slot anchors workers
        (counts V.faults V.made V.ended volume.old)
        (counts V.faults V.made V.ended volume.new)) }
    ensures says { IsTrue V.tells → IfErr result (FileSays (V.files volume.old) name.now slot anchors) }

    // and wherever it stands, want of memory and faults aside.
    ensures bad_slot { (IsSlotSize slot → ⊥) → IsErrOf result (OpenStoreFault.BadGeometry 1) }
    ensures bad_workers { IsSlotSize slot → (IsPasses workers → ⊥) → IsErrOf result (OpenStoreFault.BadGeometry 3) }
    ensures missing { IsTrue V.tells → IsSlotSize slot → IsPasses workers → get (V.files volume.old) name.now ≡ None
        → IsErrOf result OpenStoreFault.Missing }
    ensures small { IsTrue V.tells → IsSlotSize slot → IsPasses workers → (bytes : ℕ)
        → IsSmall (V.files volume.old) name.now slot bytes → IsErrOf result (OpenStoreFault.Small bytes) }
    ensures bad_anchors { IsTrue V.tells → (slots : ℕ)
        → HasSlots (V.files volume.old) name.now slot slots → (IsAnchors anchors slots → ⊥)
        → IsErr result × NoStation
        (counts V.faults V.made V.ended volume.old)
        (counts V.faults V.made V.ended volume.new) }

    // What is left of the volume: at each refusal before the store was open the file is as it was, or as opening cuts it, and
    // else its cells are back as the store left them. Where a number or the file refuses the run, the store was not open.
    ensures kept { IfErr result (RefusalLeaves (IsTrue V.tells → IsKept slot name.now (V.files volume.old) (V.files volume.new))
        (HasClosed V.tells V.C.tells V.C.state (V.files volume.old) (V.files volume.new) name.now slot anchors workers script.now.lines)) }
    ensures back { IsTrue V.tells → NoneAway (V.files volume.old) → NoneAway (V.files volume.new) }
    ensures ended { RunEnded
        (counts V.faults V.made V.ended volume.old)
        (counts V.faults V.made V.ended volume.new) }
    ensures faults { V.faults volume.old ≤ V.faults volume.new }
    ensures unfailed { (IsErrOf result OpenStoreFault.Failed → ⊥) → RunUnfailed
        (counts V.faults V.made V.ended volume.old)
        (counts V.faults V.made V.ended volume.new) }
{
    new_passes_rest::<V::C, ScriptOrigin>();
    opened_cells_are_the_files();
    opened_slots_are_wide_and_few();
    closed_cells_may_be_given_back::<V::C>();
    let origin = ScriptOrigin::new(script);
    let OpenStore {
        store,
        mut passes,
        header,
    } = match open_store(alloc, volume, name, slot, anchors, workers, origin) {
        Ok(open) => open,
        Err(fault) => return Err(fault),
    };
    let mut stations = Vec::new(alloc);
    let served = serve_by_stations(
        rt,
        alloc,
        volume,
        name,
        &store,
        &mut passes,
        &mut stations,
        script,
    );
    let Counted { cells, .. } = close_counted(store, passes);
    volume.give_back(name, header, cells);
    end_stations(volume, stations);
    served
}
