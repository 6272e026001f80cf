// The files of a cache are opened as stores, and closed again.
ghost use Rattle.std.specs.FinMap.{get};
ghost use Rattle.std.specs.Prelude.{Bool, IfErr, IfOk, IsErrOf, IsTrue, List, None, OnErr, OnOk, Some, drop, length, slice_get, vec_len, ◌+◌, ◌<◌, ◌≡◌, ◌≤◌, ◌⊎◌, ℕ};
ghost use Rattle.db_layout.specs.Layout.{IsSlotSize};
ghost use Rattle.db_layout.specs.declared.layout.TheConstants.{HEADER_BYTES};
ghost use Rattle.dir_set.specs.Dirs.{dir_count};
ghost use Rattle.dir_set.specs.Files.{AreDifferent, AreHome, ArePassesAt, ClosesDir, ClosesFile, ClosesAgain, DirsEnd, HaveOpened, IsRefusedBy, KeepsFile, LeavesDir, MayClose, MayCloseDir, OpensDirs, OthersStay, StaysHome};
ghost use Rattle.dir_set.specs.Parts.{AreOpen, Gathered, IsRefused};
ghost use Rattle.dir_set.specs.declared.dirs.DirPass.{DirPass as DirPassOf};
ghost use Rattle.dir_set.specs.declared.dirs.Dirs.{Dirs as DirsOf};
ghost use Rattle.dir_set.specs.declared.dirs.TheConstants.{MOST_DIRS};
ghost use Rattle.dir_set.specs.declared.parts.DirHome.{DirHome as DirHomeOf};
ghost use Rattle.rock_disk.specs.Cell.{shape};
ghost use Rattle.rock_disk.specs.File.{Files, HasSlots};
ghost use Rattle.rock_disk.specs.Opened.{IsSmall};
ghost use Rattle.rock_disk.specs.declared.cell.TheConstants.{HEADER_NUMBER};
ghost use Rattle.rock_disk.specs.Counts.{EachEnded, NoneFailed, OneStation, counts};
ghost use Rattle.rock_open.specs.Opening.{FileSays, IsAnchors, IsPasses, OpeningEnds, OpensStore};
ghost use Rattle.store_rule.specs.Passes.{basis};
ghost use Rattle.store_rule.specs.declared.store.Pass.{Pass as PassOf};
ghost use Rattle.store_rule.specs.declared.store.Store.{Store as StoreOf};

use crate::dirs::{DirPass, Dirs};
use crate::fault::DirFault;
use crate::parts::{DirHome, Parts, gather};
use pass_laws::new_passes_rest;
use rock_disk::{Cell, Volume, opened_cells_are_the_files, opened_slots_are_wide_and_few};
use rock_io::Words;
use rock_open::{
    OpenStore, OpenStoreFault, close_store, closed_cells_may_be_given_back, open_store,
};
use std::alloc::Global;
use store_rule::{Origin, Pass, Store};

/// A cache whose files are open.
#[derive(Drop)]
pub struct OpenDirs<C: Cell, O: Origin> {
    pub dirs: Dirs<C, O>,
    /// The passes of each worker, in the order of their numbers.
    pub passes: Vec<DirPass<C>>,
    /// What closing each file needs, in order.
    pub homes: Vec<DirHome<C>>,
}

/// Opens files of these names as the stores of a cache, in order, as `open_store`. The first entry of each worker is begun
/// in the first file. There is an origin for each file, in order.
///
/// # Errors
///
/// That of the first file that `open_store` refuses, and [`OpenStoreFault::Memory`] of the first one where memory is wanted
/// once it is open. All files are back then, and each station that was made is ended.
pub fn open_dirs<V: Volume, O: Origin>(
    alloc: Global,
    volume: &mut V,
    names: &Words,
    slot: u32,
    anchors: u32,
    passes: u32,
    mut origins: Vec<O>,
) -> Result<OpenDirs<V::C, O>, DirFault>
    requires some { 0 < length names.now }
    requires few { length names.now ≤ MOST_DIRS }
    requires different { AreDifferent names.now }
    requires origins { vec_len origins ≡ length names.now }
    requires home { IsTrue V.tells → AreHome (V.files volume.old) names.now }

    ensures opened { IfOk result (λ o. OpensDirs V.tells V.C.tells V.C.state O.offers (V.files volume.old) (V.files volume.new)
        slot anchors passes names.now origins.items o.dirs o.passes.items o.homes.items) }
    ensures stations { OnOk result (HaveOpened (length names.now)
        (counts V.faults V.made V.ended volume.old)
        (counts V.faults V.made V.ended volume.new)) }

    // When each refusal comes: only where its cause stands, by the numbers, the counts and the file;
    ensures there { IfErr result (λ r. r.dir < length names.now) }
    ensures refused { IfErr result (DirsEnd slot anchors passes
        (counts V.faults V.made V.ended volume.old)
        (counts V.faults V.made V.ended volume.new)) }
    ensures says { IsTrue V.tells → IfErr result (λ r. (name : List ℕ) → slice_get names.now r.dir ≡ Some name
        → FileSays (V.files volume.old) name slot anchors r.fault) }

    // and wherever it stands, want of memory and faults aside.
    ensures bad_slot { (IsSlotSize slot → ⊥) → IsRefusedBy 0 (λ fault. fault ≡ OpenStoreFault.BadGeometry 1) result }
    ensures bad_passes { IsSlotSize slot → (IsPasses passes → ⊥) → IsRefusedBy 0 (λ fault. fault ≡ OpenStoreFault.BadGeometry 3) result }
    ensures missing { IsTrue V.tells → IsSlotSize slot → IsPasses passes → (d : ℕ) (name : List ℕ) → slice_get names.now d ≡ Some name
        → get (V.files volume.old) name ≡ None → IsRefusedBy d (λ fault. fault ≡ OpenStoreFault.Missing) result }
    ensures small { IsTrue V.tells → IsSlotSize slot → IsPasses passes → (d : ℕ) (name : List ℕ) → slice_get names.now d ≡ Some name
        → (bytes : ℕ) → IsSmall (V.files volume.old) name slot bytes → IsRefusedBy d (λ fault. fault ≡ OpenStoreFault.Small bytes) result }
    ensures bad_anchors { IsTrue V.tells → (d : ℕ) (name : List ℕ) → slice_get names.now d ≡ Some name
        → (slots : ℕ) → HasSlots (V.files volume.old) name slot slots → (IsAnchors anchors slots → ⊥)
        → IsRefusedBy d (λ fault. V.made volume.new ≡ V.made volume.old + d) result }

    // What is left of the volume.
    ensures kept { IfErr result (λ r. (d : ℕ) (name : List ℕ) (origin : O) → slice_get names.now d ≡ Some name → slice_get origins.items d ≡ Some origin
        → LeavesDir V.tells V.C.tells V.C.state O.offers (V.files volume.old) (V.files volume.new) slot anchors passes r d name origin) }
    ensures others { OnErr result (IsTrue V.tells → OthersStay names.now (V.files volume.old) (V.files volume.new)) }
    ensures back { OnErr result (IsTrue V.tells → StaysHome (V.files volume.old) (V.files volume.new)) }
    ensures faults { V.faults volume.old ≤ V.faults volume.new }
{
    new_passes_rest::<V::C, O>();
    opened_cells_are_the_files();
    opened_slots_are_wide_and_few();
    let mut parts = match open_first(alloc, volume, names, slot, anchors, passes, &mut origins) {
        Ok(parts) => parts,
        Err(fault) => return Err(DirFault { dir: 0, fault }),
    };
    for dir in 1..names.as_slice().len() {
        let name = name_at(names, dir);
        let origin = origins.remove(0);
        match open_store(alloc, volume, name, slot, anchors, passes, origin) {
            Ok(opened) => parts.add(opened),
            Err(fault) => {
                close_parts(volume, names, parts);
                let dir = dir as u32;
                return Err(DirFault { dir, fault });
            }
        }
    }
    let Parts {
        stores,
        homes,
        passes,
    } = parts;
    let dirs = Dirs::from_stores(stores);
    Ok(OpenDirs {
        dirs,
        passes,
        homes,
    })
}

/// Closes the stores of a cache, as `close_store`, and gives the cells of each file back under its name. It is never
/// refused, and takes no memory.
pub fn close_dirs<V: Volume, O: Origin>(
    dirs: Dirs<V::C, O>,
    passes: Vec<DirPass<V::C>>,
    homes: Vec<DirHome<V::C>>,
    volume: &mut V,
    names: &Words,
)
    requires some { 0 < vec_len passes }
    requires files { (dir_count dirs ≡ length names.now) × (vec_len homes ≡ length names.now) }
    requires workers { (w : ℕ) (a : DirPassOf V.C) → slice_get passes.items w ≡ Some a → length a.passes.items ≡ length names.now }
    requires different { AreDifferent names.now }
    requires may { (d : ℕ) (name : List ℕ) (s : StoreOf V.C O) (h : DirHomeOf V.C) → slice_get names.now d ≡ Some name → slice_get dirs.stores.items d ≡ Some s
        → slice_get homes.items d ≡ Some h → MayCloseDir V.tells V.C.tells V.C.state O.offers (V.files volume.old) passes.items d name s h }
    ensures closed { (d : ℕ) (name : List ℕ) (s : StoreOf V.C O) (h : DirHomeOf V.C) → slice_get names.now d ≡ Some name → slice_get dirs.stores.items d ≡ Some s
        → slice_get homes.items d ≡ Some h → ClosesDir V.tells V.C.tells V.C.state O.offers (V.files volume.old) (V.files volume.new) passes.items d name s h }
    ensures others { IsTrue V.tells → OthersStay names.now (V.files volume.old) (V.files volume.new) }
    ensures home { IsTrue V.tells → AreHome (V.files volume.new) names.now }
    ensures faults { V.faults volume.new ≡ V.faults volume.old }
    ensures made { V.made volume.new ≡ V.made volume.old }
    ensures ended { V.ended volume.new ≡ V.ended volume.old }
{
    let Dirs { stores } = dirs;
    let parts = Parts {
        stores,
        homes,
        passes,
    };
    close_parts(volume, names, parts);
}

/// A cache that was opened may be closed at once: each store with the new passes of its file. The function does nothing: the
/// proof of a function that calls it may use what it ensures.
pub fn new_caches_may_be_closed<C: Cell, O: Origin>()
    ensures some { (told : Bool) (before after : Files) (slot anchors passes : ℕ) (names : List (List ℕ)) (origins : List O) (dirs : DirsOf C O) (workers : List (DirPassOf C)) (homes : List (DirHomeOf C))
        → OpensDirs told C.tells C.state O.offers before after slot anchors passes names origins dirs workers homes → length origins ≡ length names → 0 < length names → 0 < length workers }
    ensures may { (told : Bool) (before after : Files) (slot anchors passes : ℕ) (names : List (List ℕ)) (origins : List O) (dirs : DirsOf C O) (workers : List (DirPassOf C)) (homes : List (DirHomeOf C))
        → OpensDirs told C.tells C.state O.offers before after slot anchors passes names origins dirs workers homes → length origins ≡ length names
        → (d : ℕ) (name : List ℕ) (s : StoreOf C O) (h : DirHomeOf C) → slice_get names d ≡ Some name → slice_get dirs.stores.items d ≡ Some s
        → slice_get homes d ≡ Some h → MayCloseDir told C.tells C.state O.offers after workers d name s h }
{
    new_passes_rest::<C, O>();
    opened_slots_are_wide_and_few();
}

// The name at this place.
fn name_at(names: &Words, place: usize) -> &str
    requires { place < length names.now }
    ensures { slice_get names.now place ≡ Some result.now }
{
    names.as_slice()[place].as_str()
}

// Opens the first file, and makes room for all. Where there is none, the file is closed again.
fn open_first<V: Volume, O: Origin>(
    alloc: Global,
    volume: &mut V,
    names: &Words,
    slot: u32,
    anchors: u32,
    passes: u32,
    origins: &mut Vec<O>,
) -> Result<Parts<V::C, O>, OpenStoreFault>
    requires some { 0 < length names.now }
    requires different { AreDifferent names.now }
    requires origins { vec_len origins.old ≡ length names.now }
    requires home { IsTrue V.tells → AreHome (V.files volume.old) names.now }
    ensures open { IfOk result (AreOpen V.tells V.C.tells V.C.state O.offers (V.files volume.old) (V.files volume.new) slot anchors passes names.now origins.old.items 1) }
    ensures stations { OnOk result (HaveOpened 1
        (counts V.faults V.made V.ended volume.old)
        (counts V.faults V.made V.ended volume.new)) }
    ensures size { OnOk result (IsSlotSize slot × IsPasses passes) }
    ensures refused { IfErr result (λ fault. (name : List ℕ) (origin : O) → slice_get names.now 0 ≡ Some name → slice_get origins.old.items 0 ≡ Some origin
        → IsRefused V.tells (V.files volume.old)
        (counts V.faults V.made V.ended volume.old)
        (counts V.faults V.made V.ended volume.new) slot anchors passes name fault
        × ((IsTrue V.tells → KeepsFile slot name (V.files volume.old) (V.files volume.new))
        ⊎ ((fault ≡ OpenStoreFault.Memory) × ClosesAgain V.tells V.C.tells V.C.state O.offers (V.files volume.old) (V.files volume.new) slot anchors passes name origin))) }
    ensures others { OnErr result (IsTrue V.tells → (name : List ℕ) → (slice_get names.now 0 ≡ Some name) ⊎ (get (V.files volume.new) name ≡ get (V.files volume.old) name)) }
    ensures faults { V.faults volume.old ≤ V.faults volume.new }
    ensures left { origins.new.items ≡ drop 1 origins.old.items }
{
    new_passes_rest::<V::C, O>();
    opened_cells_are_the_files();
    opened_slots_are_wide_and_few();
    let name = name_at(names, 0);
    let origin = origins.remove(0);
    let opened = match open_store(alloc, volume, name, slot, anchors, passes, origin) {
        Ok(opened) => opened,
        Err(fault) => return Err(fault),
    };
    match Parts::with_room(alloc, names.as_slice().len(), opened.passes.len()) {
        Ok(mut parts) => {
            parts.add(opened);
            Ok(parts)
        }
        Err(_) => {
            let OpenStore {
                store,
                passes,
                header,
            } = opened;
            close_file(volume, name, store, passes, header);
            Err(OpenStoreFault::Memory)
        }
    }
}

// Closes the files that are open, the last one first.
fn close_parts<V: Volume, O: Origin>(volume: &mut V, names: &Words, mut parts: Parts<V::C, O>)
    requires some { 0 < vec_len parts.passes }
    requires files { (vec_len parts.stores ≤ length names.now) × (vec_len parts.homes ≡ vec_len parts.stores) }
    requires workers { (w : ℕ) (a : DirPassOf V.C) → slice_get parts.passes.items w ≡ Some a → vec_len a.passes ≡ vec_len parts.stores }
    requires different { AreDifferent names.now }
    requires may { (d : ℕ) (name : List ℕ) (s : StoreOf V.C O) (h : DirHomeOf V.C) → slice_get names.now d ≡ Some name → slice_get parts.stores.items d ≡ Some s
        → slice_get parts.homes.items d ≡ Some h → MayCloseDir V.tells V.C.tells V.C.state O.offers (V.files volume.old) parts.passes.items d name s h }
    ensures closed { (d : ℕ) (name : List ℕ) (s : StoreOf V.C O) (h : DirHomeOf V.C) → slice_get names.now d ≡ Some name → slice_get parts.stores.items d ≡ Some s
        → slice_get parts.homes.items d ≡ Some h → ClosesDir V.tells V.C.tells V.C.state O.offers (V.files volume.old) (V.files volume.new) parts.passes.items d name s h }
    ensures others { IsTrue V.tells → (name : List ℕ) → ((d : ℕ) × (d < vec_len parts.stores) × (slice_get names.now d ≡ Some name)) ⊎ (get (V.files volume.new) name ≡ get (V.files volume.old) name) }
    ensures faults { V.faults volume.new ≡ V.faults volume.old }
    ensures made { V.made volume.new ≡ V.made volume.old }
    ensures ended { V.ended volume.new ≡ V.ended volume.old }
{
    while let Some(store) = parts.stores.pop() {
        let dir = parts.stores.len();
        let Some(home) = parts.homes.pop() else {
            unreachable!()
        };
        close_next(
            volume,
            name_at(names, dir),
            dir,
            store,
            home,
            &mut parts.passes,
        );
    }
}

// Closes a file with the passes that the workers have of it, the last ones.
fn close_next<V: Volume, O: Origin>(
    volume: &mut V,
    name: &str,
    dir: usize,
    store: Store<V::C, O>,
    home: DirHome<V::C>,
    workers: &mut [DirPass<V::C>],
)
    requires some { 0 < length workers.old }
    requires there { (w : ℕ) (a : DirPassOf V.C) → slice_get workers.old w ≡ Some a → dir < vec_len a.passes }
    requires may { MayCloseDir V.tells V.C.tells V.C.state O.offers (V.files volume.old) workers.old dir name.now store home }
    ensures closed { (ps : List (PassOf V.C)) × ArePassesAt workers.old dir ps
        × ClosesFile V.tells V.C.tells V.C.state O.offers (V.files volume.old) (V.files volume.new) name.now store home.header ps }
    ensures left { Gathered dir workers.old workers.new }
    ensures faults { V.faults volume.new ≡ V.faults volume.old }
    ensures made { V.made volume.new ≡ V.made volume.old }
    ensures ended { V.ended volume.new ≡ V.ended volume.old }
{
    let DirHome { header, mut room } = home;
    gather(workers, dir, &mut room);
    close_file(volume, name, store, room, header);
}

// Closes a store, and gives its cells back to its file.
fn close_file<V: Volume, O: Origin>(
    volume: &mut V,
    name: &str,
    store: Store<V::C, O>,
    passes: Vec<Pass<V::C>>,
    header: V::C,
)
    requires some { 0 < vec_len passes }
    requires may { MayClose V.tells V.C.tells V.C.state O.offers (V.files volume.old) name.now store passes.items }
    requires header { shape (V.C.state header) ≡ (HEADER_NUMBER, HEADER_BYTES) }
    ensures closed { ClosesFile V.tells V.C.tells V.C.state O.offers (V.files volume.old) (V.files volume.new) name.now store header passes.items }
    ensures faults { V.faults volume.new ≡ V.faults volume.old }
    ensures made { V.made volume.new ≡ V.made volume.old }
    ensures ended { V.ended volume.new ≡ V.ended volume.old }
{
    closed_cells_may_be_given_back::<V::C>();
    volume.give_back(name, header, close_store(store, passes));
}
