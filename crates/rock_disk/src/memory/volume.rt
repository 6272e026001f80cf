ghost use Rattle.std.specs.Prelude.{◌≡◌, ◌+◌, ◌*◌, ◌<◌, ◌≤◌, ◌++◌, ◌∷◌, [], ℕ, List, length, map, get_or, true, IfOk, OnOk, OnErr, IsErrOf, None, Some, ◌↔◌, option_map, option_copied};
ghost use Rattle.std.specs.FinMap.{empty, get, insert};
ghost use Rattle.rock_io.specs.Faults.{one_more, Rose};
ghost use Rattle.rock_io.specs.Plan.{planned, called, FailsNext};
ghost use Rattle.rock_disk.specs.Created.{IsCreated};
ghost use Rattle.rock_disk.specs.File.{NoneAway, IsNotAway, IsThere, uncut};
ghost use Rattle.rock_disk.specs.File.File.{Home, Away};
ghost use Rattle.rock_disk.specs.Opened.{HasShape, IsOpened, IsOut, IsPeeked, IsSmall};

use super::cutting::{CutFile, cut_file};
use super::entry::{Entry, has_file, place_of, place_to_open, place_to_peek, put_entry};
use super::file::MemFile;
use crate::{
    CreateFault, MemCell, MemStation, OpenFault, Opened, PeekFault, StationFault, Stations, Volume,
};
use db_layout::{HEADER_BYTES, file_size};
use rock_io::{Memory, Plan};
use std::alloc::Global;
use std::mem;

/// Files in memory. Exactly those calls of `create`, `open_file`, `peek` and `station` fail that are listed.
#[derive(Drop)]
pub struct MemVolume {
    entries: Vec<Entry>,
    plan: Plan,
    /// For each station in the order of their making, the numbers of its calls that fail.
    lists: Vec<Vec<u64>>,
    stations: Stations,
}

impl MemVolume {
    ghost use Rattle.rock_disk.specs.Memory.{cell_state, cells_in, lists_of, volume_files, volume_faults, volume_made, volume_ended, volume_plan, volume_lists, KeepsCounts};

    /// A volume without files.
    ///
    /// Calls of `create`, `open_file`, `peek` and `station` are numbered together from 0, and those in
    /// `fail` fail. A listed call of `create` that finds a file of that name, or one of `open_file` or
    /// `peek` that finds none or one that is too short, answers that, and has used its number. Station k,
    /// from 0 in the order of their making, fails at its calls numbered in `stations[k]`, and at none if
    /// that is not there.
    pub fn new(alloc: Global, fail: Vec<u64>, stations: Vec<Vec<u64>>) -> MemVolume
        ensures files { volume_files result ≡ empty }
        ensures home { NoneAway (volume_files result) }
        ensures faults { volume_faults result ≡ 0 }
        ensures made { volume_made result ≡ 0 }
        ensures ended { volume_ended result ≡ [] }
        ensures plan { volume_plan result ≡ planned fail.items }
        ensures lists { volume_lists result ≡ lists_of stations.items }
    {
        MemVolume {
            entries: Vec::new(alloc),
            plan: Plan::new(fail),
            lists: stations,
            stations: Stations::new(alloc),
        }
    }

    /// Makes a file of these bytes, in place of one of that name. If the cells of that one are out,
    /// they cannot be given back any more.
    pub fn put_file(&mut self, name: &str, bytes: &[u8]) -> Result<(), Memory>
        ensures ok { OnOk result (volume_files self.new ≡ insert (volume_files self.old) name.now (uncut bytes.now)) }
        ensures err { OnErr result (volume_files self.new ≡ volume_files self.old) }
        ensures home { NoneAway (volume_files self.old) → NoneAway (volume_files self.new) }
        ensures counts { KeepsCounts self.old self.new }
    {
        let alloc = *self.entries.allocator();
        let file = MemFile::uncut(alloc, bytes)?;
        put_entry(alloc, &mut self.entries, name, file)
    }

    /// The slot cells of a file, in order. None if there is no file of that name, or its cells are
    /// out.
    pub fn cells(&self, name: &str) -> Option<&[MemCell]>
        ensures { option_map (map cell_state) (option_copied result) ≡ cells_in (get (volume_files self.now) name.now) }
    {
        let place = place_of(&self.entries, name)?;
        self.entries[place].file.cells()
    }

    /// The counts of faults with which stations were ended, in that order.
    pub fn ended(&self) -> &[u64]
        ensures { result.now ≡ volume_ended self.now }
    {
        self.stations.ended()
    }

    /// A copy of the list for the next station.
    fn next_list(&self) -> Result<Vec<u64>, Memory>
        ensures { IfOk result (λ fail. fail.items ≡ get_or (volume_lists self.now) (volume_made self.now) []) }
    {
        let alloc = *self.entries.allocator();
        let Some(list) = self.lists.get(self.stations.made()) else {
            return Ok(Vec::new(alloc));
        };
        Ok(list.to_vec(alloc)?)
    }
}

impl Volume for MemVolume {
    ghost use Rattle.rock_disk.specs.Memory.{cell_state, station_faults, station_plan, HasRoom, volume_files, volume_faults, volume_made, volume_ended, volume_plan, volume_lists};

    type C = MemCell;

    type St = MemStation;

    ghost tells = { true };

    ghost files = { volume_files };

    ghost faults = { volume_faults };

    ghost made = { volume_made };

    ghost ended = { volume_ended };

    fn open_file(
        &mut self,
        alloc: Global,
        name: &str,
        slot: u32,
    ) -> Result<Opened<MemCell>, OpenFault>
        requires slot { 0 < slot }
        requires home { IsNotAway (get (volume_files self.old) name.now) }

        ensures shape { IfOk result (λ o. HasShape slot o.bytes (cell_state o.header) (map cell_state o.cells.items)) }
        ensures opened { IfOk result (λ o. IsOpened (volume_files self.old) (volume_files self.new) name.now slot o.bytes (cell_state o.header) (map cell_state o.cells.items)) }

        // When each refusal comes, and what it leaves.
        ensures missing { IsErrOf result OpenFault.Missing ↔ (get (volume_files self.old) name.now ≡ None) }
        ensures short { (bytes : ℕ) → IsErrOf result (OpenFault.Small bytes) → bytes < HEADER_BYTES + slot }
        ensures small { (bytes : ℕ) → (IsErrOf result (OpenFault.Small bytes) ↔ IsSmall (volume_files self.old) name.now slot bytes) }
        ensures listed { IsErrOf result OpenFault.Failed ↔ (FailsNext (volume_plan self.old) × HasRoom (volume_files self.old) name.now slot) }
        ensures refused { OnErr result (volume_files self.new ≡ volume_files self.old) }

        // Each call has a number, and a fault counts once.
        ensures plan { volume_plan self.new ≡ called (volume_plan self.old) }
        ensures faults { volume_faults self.old ≤ volume_faults self.new }
        ensures failed { IsErrOf result OpenFault.Failed → Rose (volume_faults self.old) (volume_faults self.new) }
        ensures counted { IsErrOf result OpenFault.Failed → volume_faults self.new ≡ one_more (volume_faults self.old) }
        ensures unfailed { (IsErrOf result OpenFault.Failed → ⊥) → volume_faults self.new ≡ volume_faults self.old }

        ensures made { volume_made self.new ≡ volume_made self.old }
        ensures ended { volume_ended self.new ≡ volume_ended self.old }
        ensures lists { volume_lists self.new ≡ volume_lists self.old }
    {
        let is_listed = self.plan.begin_call();
        let place = place_to_open(&self.entries, name, slot)?;
        if is_listed {
            self.plan.fault();
            return Err(OpenFault::Failed);
        }
        let bytes = self.entries[place].file.bytes(alloc)?;
        let CutFile { opened, away } = cut_file(alloc, &bytes, slot)?;
        self.entries[place].file = away;
        Ok(opened)
    }

    fn peek(&mut self, name: &str, buf: &mut [u8]) -> Result<u64, PeekFault>
        requires room { length buf.old ≡ HEADER_BYTES }
        requires home { IsNotAway (get (volume_files self.old) name.now) }

        ensures peeked { IfOk result (λ bytes. IsPeeked (volume_files self.old) name.now bytes buf.new) }
        ensures long { IfOk result (λ bytes. HEADER_BYTES ≤ bytes) }

        // When each refusal comes.
        ensures missing { IsErrOf result PeekFault.Missing ↔ (get (volume_files self.old) name.now ≡ None) }
        ensures short { (bytes : ℕ) → IsErrOf result (PeekFault.Small bytes) → bytes < HEADER_BYTES }
        ensures small { (bytes : ℕ) → (IsErrOf result (PeekFault.Small bytes) ↔ IsSmall (volume_files self.old) name.now 0 bytes) }
        ensures listed { IsErrOf result PeekFault.Failed ↔ (FailsNext (volume_plan self.old) × HasRoom (volume_files self.old) name.now 0) }

        // Each call has a number, and a fault counts once.
        ensures plan { volume_plan self.new ≡ called (volume_plan self.old) }
        ensures faults { volume_faults self.old ≤ volume_faults self.new }
        ensures failed { IsErrOf result PeekFault.Failed → Rose (volume_faults self.old) (volume_faults self.new) }
        ensures counted { IsErrOf result PeekFault.Failed → volume_faults self.new ≡ one_more (volume_faults self.old) }
        ensures unfailed { (IsErrOf result PeekFault.Failed → ⊥) → volume_faults self.new ≡ volume_faults self.old }

        ensures files { volume_files self.new ≡ volume_files self.old }
        ensures made { volume_made self.new ≡ volume_made self.old }
        ensures ended { volume_ended self.new ≡ volume_ended self.old }
        ensures lists { volume_lists self.new ≡ volume_lists self.old }
    {
        let is_listed = self.plan.begin_call();
        let place = place_to_peek(&self.entries, name)?;
        if is_listed {
            self.plan.fault();
            return Err(PeekFault::Failed);
        }
        let alloc = *self.entries.allocator();
        let bytes = self.entries[place].file.bytes(alloc)?;
        buf.copy_from_slice(&bytes[..HEADER_BYTES as usize]);
        Ok(bytes.len() as u64)
    }

    fn station(&mut self, name: &str) -> Result<MemStation, StationFault>
        requires { IsThere (volume_files self.old) name.now }

        ensures fresh { IfOk result (λ s. station_faults s ≡ 0) }
        ensures made { OnOk result (volume_made self.new ≡ volume_made self.old + 1) }
        ensures refused { OnErr result (volume_made self.new ≡ volume_made self.old) }

        // Exactly the listed calls fail, here and at the station.
        ensures listed { IsErrOf result StationFault.Failed ↔ FailsNext (volume_plan self.old) }
        ensures station { IfOk result (λ s. station_plan s ≡ planned (get_or (volume_lists self.old) (volume_made self.old) [])) }

        // Each call has a number, and a fault counts once.
        ensures plan { volume_plan self.new ≡ called (volume_plan self.old) }
        ensures faults { volume_faults self.old ≤ volume_faults self.new }
        ensures failed { IsErrOf result StationFault.Failed → Rose (volume_faults self.old) (volume_faults self.new) }
        ensures counted { IsErrOf result StationFault.Failed → volume_faults self.new ≡ one_more (volume_faults self.old) }
        ensures unfailed { (IsErrOf result StationFault.Failed → ⊥) → volume_faults self.new ≡ volume_faults self.old }

        ensures files { volume_files self.new ≡ volume_files self.old }
        ensures ended { volume_ended self.new ≡ volume_ended self.old }
        ensures lists { volume_lists self.new ≡ volume_lists self.old }
    {
        if self.plan.begin_call() {
            self.plan.fault();
            return Err(StationFault::Failed);
        }
        let fail = self.next_list()?;
        self.stations.make()?;
        Ok(MemStation::new(fail))
    }

    fn end_station(&mut self, station: MemStation)
        requires { length (volume_ended self.old) < volume_made self.old }

        ensures ended { volume_ended self.new ≡ volume_ended self.old ++ station_faults station ∷ [] }
        ensures files { volume_files self.new ≡ volume_files self.old }
        ensures faults { volume_faults self.new ≡ volume_faults self.old }
        ensures made { volume_made self.new ≡ volume_made self.old }
        ensures plan { volume_plan self.new ≡ volume_plan self.old }
        ensures lists { volume_lists self.new ≡ volume_lists self.old }
    {
        self.stations.end(station.into_faults());
    }

    fn give_back(&mut self, name: &str, header: MemCell, cells: Vec<MemCell>)
        requires { IsOut (volume_files self.old) name.now (cell_state header) (map cell_state cells.items) }

        ensures back { (slots slot : ℕ) (rest : List ℕ) → get (volume_files self.old) name.now ≡ Some (Away slots slot rest)
            → volume_files self.new ≡ insert (volume_files self.old) name.now (Home (cell_state header) (map cell_state cells.items) rest) }
        ensures faults { volume_faults self.new ≡ volume_faults self.old }
        ensures made { volume_made self.new ≡ volume_made self.old }
        ensures ended { volume_ended self.new ≡ volume_ended self.old }
        ensures plan { volume_plan self.new ≡ volume_plan self.old }
        ensures lists { volume_lists self.new ≡ volume_lists self.old }
    {
        let Some(place) = place_of(&self.entries, name) else {
            unreachable!();
        };
        let alloc = *self.entries.allocator();
        let nothing = MemFile::Away {
            slots: 0,
            slot: 0,
            rest: Vec::new(alloc),
        };
        let entry = &mut self.entries[place];
        let file = mem::replace(&mut entry.file, nothing);
        entry.file = file.with_cells(header, cells);
    }

    fn create(&mut self, name: &str, slots: u32, slot: u32) -> Result<(), CreateFault>
        ensures created { OnOk result (IsCreated (volume_files self.old) (volume_files self.new) name.now (HEADER_BYTES + slots * slot)) }
        ensures home { NoneAway (volume_files self.old) → NoneAway (volume_files self.new) }

        // When each refusal comes. None leaves a file.
        ensures exists { IsErrOf result CreateFault.Exists ↔ IsThere (volume_files self.old) name.now }
        ensures listed { IsErrOf result CreateFault.Failed ↔ (FailsNext (volume_plan self.old) × (get (volume_files self.old) name.now ≡ None)) }
        ensures refused { OnErr result (volume_files self.new ≡ volume_files self.old) }

        // Each call has a number, and a fault counts once.
        ensures plan { volume_plan self.new ≡ called (volume_plan self.old) }
        ensures faults { volume_faults self.old ≤ volume_faults self.new }
        ensures failed { IsErrOf result CreateFault.Failed → Rose (volume_faults self.old) (volume_faults self.new) }
        ensures counted { IsErrOf result CreateFault.Failed → volume_faults self.new ≡ one_more (volume_faults self.old) }
        ensures unfailed { (IsErrOf result CreateFault.Failed → ⊥) → volume_faults self.new ≡ volume_faults self.old }

        ensures made { volume_made self.new ≡ volume_made self.old }
        ensures ended { volume_ended self.new ≡ volume_ended self.old }
        ensures lists { volume_lists self.new ≡ volume_lists self.old }
    {
        let is_listed = self.plan.begin_call();
        if has_file(&self.entries, name) {
            return Err(CreateFault::Exists);
        }
        if is_listed {
            self.plan.fault();
            return Err(CreateFault::Failed);
        }
        let alloc = *self.entries.allocator();
        let file = MemFile::zeros(alloc, file_size(slots, slot) as usize)?;
        put_entry(alloc, &mut self.entries, name, file)?;
        Ok(())
    }

    ghost ended_were_made = { λ volume. volume.stations.within };

    ghost cells_tell = { λ told. told };
}
