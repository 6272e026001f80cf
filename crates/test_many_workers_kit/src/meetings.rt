// Stations that wait for each other.
ghost use Rattle.std.specs.Prelude.{◌+◌, ◌≡◌, ◌≤◌, ℕ, IfOk, List, OnErr, OnOk, Some, false, length, map, true};
ghost use Rattle.std.specs.FinMap.{get, insert};
ghost use Rattle.rock_disk.specs.File.{NoneAway};
ghost use Rattle.rock_disk.specs.File.File.{Away, Home};
ghost use Rattle.rock_disk.specs.Memory.{cell_state, volume_ended, volume_faults, volume_files, volume_made};
ghost use Rattle.rock_disk.specs.Opened.{IsOut};
ghost use Rattle.rock_disk.specs.Stations.{ended_of, made_of};
ghost use Rattle.rock_io.specs.Faults.{one_more};

use rock_disk::{
    Cell, CreateFault, FailedAfter, HEADER_NUMBER, MemCell, MemStation, MemVolume, OpenFault,
    Opened, PeekFault, Station, StationFault, Stations, Volume,
};
use rock_io::{Failed, Memory};
use std::alloc::Global;
use std::sync::Arc;
use std::sync::atomic::{AtomicUsize, Ordering};
use std::thread;

/// How often a station looks for what another one does.
const LOOKS: u32 = 100_000_000;

/// What a station does for a meeting. A write to the header area is none of these writes.
#[derive(Clone, Copy, Debug, PartialEq, Eq)]
pub struct Part {
    /// At which of its writes, from 1, it makes a sign before it writes. 0: at none.
    pub sign_at: u64,
    /// How many signs there must be before it makes its first write. If they do not come, the write fails.
    pub signs: usize,
}

/// A station that makes no sign and waits for none.
const NO_PART: Part = Part {
    sign_at: 0,
    signs: 0,
};

/// Waits until `wanted` signs were made. False: they were not.
fn has_signs(made: &AtomicUsize, wanted: usize) -> bool {
    for turn in 0..LOOKS {
        if made.load(Ordering::SeqCst) >= wanted {
            return true;
        }
        if turn % 256 == 0 {
            thread::yield_now();
        }
    }
    false
}

/// A station of a volume in memory, and its part in a meeting.
pub struct MeetingStation {
    inner: MemStation,
    part: Part,
    made: Arc<AtomicUsize, Global>,
    writes: u64,
    faults: u64,
}

impl MeetingStation {
    /// Counts a write of this cell and does what is to be done in front of it. False: another station did not come.
    fn meets(&mut self, cell: &MemCell) -> bool
        ensures inner { self.new.inner ≡ self.old.inner }
        ensures faults { self.new.faults ≡ self.old.faults }
    {
        if cell.number() == HEADER_NUMBER {
            return true;
        }
        self.writes = self.writes.saturating_add(1);
        if self.writes == self.part.sign_at {
            self.made.fetch_add(1, Ordering::SeqCst);
        }
        self.writes > 1 || has_signs(&self.made, self.part.signs)
    }

    /// Counts a fault where the call failed.
    fn counted(&mut self, answer: Result<(), Failed>) -> Result<(), Failed>
        ensures same { result ≡ answer }
        ensures ok { OnOk result (self.new.faults ≡ self.old.faults) }
        ensures err { OnErr result (self.new.faults ≡ one_more self.old.faults) }
        ensures grown { self.old.faults ≤ self.new.faults }
        ensures inner { self.new.inner ≡ self.old.inner }
    {
        if answer.is_err() {
            self.faults = self.faults.saturating_add(1);
        }
        answer
    }
}

impl Station for MeetingStation {
    type C = MemCell;

    ghost faults = { λ s. s.faults };

    ghost counts = { false };

    ghost calls = { λ _. 0 };

    fn read(&mut self, cell: &mut MemCell, buf: &mut [u8]) -> Result<(), Failed> {
        let answer = self.inner.read(cell, buf);
        self.counted(answer)
    }

    fn read_cells(&mut self, cells: &[MemCell], buf: &mut [u8]) -> Result<(), FailedAfter> {
        let answer = self.inner.read_cells(cells, buf);
        if answer.is_err() {
            self.faults = self.faults.saturating_add(1);
        }
        answer
    }

    fn write(&mut self, cell: &mut MemCell, bytes: &[u8]) -> Result<(), Failed> {
        if !self.meets(cell) {
            return self.counted(Err(Failed));
        }
        let answer = self.inner.write(cell, bytes);
        self.counted(answer)
    }

    fn sync(&mut self, cell: &mut MemCell) -> Result<(), Failed> {
        let answer = self.inner.sync(cell);
        self.counted(answer)
    }
}

/// A volume in memory whose stations may wait for each other.
#[derive(Drop)]
pub struct Meeting {
    pub inner: MemVolume,
    /// The parts of the stations, in the order in which they are made.
    parts: [Part; 4],
    signs: Arc<AtomicUsize, Global>,
    stations: Stations,
    ghost even: { made_of stations + length (volume_ended inner) ≡ volume_made inner + length (ended_of stations) },
}

impl Meeting {
    /// A volume without files.
    pub fn new(alloc: Global, parts: [Part; 4]) -> Result<Meeting, Memory>
        ensures { IfOk result (λ meeting. NoneAway (volume_files meeting.inner)) }
    {
        Ok(Meeting {
            inner: MemVolume::new(alloc, Vec::new(alloc), Vec::new(alloc)),
            parts,
            signs: Arc::new(alloc, AtomicUsize::new(0))?,
            stations: Stations::new(alloc),
        })
    }

    /// The part of the next station.
    fn next_part(&self) -> Part {
        self.parts
            .get(self.stations.made())
            .copied()
            .unwrap_or(NO_PART)
    }
}

impl Volume for Meeting {
    type C = MemCell;

    type St = MeetingStation;

    ghost tells = { true };

    ghost files = { λ v. volume_files v.inner };

    ghost faults = { λ v. volume_faults v.inner };

    ghost made = { λ v. made_of v.stations };

    ghost ended = { λ v. ended_of v.stations };

    fn open_file(
        &mut self,
        alloc: Global,
        name: &str,
        slot: u32,
    ) -> Result<Opened<MemCell>, OpenFault> {
        self.inner.open_file(alloc, name, slot)
    }

    fn peek(&mut self, name: &str, buf: &mut [u8]) -> Result<u64, PeekFault> {
        self.inner.peek(name, buf)
    }

    fn station(&mut self, name: &str) -> Result<MeetingStation, StationFault> {
        let part = self.next_part();
        let Ok(made) = Arc::try_clone(&self.signs) else {
            return Err(StationFault::Memory);
        };
        let inner = self.inner.station(name)?;
        if self.stations.make().is_err() {
            self.inner.end_station(inner);
            return Err(StationFault::Memory);
        }
        Ok(MeetingStation {
            inner,
            part,
            made,
            writes: 0,
            faults: 0,
        })
    }

    fn end_station(&mut self, station: MeetingStation) {
        let MeetingStation {
            inner,
            part: _,
            made: _,
            writes: _,
            faults,
        } = station;
        self.inner.end_station(inner);
        self.stations.end(faults);
    }

    fn give_back(&mut self, name: &str, header: MemCell, cells: Vec<MemCell>)
        requires { IsOut (volume_files self.old.inner) name.now (cell_state header) (map cell_state cells.items) }
        ensures back { (slots slot : ℕ) (rest : List ℕ) → get (volume_files self.old.inner) name.now ≡ Some (Away slots slot rest)
            → volume_files self.new.inner ≡ insert (volume_files self.old.inner) name.now (Home (cell_state header) (map cell_state cells.items) rest) }
        ensures faults { volume_faults self.new.inner ≡ volume_faults self.old.inner }
        ensures stations { self.new.stations ≡ self.old.stations }
    {
        self.inner.give_back(name, header, cells);
    }

    fn create(&mut self, name: &str, slots: u32, slot: u32) -> Result<(), CreateFault> {
        self.inner.create(name, slots, slot)
    }

    ghost ended_were_made = { λ volume. volume.stations.within };

    ghost cells_tell = { λ told. told };
}
