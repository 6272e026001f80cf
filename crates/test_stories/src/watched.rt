// A volume whose header areas are looked at as they are given back.
ghost use Rattle.std.specs.Prelude.{◌≡◌, List, Some, map, true, ℕ};
ghost use Rattle.std.specs.FinMap.{get, insert};
ghost use Rattle.rock_disk.specs.File.File.{Away, Home};
ghost use Rattle.rock_disk.specs.Memory.{cell_state, volume_ended, volume_faults, volume_files, volume_made};
ghost use Rattle.rock_disk.specs.Opened.{IsOut};

use rock_disk::{
    CreateFault, MemCell, MemStation, MemVolume, OpenFault, Opened, PeekFault, StationFault, Volume,
};
use std::alloc::Global;

/// A volume in memory that remembers how many contents a crash could leave of the header area of the file that was given
/// back last. To open a file settles its cells, so nobody can ask that later.
#[derive(Drop)]
pub struct Watched {
    pub inner: MemVolume,
    possible: usize,
}

impl Watched {
    /// This volume, of which no file was given back yet.
    pub fn new(inner: MemVolume) -> Watched
        ensures { result.inner ≡ inner }
    {
        Watched { inner, possible: 0 }
    }

    /// How many contents a crash could leave of the header area that was given back last. 0: none was.
    pub fn possible(&self) -> usize {
        self.possible
    }
}

impl Volume for Watched {
    type C = MemCell;

    type St = MemStation;

    ghost tells = { true };

    ghost files = { λ v. volume_files v.inner };

    ghost faults = { λ v. volume_faults v.inner };

    ghost made = { λ v. volume_made v.inner };

    ghost ended = { λ v. volume_ended v.inner };

    fn open_file(
        &mut self,
        alloc: Global,
        name: &str,
        slot: u32,
    ) -> Result<Opened<MemCell>, OpenFault> {
        self.inner.open_file(alloc, name, slot)
    }

    fn peek(&mut self, name: &str, buf: &mut [u8]) -> Result<u64, PeekFault> {
        self.inner.peek(name, buf)
    }

    fn station(&mut self, name: &str) -> Result<MemStation, StationFault> {
        self.inner.station(name)
    }

    fn end_station(&mut self, station: MemStation) {
        self.inner.end_station(station);
    }

    fn give_back(&mut self, name: &str, header: MemCell, cells: Vec<MemCell>)
        requires { IsOut (volume_files self.old.inner) name.now (cell_state header) (map cell_state cells.items) }
        ensures back { (slots slot : ℕ) (rest : List ℕ) → get (volume_files self.old.inner) name.now ≡ Some (Away slots slot rest)
            → volume_files self.new.inner ≡ insert (volume_files self.old.inner) name.now (Home (cell_state header) (map cell_state cells.items) rest) }
        ensures faults { volume_faults self.new.inner ≡ volume_faults self.old.inner }
        ensures made { volume_made self.new.inner ≡ volume_made self.old.inner }
        ensures ended { volume_ended self.new.inner ≡ volume_ended self.old.inner }
    {
        self.possible = header.possible().len();
        self.inner.give_back(name, header, cells);
    }

    fn create(&mut self, name: &str, slots: u32, slot: u32) -> Result<(), CreateFault> {
        self.inner.create(name, slots, slot)
    }

    ghost ended_were_made = { λ volume. volume.inner.stations.within };

    ghost cells_tell = { λ told. told };
}
