ghost use Rattle.std.specs.Prelude.{◌≡◌, ◌+◌, ◌<◌, ◌≤◌, [], ℕ, length, map, false, IfOk, OnOk, OnErr, IsErrOf, ◌↔◌};
ghost use Rattle.std.specs.IoError.{error_kind};
ghost use Rattle.rock_io.specs.Faults.{one_more};

use crate::cause::{FaultCause, SaysWhy};
use crate::lock::{Access, LockFile};
use crate::open_files::OpenFiles;
use crate::opening::{count_slots, extend, open_for, open_locked, open_to_peek, read_front};
use crate::{FileCell, FileStation};
use db_layout::{HEADER_BYTES, file_size};
use rock_disk::{CreateFault, OpenFault, Opened, PeekFault, StationFault, Stations, Volume};
use std::alloc::Global;
use std::fs::OpenOptions;
use std::io;
use std::io::ErrorKind;
use std::os::unix::fs::FileExt;
use std::rt::Files;

/// The files of the system by their paths.
///
/// Another program can change a file at any time, so this volume and its cells tell nothing of what
/// the files hold. While a file is open, the volume has its lock, so that other runs of this program leave it
/// alone.
#[derive(Drop)]
pub struct FileVolume<R: Files> {
    rt: R,
    access: Access,
    faults: u64,
    why: FaultCause,
    stations: Stations,
    opened: OpenFiles<R::File>,
}

impl<R: Files + Drop> FileVolume<R> {
    ghost use Rattle.rock_file.specs.Volume.{volume_faults, volume_made, volume_ended};

    /// A volume over the files of `rt`, which are opened for this. It keeps the counts of ended stations in
    /// memory of `alloc`.
    pub fn new(rt: R, alloc: Global, access: Access) -> FileVolume<R>
        ensures faults { volume_faults result ≡ 0 }
        ensures made { volume_made result ≡ 0 }
        ensures ended { volume_ended result ≡ [] }
    {
        FileVolume {
            rt,
            access,
            faults: 0,
            why: FaultCause::Other,
            stations: Stations::new(alloc),
            opened: OpenFiles::new(alloc),
        }
    }

    /// How many of its calls have failed.
    pub fn faults(&self) -> u64
        ensures { result ≡ volume_faults self.now }
    {
        self.faults
    }

    /// The counts of faults with which stations were ended, in that order.
    pub fn ended(&self) -> &[u64]
        ensures { result.now ≡ volume_ended self.now }
    {
        self.stations.ended()
    }

    fn count_fault(&mut self, error: &io::Error)
        ensures faults { volume_faults self.new ≡ one_more (volume_faults self.old) }
        ensures grown { volume_faults self.old ≤ volume_faults self.new }
        ensures stations { self.new.stations ≡ self.old.stations }
    {
        self.faults = self.faults.saturating_add(1);
        self.why = FaultCause::of(error);
    }

    /// What opening answers where the system refuses. Only a name that it does not know is no fault.
    fn refuse(&mut self, error: &io::Error) -> OpenFault
        ensures missing { (result ≡ OpenFault.Missing) ↔ (error_kind error.now ≡ ErrorKind.NotFound) }
        ensures kept { result ≡ OpenFault.Missing → volume_faults self.new ≡ volume_faults self.old }
        ensures failed { (result ≡ OpenFault.Missing → ⊥) → (result ≡ OpenFault.Failed) × (volume_faults self.new ≡ one_more (volume_faults self.old)) }
        ensures grown { volume_faults self.old ≤ volume_faults self.new }
        ensures stations { self.new.stations ≡ self.old.stations }
    {
        if error.kind() == ErrorKind::NotFound {
            return OpenFault::Missing;
        }
        self.count_fault(error);
        OpenFault::Failed
    }

    /// What creating answers where the system refuses. Only a name that is taken is no fault.
    fn refuse_name(&mut self, error: &io::Error) -> CreateFault
        ensures exists { (result ≡ CreateFault.Exists) ↔ (error_kind error.now ≡ ErrorKind.AlreadyExists) }
        ensures kept { result ≡ CreateFault.Exists → volume_faults self.new ≡ volume_faults self.old }
        ensures failed { (result ≡ CreateFault.Exists → ⊥) → (result ≡ CreateFault.Failed) × (volume_faults self.new ≡ one_more (volume_faults self.old)) }
        ensures grown { volume_faults self.old ≤ volume_faults self.new }
        ensures stations { self.new.stations ≡ self.old.stations }
    {
        if error.kind() == ErrorKind::AlreadyExists {
            return CreateFault::Exists;
        }
        self.count_fault(error);
        CreateFault::Failed
    }
}

impl<R: Files + Drop> SaysWhy for FileVolume<R> {
    fn why(&self) -> FaultCause {
        self.why
    }
}

impl<R: Files + Drop> Volume for FileVolume<R>
where
    R::File: FileExt + LockFile,
{
    ghost use Rattle.std.specs.FinMap.{empty};
    ghost use Rattle.rock_disk.specs.Opened.{HasShape};
    ghost use Rattle.rock_file.specs.Cell.{cell_state};
    ghost use Rattle.rock_file.specs.Station.{station_faults};
    ghost use Rattle.rock_file.specs.Volume.{volume_faults, volume_made, volume_ended};

    type C = FileCell;

    type St = FileStation<R::File>;

    ghost tells = { false };

    ghost files = { λ _. empty };

    ghost faults = { volume_faults };

    ghost made = { volume_made };

    ghost ended = { volume_ended };

    fn open_file(
        &mut self,
        alloc: Global,
        name: &str,
        slot: u32,
    ) -> Result<Opened<FileCell>, OpenFault>
        requires { 0 < slot }
        ensures shape { IfOk result (λ o. HasShape slot o.bytes (cell_state o.header) (map cell_state o.cells.items)) }
        ensures short { (bytes : ℕ) → IsErrOf result (OpenFault.Small bytes) → bytes < HEADER_BYTES + slot }

        // A fault counts once, and nothing else does: want of memory is no fault.
        ensures failed { IsErrOf result OpenFault.Failed → volume_faults self.new ≡ one_more (volume_faults self.old) }
        ensures unfailed { (IsErrOf result OpenFault.Failed → ⊥) → volume_faults self.new ≡ volume_faults self.old }
        ensures faults { volume_faults self.old ≤ volume_faults self.new }

        ensures made { volume_made self.new ≡ volume_made self.old }
        ensures ended { volume_ended self.new ≡ volume_ended self.old }
    {
        let locked = match open_locked(&self.rt, name, self.access) {
            Ok(locked) => locked,
            Err(error) => return Err(self.refuse(&error)),
        };
        let bytes = locked.bytes;
        let count = count_slots(bytes, slot)?;
        let Ok(cells) = FileCell::slots(alloc, count, slot) else {
            return Err(OpenFault::Memory);
        };
        if self.opened.keep(alloc, name, locked).is_err() {
            return Err(OpenFault::Memory);
        }
        Ok(Opened {
            header: FileCell::header(),
            cells,
            bytes,
        })
    }

    fn peek(&mut self, name: &str, buf: &mut [u8]) -> Result<u64, PeekFault>
        requires { length buf.old ≡ HEADER_BYTES }
        ensures long { IfOk result (λ bytes. HEADER_BYTES ≤ bytes) }
        ensures short { (bytes : ℕ) → IsErrOf result (PeekFault.Small bytes) → bytes < HEADER_BYTES }
        ensures memory { IsErrOf result PeekFault.Memory → ⊥ }

        // A fault counts once, and nothing else does.
        ensures failed { IsErrOf result PeekFault.Failed → volume_faults self.new ≡ one_more (volume_faults self.old) }
        ensures unfailed { (IsErrOf result PeekFault.Failed → ⊥) → volume_faults self.new ≡ volume_faults self.old }
        ensures faults { volume_faults self.old ≤ volume_faults self.new }

        ensures made { volume_made self.new ≡ volume_made self.old }
        ensures ended { volume_ended self.new ≡ volume_ended self.old }
    {
        let (file, bytes) = match open_to_peek(&self.rt, name) {
            Ok(opened) => opened,
            Err(error) => {
                return match self.refuse(&error) {
                    OpenFault::Missing => Err(PeekFault::Missing),
                    _ => Err(PeekFault::Failed),
                };
            }
        };
        if bytes < u64::from(HEADER_BYTES) {
            return Err(PeekFault::Small { bytes });
        }
        if let Err(error) = read_front(&file, buf) {
            self.count_fault(&error);
            return Err(PeekFault::Failed);
        }
        Ok(bytes)
    }

    fn station(&mut self, name: &str) -> Result<FileStation<R::File>, StationFault>
        ensures fresh { IfOk result (λ s. station_faults s ≡ 0) }
        ensures made { OnOk result (volume_made self.new ≡ volume_made self.old + 1) }
        ensures refused { OnErr result (volume_made self.new ≡ volume_made self.old) }

        // A fault counts once, and nothing else does: want of memory is no fault.
        ensures failed { IsErrOf result StationFault.Failed → volume_faults self.new ≡ one_more (volume_faults self.old) }
        ensures unfailed { (IsErrOf result StationFault.Failed → ⊥) → volume_faults self.new ≡ volume_faults self.old }
        ensures faults { volume_faults self.old ≤ volume_faults self.new }

        ensures ended { volume_ended self.new ≡ volume_ended self.old }
    {
        // Where the file is open, by what it was locked for.
        let access = self.opened.access_of(name).unwrap_or(self.access);
        let file = match open_for(&self.rt, name, access) {
            Ok((file, _)) => file,
            Err(error) => {
                self.count_fault(&error);
                return Err(StationFault::Failed);
            }
        };
        let Ok(()) = self.stations.make() else {
            return Err(StationFault::Memory);
        };
        Ok(FileStation::new(file))
    }

    fn end_station(&mut self, station: FileStation<R::File>) {
        self.stations.end(station.into_faults());
    }

    fn give_back(&mut self, name: &str, header: FileCell, cells: Vec<FileCell>)
        ensures faults { volume_faults self.new ≡ volume_faults self.old }
        ensures made { volume_made self.new ≡ volume_made self.old }
        ensures ended { volume_ended self.new ≡ volume_ended self.old }
    {
        // The cells are nothing but numbers, so there is nothing to put back.
        self.opened.close(name);
    }

    /// Makes the file only where nothing has its name yet, a folder or a link among others, and has its lock
    /// until it has its length. Where the call fails behind that, the name is taken by a file that is too
    /// short: nothing is removed.
    fn create(&mut self, name: &str, slots: u32, slot: u32) -> Result<(), CreateFault>
        ensures memory { IsErrOf result CreateFault.Memory → ⊥ }

        // A fault counts once, and nothing else does.
        ensures failed { IsErrOf result CreateFault.Failed → volume_faults self.new ≡ one_more (volume_faults self.old) }
        ensures unfailed { (IsErrOf result CreateFault.Failed → ⊥) → volume_faults self.new ≡ volume_faults self.old }
        ensures faults { volume_faults self.old ≤ volume_faults self.new }

        ensures made { volume_made self.new ≡ volume_made self.old }
        ensures ended { volume_ended self.new ≡ volume_ended self.old }
    {
        let bytes = file_size(slots, slot);
        let file = match OpenOptions::new()
            .write(true)
            .create_new(true)
            .open(&self.rt, name)
        {
            Ok(file) => file,
            Err(error) => return Err(self.refuse_name(&error)),
        };
        if let Err(error) = extend(&file, bytes) {
            self.count_fault(&error);
            return Err(CreateFault::Failed);
        }
        Ok(())
    }

    ghost ended_were_made = { λ volume. volume.stations.within };

    ghost cells_tell = { λ told. told };
}
