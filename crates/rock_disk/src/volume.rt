ghost use Rattle.std.specs.Prelude.{◌≡◌, ◌+◌, ◌*◌, ◌<◌, ◌≤◌, ◌++◌, ◌∷◌, [], ℕ, Bool, List, length, map, IsTrue, IfOk, OnOk, OnErr, IsErrOf, None, Some, ◌↔◌};
ghost use Rattle.std.specs.FinMap.{get, insert};
ghost use Rattle.rock_io.specs.Faults.{Rose};
ghost use Rattle.rock_disk.specs.Created.{IsCreated, IsMaybeCreated};
ghost use Rattle.rock_disk.specs.File.{Files, IsNotAway, IsThere};
ghost use Rattle.rock_disk.specs.File.File.{Home, Away};
ghost use Rattle.rock_disk.specs.Opened.{HasShape, IsOpened, IsOut, IsPeeked, IsSmall};

use crate::{Cell, Station};
use db_layout::HEADER_BYTES;
use rock_io::Memory;
use std::alloc::Global;
use thiserror::Error;

/// Why a file was not opened.
#[derive(Clone, Copy, Debug, PartialEq, Eq, Error)]
pub enum OpenFault {
    #[error("there is no file of that name")]
    Missing,
    /// The file is shorter than the header area and one slot. It has this many bytes.
    #[error("a file of {bytes} bytes is too short")]
    Small { bytes: u64 },
    /// The volume's count of faults rose.
    #[error("the volume failed")]
    Failed,
    #[error("out of memory")]
    Memory,
}

/// Why the header area of a file was not read.
#[derive(Clone, Copy, Debug, PartialEq, Eq, Error)]
pub enum PeekFault {
    #[error("there is no file of that name")]
    Missing,
    /// The file is shorter than the header area. It has this many bytes.
    #[error("a file of {bytes} bytes is too short")]
    Small { bytes: u64 },
    /// The volume's count of faults rose.
    #[error("the volume failed")]
    Failed,
    #[error("out of memory")]
    Memory,
}

/// Why no file was created.
#[derive(Clone, Copy, Debug, PartialEq, Eq, Error)]
pub enum CreateFault {
    #[error("there is a file of that name")]
    Exists,
    /// The volume's count of faults rose. A file of that name may be there now.
    #[error("the volume failed")]
    Failed,
    #[error("out of memory")]
    Memory,
}

/// Why no station was made.
#[derive(Clone, Copy, Debug, PartialEq, Eq, Error)]
pub enum StationFault {
    /// The volume's count of faults rose.
    #[error("the volume failed")]
    Failed,
    #[error("out of memory")]
    Memory,
}

impl From<Memory> for OpenFault {
    ghost use Rattle.rock_disk.specs.declared.volume.OpenFault.TheVariants as opening;

    ghost from_gives = { λ _ fault. fault ≡ opening.Memory };

    fn from(_error: Memory) -> Self {
        OpenFault::Memory
    }
}

impl From<Memory> for PeekFault {
    ghost use Rattle.rock_disk.specs.declared.volume.PeekFault.TheVariants as peeking;

    ghost from_gives = { λ _ fault. fault ≡ peeking.Memory };

    fn from(_error: Memory) -> Self {
        PeekFault::Memory
    }
}

impl From<Memory> for CreateFault {
    ghost use Rattle.rock_disk.specs.declared.volume.CreateFault.TheVariants as creating;

    ghost from_gives = { λ _ fault. fault ≡ creating.Memory };

    fn from(_error: Memory) -> Self {
        CreateFault::Memory
    }
}

impl From<Memory> for StationFault {
    ghost use Rattle.rock_disk.specs.declared.volume.StationFault.TheVariants as making;

    ghost from_gives = { λ _ fault. fault ≡ making.Memory };

    fn from(_error: Memory) -> Self {
        StationFault::Memory
    }
}

/// A file whose cells are out.
pub struct Opened<C> {
    /// The header area: of [`HEADER_NUMBER`](crate::HEADER_NUMBER), and 16,384 bytes wide.
    pub header: C,
    /// The slots in order. Slot n has number n, and is as wide as a slot.
    pub cells: Vec<C>,
    /// The length of the file.
    pub bytes: u64,
}

/// Files by name. A call that answers otherwise than `Failed` leaves the count of faults as it was.
pub trait Volume {
    type C: Cell + Send;

    type St: Station<C = Self::C>;

    /// Whether volumes of this type tell their files. Where they don't, no clause on files says
    /// anything of them.
    ghost tells: { Bool };

    /// The files, by name.
    ghost files: { Self → Files };

    /// How many of its calls have failed.
    ghost faults: { Self → ℕ };

    /// How many stations it has made.
    ghost made: { Self → ℕ };

    /// The counts of faults with which stations were ended, in that order.
    ghost ended: { Self → List ℕ };

    /// Cuts a file's bytes anew by this slot size, and moves the cells out. What each cell holds is
    /// all that a crash may leave of it. Slots past the first 1,048,576 stay in the file's rest.
    fn open_file(
        &mut self,
        alloc: Global,
        name: &str,
        slot: u32,
    ) -> Result<Opened<Self::C>, OpenFault>
        requires slot { 0 < slot }
        requires home { IsTrue tells → IsNotAway (get (files self.old) name.now) }

        ensures shape { IfOk result (λ o. HasShape slot o.bytes (Self.C.state o.header) (map Self.C.state o.cells.items)) }
        ensures opened { IfOk result (λ o. IsTrue tells → IsTrue Self.C.tells
            × IsOpened (files self.old) (files self.new) name.now slot o.bytes (Self.C.state o.header) (map Self.C.state o.cells.items)) }

        // When each refusal comes, and what it leaves.
        ensures missing { IsTrue tells → (IsErrOf result OpenFault.Missing ↔ (get (files self.old) name.now ≡ None)) }
        ensures short { (bytes : ℕ) → IsErrOf result (OpenFault.Small bytes) → bytes < HEADER_BYTES + slot }
        ensures small { IsTrue tells → (bytes : ℕ) → (IsErrOf result (OpenFault.Small bytes) ↔ IsSmall (files self.old) name.now slot bytes) }
        ensures failed { IsErrOf result OpenFault.Failed → Rose (faults self.old) (faults self.new) }
        ensures unfailed { (IsErrOf result OpenFault.Failed → ⊥) → faults self.new ≡ faults self.old }
        ensures refused { OnErr result (files self.new ≡ files self.old) }

        ensures faults { faults self.old ≤ faults self.new }
        ensures made { made self.new ≡ made self.old }
        ensures ended { ended self.new ≡ ended self.old };

    /// Puts the header area of a file into `buf`, its first 16,384 bytes, and answers how long the file
    /// is. No cell is moved out, and nothing is written. After a refusal `buf` may have any bytes.
    fn peek(&mut self, name: &str, buf: &mut [u8]) -> Result<u64, PeekFault>
        requires room { length buf.old ≡ HEADER_BYTES }
        requires home { IsTrue tells → IsNotAway (get (files self.old) name.now) }

        ensures peeked { IfOk result (λ bytes. IsTrue tells → IsPeeked (files self.old) name.now bytes buf.new) }
        ensures long { IfOk result (λ bytes. HEADER_BYTES ≤ bytes) }

        // When each refusal comes.
        ensures missing { IsTrue tells → (IsErrOf result PeekFault.Missing ↔ (get (files self.old) name.now ≡ None)) }
        ensures short { (bytes : ℕ) → IsErrOf result (PeekFault.Small bytes) → bytes < HEADER_BYTES }
        ensures small { IsTrue tells → (bytes : ℕ) → (IsErrOf result (PeekFault.Small bytes) ↔ IsSmall (files self.old) name.now 0 bytes) }
        ensures failed { IsErrOf result PeekFault.Failed → Rose (faults self.old) (faults self.new) }
        ensures unfailed { (IsErrOf result PeekFault.Failed → ⊥) → faults self.new ≡ faults self.old }

        ensures files { files self.new ≡ files self.old }
        ensures faults { faults self.old ≤ faults self.new }
        ensures made { made self.new ≡ made self.old }
        ensures ended { ended self.new ≡ ended self.old };

    /// A new station for a file, whether its cells are out or in. Its count of faults is 0.
    fn station(&mut self, name: &str) -> Result<Self::St, StationFault>
        requires { IsTrue tells → IsThere (files self.old) name.now }

        ensures fresh { IfOk result (λ s. Self.St.faults s ≡ 0) }
        ensures made { OnOk result (made self.new ≡ made self.old + 1) }
        ensures refused { OnErr result (made self.new ≡ made self.old) }
        ensures failed { IsErrOf result StationFault.Failed → Rose (faults self.old) (faults self.new) }
        ensures unfailed { (IsErrOf result StationFault.Failed → ⊥) → faults self.new ≡ faults self.old }

        ensures files { files self.new ≡ files self.old }
        ensures faults { faults self.old ≤ faults self.new }
        ensures ended { ended self.new ≡ ended self.old };

    /// Takes a station back, and keeps its count of faults. It takes no memory.
    fn end_station(&mut self, station: Self::St)
        requires { length (ended self.old) < made self.old }

        ensures ended { ended self.new ≡ ended self.old ++ Self.St.faults station ∷ [] }
        ensures files { files self.new ≡ files self.old }
        ensures faults { faults self.new ≡ faults self.old }
        ensures made { made self.new ≡ made self.old };

    /// Puts the cells of a file back as they are. It takes no memory.
    fn give_back(&mut self, name: &str, header: Self::C, cells: Vec<Self::C>)
        requires { IsTrue tells → IsOut (files self.old) name.now (Self.C.state header) (map Self.C.state cells.items) }

        ensures back { (slots slot : ℕ) (rest : List ℕ) → IsTrue tells → get (files self.old) name.now ≡ Some (Away slots slot rest)
            → files self.new ≡ insert (files self.old) name.now (Home (Self.C.state header) (map Self.C.state cells.items) rest) }
        ensures faults { faults self.new ≡ faults self.old }
        ensures made { made self.new ≡ made self.old }
        ensures ended { ended self.new ≡ ended self.old };

    /// Makes a file of zeros with room for the header area and this many slots of `slot` bytes each,
    /// and no more, whatever the slot size. Where the call fails, the name may be taken, by a file with
    /// any bytes.
    fn create(&mut self, name: &str, slots: u32, slot: u32) -> Result<(), CreateFault>
        ensures created { OnOk result (IsTrue tells → IsCreated (files self.old) (files self.new) name.now (HEADER_BYTES + slots * slot)) }

        // When each refusal comes, and what it leaves.
        ensures exists { IsTrue tells → (IsErrOf result CreateFault.Exists ↔ IsThere (files self.old) name.now) }
        ensures exists_unchanged { IsErrOf result CreateFault.Exists → files self.new ≡ files self.old }
        ensures memory_unchanged { IsErrOf result CreateFault.Memory → files self.new ≡ files self.old }
        ensures maybe { IsErrOf result CreateFault.Failed → IsTrue tells → IsMaybeCreated (files self.old) (files self.new) name.now }
        ensures failed { IsErrOf result CreateFault.Failed → Rose (faults self.old) (faults self.new) }
        ensures unfailed { (IsErrOf result CreateFault.Failed → ⊥) → faults self.new ≡ faults self.old }

        ensures faults { faults self.old ≤ faults self.new }
        ensures made { made self.new ≡ made self.old }
        ensures ended { ended self.new ≡ ended self.old };

    /// No station was ended that was not made.
    ghost ended_were_made: { (volume : Self) → length (ended volume) ≤ made volume };

    /// Where cells tell what they hold, so do the volumes that they come from.
    ghost cells_tell: { IsTrue Self.C.tells → IsTrue tells };
}
