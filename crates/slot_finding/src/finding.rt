ghost use Rattle.std.specs.Prelude.{◌≡◌, ◌<◌, ◌≤◌, ◌↔◌, ℕ, Err, IfErr, IfOk, IfSome, IsErrOf, IsTrue, None, Ok, Some, ◌⊎◌};
ghost use Rattle.std.specs.FinMap.{get};
ghost use Rattle.db_layout.specs.Layout.{IsSlotSize};
ghost use Rattle.rock_disk.specs.File.{IsNotAway};
ghost use Rattle.rock_disk.specs.Opened.{IsSmall};
ghost use Rattle.rock_io.specs.Faults.{Rose};
ghost use Rattle.slot_finding.specs.Finding.{AnswersOrFails, FileRecords, FindingSays, FindsSlot, Fits, IsGiven, Judged, RecordsMisfit, RecordsOther, TellsNoSlot};
ghost use Rattle.slot_finding.specs.declared.finding.FindFault.TheVariants.{BadGeometry};

use db_layout::{
    Geometry, HEADER_BYTES, geometries_are_read_as_written, read_geometry, slot_size_ok, slots_of,
};
use rock_disk::{PeekFault, Volume};
use thiserror::Error;

/// Why no slot size was found.
#[derive(Clone, Copy, Debug, PartialEq, Eq, Error)]
pub enum FindFault {
    #[error("there is no file of that name")]
    Missing,
    /// The file is shorter than the header area. It has this many bytes.
    #[error("a file of {bytes} bytes is too short")]
    Small { bytes: u64 },
    /// Field 6: the header area records slots that the file has not. Field 5: it records another slot size than was
    /// given. Field 7: it records none, and none was given.
    #[error("the slot size of the file is not known, by field {field}")]
    BadGeometry { field: u8 },
    /// The volume's count of faults rose.
    #[error("the volume failed")]
    Failed,
    #[error("out of memory")]
    Memory,
}

/// What the header area of a file records, if it records anything, and the length of the file in bytes.
#[derive(Clone, Copy, Debug, PartialEq, Eq)]
pub struct Looked {
    pub recorded: Option<Geometry>,
    pub bytes: u64,
}

/// Whether slots may have the size that is given, where one is.
pub fn may_be_given(given: Option<u32>) -> bool
    ensures { IsTrue result ↔ IsGiven given }
{
    match given {
        Some(slot) => slot_size_ok(slot),
        None => true,
    }
}

/// Whether a file of so many bytes has such slots, and as many.
fn fits(geometry: &Geometry, bytes: u64) -> bool
    ensures { IsTrue result ↔ Fits geometry.now bytes }
{
    slot_size_ok(geometry.slot)
        && geometry.slots > 0
        && geometry.slots == slots_of(bytes, geometry.slot)
}

/// The slot size by what was recorded and what was given, or the field of `BadGeometry` that is wrong.
fn judge(recorded: Option<Geometry>, bytes: u64, given: Option<u32>) -> Result<u32, u8>
    requires { IfSome given IsSlotSize }
    ensures judged { Judged recorded bytes given result }
    ensures size { IfOk result IsSlotSize }
{
    match (recorded, given) {
        (Some(geometry), _) if !fits(&geometry, bytes) => Err(6),
        (Some(geometry), Some(slot)) if slot != geometry.slot => Err(5),
        (Some(geometry), _) => Ok(geometry.slot),
        (None, Some(slot)) => Ok(slot),
        (None, None) => Err(7),
    }
}

/// Reads what the header area of a file records. The file is as it was.
///
/// # Errors
///
/// Those of [`Volume::peek`], each under its own name; never [`FindFault::BadGeometry`]. The call itself takes no
/// memory, so a file that is not there is missing whatever memory is left.
pub fn look_at_header<V: Volume>(volume: &mut V, name: &str) -> Result<Looked, FindFault>
    requires home { IsTrue V.tells → IsNotAway (get (V.files volume.old) name.now) }
    ensures looked { IfOk result (λ looked. IsTrue V.tells → FileRecords (V.files volume.old) name.now looked.recorded looked.bytes) }
    ensures long { IfOk result (λ looked. HEADER_BYTES ≤ looked.bytes) }

    // When each refusal comes.
    ensures missing { IsTrue V.tells → (IsErrOf result FindFault.Missing ↔ (get (V.files volume.old) name.now ≡ None)) }
    ensures short { (bytes : ℕ) → IsErrOf result (FindFault.Small bytes) → bytes < HEADER_BYTES }
    ensures small { IsTrue V.tells → (bytes : ℕ) → (IsErrOf result (FindFault.Small bytes) ↔ IsSmall (V.files volume.old) name.now 0 bytes) }
    ensures fields { (field : ℕ) → IsErrOf result (FindFault.BadGeometry field) → ⊥ }
    ensures failed { IsErrOf result FindFault.Failed → Rose (V.faults volume.old) (V.faults volume.new) }
    ensures unfailed { (IsErrOf result FindFault.Failed → ⊥) → V.faults volume.new ≡ V.faults volume.old }

    // Nothing else changed.
    ensures files { V.files volume.new ≡ V.files volume.old }
    ensures faults { V.faults volume.old ≤ V.faults volume.new }
    ensures made { V.made volume.new ≡ V.made volume.old }
    ensures ended { V.ended volume.new ≡ V.ended volume.old }
{
    // An array, and no vector: want of memory for it would come before `Missing`.
    let mut header = [0u8; HEADER_BYTES as usize];
    match volume.peek(name, &mut header) {
        Ok(bytes) => Ok(Looked {
            recorded: read_geometry(&header),
            bytes,
        }),
        Err(PeekFault::Missing) => Err(FindFault::Missing),
        Err(PeekFault::Small { bytes }) => Err(FindFault::Small { bytes }),
        Err(PeekFault::Failed) => Err(FindFault::Failed),
        Err(PeekFault::Memory) => Err(FindFault::Memory),
    }
}

/// Finds the slot size of a file, in bytes: the one that its header area records or, where that records none, the one
/// that was given. The file is as it was.
///
/// # Errors
///
/// In this order: [`FindFault::Missing`]; [`FindFault::Small`], where the file is shorter than its header area;
/// [`FindFault::BadGeometry`] with field 6, where the header area records slots that the file has not, a size that
/// slots may not have or another number than its whole slots of that size; with field 5, where it records another slot
/// size than was given; with field 7, where it records none and none was given. [`FindFault::Failed`] comes only where
/// the volume's count of faults rose. That and [`FindFault::Memory`] may come in front of each `BadGeometry`.
pub fn find_slot<V: Volume>(
    volume: &mut V,
    name: &str,
    given: Option<u32>,
) -> Result<u32, FindFault>
    requires given { IfSome given IsSlotSize }
    requires home { IsTrue V.tells → IsNotAway (get (V.files volume.old) name.now) }
    ensures size { IfOk result IsSlotSize }
    ensures same { IfOk result (λ slot. (n : ℕ) → given ≡ Some n → slot ≡ n) }

    // When each refusal comes, by what was given and by the counts.
    ensures short { (bytes : ℕ) → IsErrOf result (FindFault.Small bytes) → bytes < HEADER_BYTES }
    ensures fields { (field : ℕ) → IsErrOf result (FindFault.BadGeometry field)
        → (field ≡ 6) ⊎ (((field ≡ 5) × ((n : ℕ) × (given ≡ Some n))) ⊎ ((field ≡ 7) × (given ≡ None))) }
    ensures failed { IsErrOf result FindFault.Failed → Rose (V.faults volume.old) (V.faults volume.new) }
    ensures unfailed { (IsErrOf result FindFault.Failed → ⊥) → V.faults volume.new ≡ V.faults volume.old }

    // What each answer says of the file, where the volume tells,
    ensures found { IsTrue V.tells → IfOk result (FindsSlot (V.files volume.old) name.now given) }
    ensures says { IsTrue V.tells → IfErr result (FindingSays (V.files volume.old) name.now given) }

    // and the answer to each file.
    ensures complete { IsTrue V.tells → (slot : ℕ) → FindsSlot (V.files volume.old) name.now given slot → AnswersOrFails (Ok slot) result }
    ensures missing { IsTrue V.tells → get (V.files volume.old) name.now ≡ None → IsErrOf result FindFault.Missing }
    ensures small { IsTrue V.tells → (bytes : ℕ) → IsSmall (V.files volume.old) name.now 0 bytes → IsErrOf result (FindFault.Small bytes) }
    ensures wrong { IsTrue V.tells → RecordsMisfit (V.files volume.old) name.now → AnswersOrFails (Err (BadGeometry 6)) result }
    ensures differs { IsTrue V.tells → RecordsOther (V.files volume.old) name.now given → AnswersOrFails (Err (BadGeometry 5)) result }
    ensures unknown { IsTrue V.tells → TellsNoSlot (V.files volume.old) name.now given → AnswersOrFails (Err (BadGeometry 7)) result }

    // Nothing else changed.
    ensures files { V.files volume.new ≡ V.files volume.old }
    ensures faults { V.faults volume.old ≤ V.faults volume.new }
    ensures made { V.made volume.new ≡ V.made volume.old }
    ensures ended { V.ended volume.new ≡ V.ended volume.old }
{
    geometries_are_read_as_written();
    let looked = look_at_header(volume, name)?;
    match judge(looked.recorded, looked.bytes, given) {
        Ok(slot) => Ok(slot),
        Err(field) => Err(FindFault::BadGeometry { field }),
    }
}
