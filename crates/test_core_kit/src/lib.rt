//! Cores that tests of the core begin with, a step of one, and what rows of text say of steps and of cores.
#![tactic(auto)]

mod base;
mod rows;

ghost use Rattle.std.specs.Prelude.{◌≡◌, ℕ, List, All, length, IsTrue};

pub use base::patched_base;
use core_lives::Life;
use core_state::{Core, Step, StepFault};
use rebuild_model::{FileImage, Images};
use rock_io::Octets;
pub use rows::{act_in, answer_in, numbers, parted, standing, word_in};
use std::alloc::Global;

/// The bytes of a slot.
pub const SLOT: usize = 512;

/// The file of these bytes, in slots of 512 bytes. None where there is no memory.
fn file_of(alloc: Global, bytes: &[u8]) -> Option<FileImage> {
    let mut images = Vec::new(alloc);
    for slot in bytes.chunks(SLOT) {
        images
            .push(Octets::from_vec(slot.to_vec(alloc).ok()?))
            .ok()?;
    }
    Some(FileImage {
        slot: 512,
        slots: Images::from_vec(images),
    })
}

/// A core over a file of these bytes, in slots of 512 bytes. None where there is no such core, or no memory.
pub fn core_over(alloc: Global, bytes: &[u8], anchors: u32, passes: u32) -> Option<Core> {
    let image = file_of(alloc, bytes)?;
    let count = image.slots.as_slice().len();
    if count < 1 || count > 1_048_576 || anchors < 1 || anchors as usize > count {
        return None;
    }
    if image.slot != 512 || passes < 1 || passes > 32 || !has_width(&image) {
        return None;
    }
    Core::new(alloc, &image, anchors, passes).ok()
}

/// A core over a file of so many empty slots.
pub fn blank_core(alloc: Global, slots: u32, anchors: u32, passes: u32) -> Option<Core> {
    let mut bytes = Vec::new(alloc);
    bytes.resize(slots as usize * SLOT, 0).ok()?;
    core_over(alloc, &bytes, anchors, passes)
}

/// A core over a file of these bytes that goes through crashes. None where there is no such core, or no memory.
pub fn life_over(alloc: Global, bytes: &[u8], anchors: u32, passes: u32) -> Option<Life> {
    let image = file_of(alloc, bytes)?;
    let count = image.slots.as_slice().len();
    if count < 1 || count > 1_048_576 || anchors < 1 || anchors as usize > count {
        return None;
    }
    if image.slot != 512 || passes < 1 || passes > 32 || !has_width(&image) {
        return None;
    }
    Life::new(alloc, image, anchors, passes).ok()
}

/// Whether each slot of a file is as wide as the file says.
fn has_width(image: &FileImage) -> bool
    ensures { IsTrue result → All (λ (slot : List ℕ). length slot ≡ image.now.slot) image.now.slots }
{
    let width = image.slot as usize;
    let slots = image.slots.as_slice();
    slots.iter().all(|slot| slot.as_slice().len() == width)
}

/// Makes a step. Nothing is ensured: what calls this is proved quickly, without all that a step keeps.
///
/// # Errors
///
/// The step is refused, and the core as it was.
pub fn make(core: &mut Core, step: &Step) -> Result<u64, StepFault> {
    core.apply(step)
}

/// Lets a step happen to a life. Nothing is ensured, likewise.
///
/// # Errors
///
/// The step is refused, and all is as it was.
pub fn live(life: &mut Life, step: &Step) -> Result<u64, StepFault> {
    life.apply(step)
}
