ghost use Rattle.std.specs.Prelude.{◌≡◌, ◌↔◌, IsTrue};
ghost use Rattle.lock_word.specs.Life.{IsReadable};
ghost use Rattle.lock_word.specs.Words.{epoch_number, is_readable};

use crate::stage::Stage;

/// The state of an anchor but for its readers. Epochs of one anchor only rise: by version, then doom,
/// then stage.
#[derive(Clone, Copy, Debug, PartialEq, Eq, PartialOrd, Ord)]
pub struct Epoch {
    /// The version of the entry, 0 where there never was one.
    pub version: u32,
    /// Whether the entry is to be freed when its last user leaves.
    pub doom: bool,
    pub stage: Stage,
}

/// Whether the entry may be read: it grows or is whole, and is not doomed.
pub fn readable(epoch: &Epoch) -> bool
    ensures readable { IsTrue result ↔ IsReadable epoch.now }
    ensures number { result ≡ is_readable (epoch_number epoch.now) }
{
    matches!(epoch.stage, Stage::Appending | Stage::Closed) && !epoch.doom
}
