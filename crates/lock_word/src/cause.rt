ghost use Rattle.std.specs.Prelude.{◌≡◌, ◌≢◌, ◌↔◌, IsNone};
ghost use Rattle.lock_word.specs.Cause.{cause_of};
ghost use Rattle.lock_word.specs.Life.{IsAbsent, IsLeaving, IsReadable};

use crate::epoch::Epoch;
use crate::stage::Stage;

/// Why a look-up of a key finds no entry to read, with the epoch that it found.
#[derive(Clone, Copy, Debug, PartialEq, Eq)]
pub enum Cause {
    /// There is no entry.
    Absent { epoch: Epoch },
    /// An entry is being written, and can't be read yet.
    Writing { epoch: Epoch },
    /// The entry is doomed, was given up, or is being freed.
    Leaving { epoch: Epoch },
    /// The entry there has this other key.
    OtherKey { epoch: Epoch, key: [u8; 16] },
}

/// Why a look-up of the key `wanted` finds no entry to read at an anchor of this epoch, where `key` is
/// kept for its version: the first cause that applies. None is a hit.
pub fn cause_of(epoch: &Epoch, key: &[u8; 16], wanted: &[u8; 16]) -> Option<Cause>
    ensures cause { result ≡ cause_of epoch.now key.now wanted.now }

    // When each comes.
    ensures hit { IsNone result ↔ (IsReadable epoch.now × (key.now ≡ wanted.now)) }
    ensures absent { (result ≡ Some (Cause.Absent epoch.now)) ↔ IsAbsent epoch.now }
    ensures writing { (result ≡ Some (Cause.Writing epoch.now)) ↔ (epoch.now.stage ≡ Stage.Taken) }
    ensures leaving { (result ≡ Some (Cause.Leaving epoch.now)) ↔ IsLeaving epoch.now }
    ensures other_key { (result ≡ Some (Cause.OtherKey epoch.now key.now))
        ↔ (IsReadable epoch.now × (key.now ≢ wanted.now)) }
{
    let epoch = *epoch;
    match epoch.stage {
        Stage::Empty | Stage::Gone => Some(Cause::Absent { epoch }),
        Stage::Taken => Some(Cause::Writing { epoch }),
        Stage::Halted | Stage::Freeing => Some(Cause::Leaving { epoch }),
        Stage::Appending | Stage::Closed if epoch.doom => Some(Cause::Leaving { epoch }),
        Stage::Appending | Stage::Closed if key != wanted => {
            Some(Cause::OtherKey { epoch, key: *key })
        }
        Stage::Appending | Stage::Closed => None,
    }
}
