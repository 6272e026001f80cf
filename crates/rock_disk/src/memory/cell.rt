ghost use Rattle.std.specs.Prelude.{◌≡◌, ◌<◌, [], length, true, refl, IfOk, OnOk, OnErr};
ghost use Rattle.std.proofs.lemmas.List.Elements.{Contains-get_or};

use crate::Cell;
use rock_io::{Memory, Octets};
use std::alloc::Global;

/// A cell in memory.
#[derive(Drop)]
pub struct MemCell {
    number: u32,
    /// What a crash may leave.
    possible: Vec<Octets>,
    /// Which of these a read gives.
    at: usize,
    ghost within: { at < length possible.items },
}

impl MemCell {
    ghost use Rattle.rock_disk.specs.Cell.{settled, settle};
    ghost use Rattle.rock_disk.specs.Memory.{cell_state};
    ghost use Rattle.rock_disk.specs.Written.{with_possible, IsWritten};

    /// A cell that holds these bytes, also after a crash.
    pub(super) fn new(alloc: Global, number: u32, bytes: &[u8]) -> Result<MemCell, Memory>
        ensures { IfOk result (λ c. cell_state c ≡ settled number (length bytes.now) bytes.now) }
    {
        let content = Octets::from_vec(bytes.to_vec(alloc)?);
        let mut possible = Vec::new(alloc);
        possible.push(content)?;
        Ok(MemCell {
            number,
            possible,
            at: 0,
        })
    }

    /// Makes these bytes what a read gives, and keeps all that a crash might leave before. Where no
    /// memory is left for that, they take the place of what a read gave.
    pub(super) fn write(&mut self, bytes: &[u8])
        requires { length bytes.now ≡ (cell_state self.old).width }
        ensures { IsWritten bytes.now (cell_state self.old) (cell_state self.new) }
    {
        match self.add(bytes) {
            Ok(()) => self.at = self.possible.len() - 1,
            Err(_) => self.possible[self.at].copy_from_slice(bytes),
        }
    }

    /// Adds these bytes to what a crash may leave.
    pub(super) fn add(&mut self, bytes: &[u8]) -> Result<(), Memory>
        ensures ok { OnOk result (cell_state self.new ≡ with_possible bytes.now (cell_state self.old)) }
        ensures err { OnErr result (cell_state self.new ≡ cell_state self.old) }
        ensures at { self.new.at ≡ self.old.at }
    {
        let alloc = *self.possible.allocator();
        let content = Octets::from_vec(bytes.to_vec(alloc)?);
        self.possible.push(content)?;
        Ok(())
    }

    /// Drops all that a crash might leave but what a read gives.
    pub(super) fn settle(&mut self)
        ensures { cell_state self.new ≡ settle (cell_state self.old) }
    {
        self.possible.swap(0, self.at);
        self.at = 0;
        self.possible.truncate(1);
    }

    /// What a read gives.
    pub fn now(&self) -> &[u8]
        ensures { result.now ≡ (cell_state self.now).now }
    {
        self.possible[self.at].as_slice()
    }

    /// All that a crash may leave.
    pub fn possible(&self) -> &[Octets]
        ensures { result.now ≡ (cell_state self.now).possible }
    {
        &self.possible
    }
}

impl Cell for MemCell {
    ghost use Rattle.rock_disk.specs.Memory.{cell_state};

    ghost tells = { true };

    ghost state = { cell_state };

    fn number(&self) -> u32 {
        self.number
    }

    ghost as_wide = { λ cell t. refl };

    ghost now_may_stay = { λ cell t. Contains-get_or cell.possible.items cell.at [] cell.within };
}
