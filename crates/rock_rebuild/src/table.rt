// The headers of a file's sane slots, until the chains take them.
ghost use Rattle.std.specs.Prelude.{◌≡◌, ◌<◌, ℕ, List, [], ◌∷◌, ◌++◌, length, ◌↔◌, IsTrue, IfOk, OnOk, Option, Some, None, MatchOption, slice_index_or, slice_set};
ghost use Rattle.slot_cell.specs.declared.header.Header.{Header};
ghost use Rattle.rock_rebuild.specs.Left.{IsOf};

use slot_cell::Header;
use std::alloc::{AllocError, Global};
use std::marker::Model;

/// For each slot its header, where it is sane and no chain took it.
#[derive(Debug, Drop)]
pub struct Table {
    headers: Vec<Option<Header>>,
}

impl Model for Table {
    ghost Value = { List (Option Header) };

    ghost view = { λ t. t.headers.items };
}

impl Table {
    /// A table with room for so many slots, and none yet.
    pub fn with_capacity(alloc: Global, slots: usize) -> Result<Table, AllocError>
        ensures { IfOk result (λ table. table ≡ []) }
    {
        Ok(Table {
            headers: Vec::with_capacity(alloc, slots)?,
        })
    }

    /// Adds the next slot, with its header where it is sane.
    pub fn push(&mut self, header: Option<Header>) -> Result<(), AllocError>
        ensures { OnOk result (self.new ≡ self.old ++ header ∷ []) }
    {
        self.headers.push(header)?;
        Ok(())
    }

    /// The header of a slot, if it is left.
    pub fn header(&self, s: u32) -> Option<Header>
        ensures { result ≡ slice_index_or self.now s None }
    {
        match self.headers.get(s as usize) {
            Some(header) => *header,
            None => None,
        }
    }

    /// Takes the header of a slot, if it is left and the slot is of the entry that begins at slot
    /// `first` with this header.
    pub fn take(&mut self, s: u32, first: u32, head: &Header) -> Option<Header>
        ensures { MatchOption result
            ((self.new ≡ self.old) × ((h : Header) → slice_index_or self.old s None ≡ Some h → IsOf first head.now h → ⊥))
            (λ h. (self.new ≡ slice_set self.old s None) × (slice_index_or self.old s None ≡ Some h) × IsOf first head.now h) }
    {
        let header = self.header(s)?;
        if !is_of(first, head, &header) {
            return None;
        }
        self.headers[s as usize] = None;
        Some(header)
    }
}

/// Whether a slot with this header is of the entry that begins at slot `first` with header `head`.
fn is_of(first: u32, head: &Header, header: &Header) -> bool
    ensures { IsTrue result ↔ IsOf first head.now header.now }
{
    header.k0 == head.k0
        && header.k1 == head.k1
        && header.version == head.version
        && i64::from(header.first_slot) == i64::from(first)
}
