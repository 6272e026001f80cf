// Filling slots one after the other.
ghost use Rattle.std.specs.Prelude.{◌≡◌, ◌+◌, ◌-◌, ◌<◌, ◌≤◌, ◌^◌, ◌↔◌, ◌++◌, ℕ, List, [], length, take, drop, min, IsTrue};
ghost use Rattle.entry_cut.specs.Filling.{CutterState, Holds};

use std::marker::Model;

/// Cuts bytes as they come into slots, in a page of the caller's. It knows the place of the slot that is
/// being filled, from 0, and how many bytes of it are there.
#[derive(Debug, Drop)]
pub struct Cutter {
    place: u64,
    held: usize,
    room: usize,
}

impl Model for Cutter {
    ghost Value = { CutterState };

    ghost view = { λ c. record { place = c.place; held = c.held; room = c.room } };

    ghost invariant = { λ c. c.held ≤ c.room };
}

impl Cutter {
    /// A cutter of slots that have room for so many bytes. The page of the first one is empty.
    pub fn new(room: usize) -> Cutter
        ensures state { result ≡ record { place = 0; held = 0; room = room } }
        ensures empty { (page : List ℕ) → Holds result page [] }
    {
        Cutter {
            place: 0,
            held: 0,
            room,
        }
    }

    /// The place of the slot that is being filled, from 0.
    pub fn place(&self) -> u64
        ensures { result ≡ self.now.place }
    {
        self.place
    }

    /// How many bytes of the slot are there.
    pub fn held(&self) -> usize
        ensures value { result ≡ self.now.held }
        ensures within { result ≤ self.now.room }
    {
        self.held
    }

    /// Copies as many bytes as the slot has room for behind those that the page holds, and answers how
    /// many.
    pub fn fill(&mut self, page: &mut [u8], bytes: &[u8]) -> usize
        requires { self.old.room ≤ length page.old }
        ensures count { result ≡ min (length bytes.now) (self.old.room - self.old.held) }
        ensures copied { page.new ≡ take self.old.held page.old ++ take result bytes.now ++ drop (self.old.held + result) page.old }
        ensures state { self.new ≡ record self.old { held = self.old.held + result } }
        ensures within { self.new.held ≤ self.new.room }
        ensures holds { (filled : List ℕ) → Holds self.old page.old filled
            → Holds self.new page.new (filled ++ take result bytes.now) }
    {
        let left = self.room - self.held;
        let count = left.min(bytes.len());
        let end = self.held + count;
        page[self.held..end].copy_from_slice(&bytes[..count]);
        self.held = end;
        count
    }

    /// Whether the slot has room for no more.
    pub fn is_full(&self) -> bool
        ensures { IsTrue result ↔ (self.now.held ≡ self.now.room) }
    {
        self.held == self.room
    }

    /// Begins the next slot. The page may be used anew.
    pub fn next(&mut self)
        ensures state { self.new ≡ record { place = min (self.old.place + 1) u64.MAX; held = 0; room = self.old.room } }
        ensures holds { (page new_page filled : List ℕ) → self.old.place < u64.MAX → self.old.held ≡ self.old.room
            → Holds self.old page filled → Holds self.new new_page filled }
    {
        self.place = self.place.saturating_add(1);
        self.held = 0;
    }
}
