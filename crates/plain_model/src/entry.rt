// What an anchor of the plain store has.
ghost use Rattle.std.specs.Prelude.{◌≡◌, ◌≤◌, ◌^◌, ℕ, List, length};

use rock_io::Octets;
use std::marker::Model;

/// How many bytes of an entry's content are there: far fewer than a number can say.
#[derive(Debug, Drop)]
pub struct Size {
    bytes: u64,
}

impl Model for Size {
    ghost Value = { ℕ };

    ghost view = { λ s. s.bytes };

    ghost invariant = { λ s. s.bytes ≤ 2 ^ 62 };
}

impl Size {
    pub fn new(bytes: u64) -> Self
        requires { bytes ≤ 2 ^ 62 }
        ensures { result ≡ bytes }
    {
        Size { bytes }
    }

    pub fn get(&self) -> u64
        ensures value { result ≡ self.now }
        ensures small { result ≤ 2 ^ 62 }
    {
        self.bytes
    }
}

/// Bytes of a URL or a body: so few that their number fits a size.
#[derive(Debug, Drop)]
pub struct Text {
    bytes: Octets,
}

impl Model for Text {
    ghost Value = { List ℕ };

    ghost view = { λ t. t.bytes };

    ghost invariant = { λ t. length t.bytes ≤ 2 ^ 60 };
}

impl Text {
    /// Takes bytes as they are, and no memory.
    pub fn from_octets(bytes: Octets) -> Self
        requires { length bytes ≤ 2 ^ 60 }
        ensures { result ≡ bytes }
    {
        Text { bytes }
    }

    pub fn as_slice(&self) -> &[u8]
        ensures value { result.now ≡ self.now }
        ensures small { length result.now ≤ 2 ^ 60 }
    {
        self.bytes.as_slice()
    }
}

/// How far an entry is in its life.
#[derive(Clone, Copy, Debug, PartialEq, Eq)]
pub enum Life {
    /// A tab writes it.
    Growing,
    /// It is whole.
    Whole,
    /// Its writer gave up.
    GivenUp,
}

/// An entry: what was offered, and how much of it is there.
#[derive(Debug, Drop)]
pub struct Entry {
    pub url: Text,
    pub key: [u8; 16],
    /// The whole body that was offered.
    pub body: Text,
    /// The number of the offer: of a line of the script, behind the slots; of an entry of the file, the
    /// slot that it begins in.
    pub offer: u64,
    /// How many bytes of its content are there, the metadata in front among them.
    pub content: Size,
    pub life: Life,
}

/// What an anchor has.
#[derive(Debug, Drop)]
pub struct Place {
    /// The version of the entry, or of the last one that was here. 0 where there never was one.
    pub version: u32,
    /// Whether the entry is to go when its last user leaves.
    pub doom: bool,
    pub entry: Option<Entry>,
}

impl Place {
    ghost use Rattle.std.specs.Prelude.{◌≡◌};
    ghost use Rattle.plain_model.specs.Place.{resized, ended};

    /// Makes so many bytes of the entry's content be there.
    pub fn resize(&mut self, content: Size)
        ensures { self.new ≡ resized content self.old }
    {
        if let Some(entry) = &mut self.entry {
            entry.content = content;
        }
    }

    /// Ends the entry's growing.
    pub fn end(&mut self, life: Life)
        ensures { self.new ≡ ended life self.old }
    {
        if let Some(entry) = &mut self.entry {
            entry.life = life;
        }
    }
}
