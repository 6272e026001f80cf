// The images of a file's slots.
ghost use Rattle.std.specs.Prelude.{◌≡◌, ℕ, List};

use rock_io::Octets;
use std::marker::Model;

/// The images of slots, in order.
#[derive(Debug, Drop)]
pub struct Images {
    images: Vec<Octets>,
}

impl Model for Images {
    ghost Value = { List (List ℕ) };

    ghost view = { λ i. i.images.items };
}

impl Images {
    /// Takes a vector as it is, and no memory.
    pub fn from_vec(images: Vec<Octets>) -> Self
        ensures { result ≡ images.items }
    {
        Images { images }
    }

    pub fn as_slice(&self) -> &[Octets]
        ensures { result.now ≡ self.now }
    {
        &self.images
    }

    /// Gives the vector back, and takes no memory.
    pub fn into_vec(self) -> Vec<Octets>
        ensures { result.items ≡ self }
    {
        self.images
    }
}

/// What a file's slots hold.
#[derive(Debug, Drop)]
pub struct FileImage {
    /// How many bytes a slot has.
    pub slot: u32,
    pub slots: Images,
}
