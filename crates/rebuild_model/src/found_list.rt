// The complete entries that a scan found.
ghost use Rattle.std.specs.Prelude.{◌≡◌, List};
ghost use Rattle.rebuild_model.specs.declared.found.Found.{Found};

use crate::Found;
use std::marker::Model;

/// Complete entries that were found, in order.
#[derive(Debug, Drop)]
pub struct FoundList {
    found: Vec<Found>,
}

impl Model for FoundList {
    ghost Value = { List Found };

    ghost view = { λ f. f.found.items };
}

impl FoundList {
    /// Takes a vector as it is, and no memory.
    pub fn from_vec(found: Vec<Found>) -> Self
        ensures { result ≡ found.items }
    {
        FoundList { found }
    }

    pub fn as_slice(&self) -> &[Found]
        ensures { result.now ≡ self.now }
    {
        &self.found
    }

    /// Gives the vector back, and takes no memory.
    pub fn into_vec(self) -> Vec<Found>
        ensures { result.items ≡ self }
    {
        self.found
    }
}
