ghost use Rattle.std.specs.Prelude.{◌≡◌, ◌+◌, ◌≤◌, ◌<◌, ◌++◌, ◌∷◌, [], length, vec_capacity, OnOk, OnErr};

use rock_io::Memory;
use std::alloc::Global;

/// How many stations a volume made, and the counts of faults of those that were ended, for any kind of
/// volume. There is room for the counts of all that were made, so that ending one takes no memory.
#[derive(Debug, Drop)]
pub struct Stations {
    made: usize,
    ended: Vec<u64>,
    ghost room: { made ≤ vec_capacity ended },
    pub ghost within: { length ended.items ≤ made },
}

impl Stations {
    ghost use Rattle.rock_disk.specs.Stations.{made_of, ended_of};

    /// None was made yet.
    pub fn new(alloc: Global) -> Stations
        ensures made { made_of result ≡ 0 }
        ensures ended { ended_of result ≡ [] }
    {
        Stations {
            made: 0,
            ended: Vec::new(alloc),
        }
    }

    /// How many were made.
    pub fn made(&self) -> usize
        ensures { result ≡ made_of self.now }
    {
        self.made
    }

    /// The counts of faults with which stations were ended, in that order.
    pub fn ended(&self) -> &[u64]
        ensures { result.now ≡ ended_of self.now }
    {
        &self.ended
    }

    /// Counts a station that is made, and makes room for its count of faults.
    pub fn make(&mut self) -> Result<(), Memory>
        ensures made { OnOk result (made_of self.new ≡ made_of self.old + 1) }
        ensures refused { OnErr result (made_of self.new ≡ made_of self.old) }
        ensures ended { ended_of self.new ≡ ended_of self.old }
    {
        let others = self.made - self.ended.len();
        self.ended.reserve(others + 1)?;
        self.made += 1;
        Ok(())
    }

    /// Keeps the count of faults of a station that is ended. It takes no memory.
    pub fn end(&mut self, faults: u64)
        requires { length (ended_of self.old) < made_of self.old }
        ensures made { made_of self.new ≡ made_of self.old }
        ensures ended { ended_of self.new ≡ ended_of self.old ++ faults ∷ [] }
    {
        self.ended.push_reserved(faults);
    }
}
