ghost use Rattle.std.specs.Prelude.{◌≡◌, ◌↔◌, ◌≤◌, IsTrue};
ghost use Rattle.rock_io.specs.Faults.{one_more};

use crate::Failed;

/// Which calls of something in memory fail, how many were made, and how many of those failed. Both
/// counts stay at `u64::MAX` once they are there.
#[derive(Debug, Drop)]
pub struct Plan {
    fail: Vec<u64>,
    calls: u64,
    faults: u64,
}

impl Plan {
    ghost use Rattle.rock_io.specs.Plan.{schedule_of, faults_of, planned, called, FailsNext};

    /// A plan under which the calls that `fail` lists fail. The first call is 0.
    pub fn new(fail: Vec<u64>) -> Self
        ensures schedule { schedule_of result ≡ planned fail.items }
        ensures faults { faults_of result ≡ 0 }
    {
        Plan {
            fail,
            calls: 0,
            faults: 0,
        }
    }

    /// How many calls failed.
    pub fn faults(&self) -> u64
        ensures { result ≡ faults_of self.now }
    {
        self.faults
    }

    /// Counts a call, and says whether it is listed to fail.
    pub fn begin_call(&mut self) -> bool
        ensures listed { IsTrue result ↔ FailsNext (schedule_of self.old) }
        ensures schedule { schedule_of self.new ≡ called (schedule_of self.old) }
        ensures faults { faults_of self.new ≡ faults_of self.old }
    {
        let listed = self.fail.contains(&self.calls);
        self.calls = self.calls.saturating_add(1);
        listed
    }

    /// Counts a fault, and gives the error to answer with.
    pub fn fault(&mut self) -> Failed
        ensures counted { faults_of self.new ≡ one_more (faults_of self.old) }
        ensures grown { faults_of self.old ≤ faults_of self.new }
        ensures schedule { schedule_of self.new ≡ schedule_of self.old }
    {
        self.faults = self.faults.saturating_add(1);
        Failed
    }
}
