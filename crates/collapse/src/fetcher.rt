ghost use Rattle.std.specs.Prelude.{◌≡◌, ◌+◌, ◌<◌, ◌≤◌, ◌++◌, IfOk, List, OnErr, OnOk, [], length, take, ℕ};
ghost use Rattle.rock_io.specs.Faults.{Rose};

use rock_io::Failed;

/// Fetches responses from their origin, one at a time.
pub trait Fetcher {
    /// The body that it has for each URL and offer. No call changes it.
    ghost body: { Self → List ℕ → ℕ → List ℕ };

    /// How many fetches were started.
    ghost starts: { Self → ℕ };

    /// The bytes of the present fetch that are still to come.
    ghost left: { Self → List ℕ };

    /// How many of its calls have failed.
    ghost faults: { Self → ℕ };

    /// Starts to fetch the response of an offer, by its URL. What was left of an earlier fetch does not come.
    fn start(&mut self, url: &[u8], offer: u64) -> Result<(), Failed>
        ensures body { body self.new ≡ body self.old }
        ensures started { OnOk result (starts self.new ≡ starts self.old + 1) }
        ensures left { OnOk result (left self.new ≡ body self.old url.now offer) }
        ensures unstarted { OnErr result (starts self.new ≡ starts self.old) }
        ensures faults { faults self.old ≤ faults self.new }
        ensures unfailed { OnOk result (faults self.new ≡ faults self.old) }
        ensures failed { OnErr result (Rose (faults self.old) (faults self.new)) };

    /// Puts the next bytes of the present fetch into the front of `buf`, and answers how many. 0 for a `buf` with
    /// room says that none is left.
    fn next(&mut self, buf: &mut [u8]) -> Result<usize, Failed>
        ensures body { body self.new ≡ body self.old }
        ensures starts { starts self.new ≡ starts self.old }
        ensures count { IfOk result (λ n. n ≤ length buf.old) }
        ensures given { IfOk result (λ n. left self.old ≡ take n buf.new ++ left self.new) }
        ensures end { IfOk result (λ n. n ≡ 0 → 0 < length buf.old → left self.old ≡ []) }
        ensures faults { faults self.old ≤ faults self.new }
        ensures unfailed { OnOk result (faults self.new ≡ faults self.old) }
        ensures failed { OnErr result (Rose (faults self.old) (faults self.new)) };
}
