ghost use Rattle.std.specs.Prelude.{◌≡◌, ◌↔◌, ◌+◌, ◌-◌, ◌^◌, ◌<◌, ◌≤◌, ◌++◌, ◌⊎◌, IfOk, IsErr, OnErr, OnOk, [], drop, length, min, take, vec_len};
ghost use Rattle.rock_io.specs.Faults.{CountsFault, Rose, one_more};

use crate::Fetcher;
use rock_io::{Failed, Plan};

/// Fetches one body from memory, whatever the URL and the offer, in pieces of a length that is set, and fails at the calls
/// that are listed. It is for trying code out on fetchers that fail.
#[derive(Debug, Drop)]
pub struct MemFetcher {
    bytes: Vec<u8>,
    at: usize,
    most: usize,
    starts: u64,
    plan: Plan,
    ghost within: { at ≤ vec_len bytes },
    ghost gives_some: { 0 < most },
}

impl MemFetcher {
    ghost use Rattle.collapse.specs.MemFetcher.{body_of, calls_of, faults_of, left_of, listed_calls_of, most_of, starts_of};
    ghost use Rattle.std.specs.Prelude.{List, ℕ};

    /// A fetcher whose body is `bytes`, of which it gives at most `most` in a call. The calls of both kinds are
    /// numbered together from 0, and those in `fail` fail.
    pub fn new(bytes: Vec<u8>, most: usize, fail: Vec<u64>) -> Self
        requires { 1 ≤ most }
        ensures body { (url : List ℕ) (offer : ℕ) → body_of result url offer ≡ bytes.items }
        ensures most { most_of result ≡ most }
        ensures fail { listed_calls_of result ≡ fail.items }
        ensures starts { starts_of result ≡ 0 }
        ensures left { left_of result ≡ [] }
        ensures calls { calls_of result ≡ 0 }
        ensures faults { faults_of result ≡ 0 }
    {
        let at = bytes.len();
        MemFetcher {
            bytes,
            at,
            most,
            starts: 0,
            plan: Plan::new(fail),
        }
    }

    /// How many fetches were started.
    pub fn starts(&self) -> u64
        ensures { result ≡ starts_of self.now }
    {
        self.starts
    }
}

impl Fetcher for MemFetcher {
    ghost use Rattle.collapse.specs.MemFetcher.{FailsNext, IsSpent, SameSettings, body_of, calls_of, faults_of, left_of, most_of, starts_of};

    ghost body = { body_of };

    ghost starts = { starts_of };

    ghost left = { left_of };

    ghost faults = { faults_of };

    /// Starts again with the first byte, or fails: exactly where this call is listed, or the count of starts is at
    /// its end.
    fn start(&mut self, _url: &[u8], _offer: u64) -> Result<(), Failed>
        // What each fetcher ensures.
        ensures body { body_of self.new ≡ body_of self.old }
        ensures started { OnOk result (starts_of self.new ≡ starts_of self.old + 1) }
        ensures left { OnOk result (left_of self.new ≡ body_of self.old _url.now _offer) }
        ensures unstarted { OnErr result (starts_of self.new ≡ starts_of self.old) }
        ensures faults { faults_of self.old ≤ faults_of self.new }
        ensures failed { OnErr result (Rose (faults_of self.old) (faults_of self.new)) }

        // And what this one does.
        ensures listed { FailsNext self.old → IsErr result }
        ensures unlisted { OnErr result (FailsNext self.old ⊎ IsSpent self.old) }
        ensures spent { IsSpent self.old → IsErr result }
        ensures kept { OnErr result (left_of self.new ≡ left_of self.old) }
        ensures calls { calls_of self.new ≡ one_more (calls_of self.old) }
        ensures counted { CountsFault result (faults_of self.old) (faults_of self.new) }
        ensures settings { SameSettings self.old self.new }
    {
        if self.plan.begin_call() || self.starts == u64::MAX {
            return Err(self.plan.fault());
        }
        self.starts += 1;
        self.at = 0;
        Ok(())
    }

    /// Gives as many bytes as the setting, what is left and `buf` allow, or fails, exactly where this call is
    /// listed.
    fn next(&mut self, buf: &mut [u8]) -> Result<usize, Failed>
        // What each fetcher ensures.
        ensures body { body_of self.new ≡ body_of self.old }
        ensures starts { starts_of self.new ≡ starts_of self.old }
        ensures count { IfOk result (λ n. n ≤ length buf.old) }
        ensures given { IfOk result (λ n. left_of self.old ≡ take n buf.new ++ left_of self.new) }
        ensures end { IfOk result (λ n. n ≡ 0 → 0 < length buf.old → left_of self.old ≡ []) }
        ensures faults { faults_of self.old ≤ faults_of self.new }
        ensures failed { OnErr result (Rose (faults_of self.old) (faults_of self.new)) }

        // And what this one does.
        ensures listed { IsErr result ↔ FailsNext self.old }
        ensures kept { OnErr result (left_of self.new ≡ left_of self.old) }
        ensures exact { IfOk result (λ n.
            n ≡ min (min (most_of self.old) (length (left_of self.old))) (length buf.old)) }
        ensures beyond { IfOk result (λ n. drop n buf.new ≡ drop n buf.old) }
        ensures calls { calls_of self.new ≡ one_more (calls_of self.old) }
        ensures counted { CountsFault result (faults_of self.old) (faults_of self.new) }
        ensures settings { SameSettings self.old self.new }
    {
        if self.plan.begin_call() {
            return Err(self.plan.fault());
        }
        let left = &self.bytes[self.at..];
        let count = self.most.min(left.len()).min(buf.len());
        buf[..count].copy_from_slice(&left[..count]);
        self.at += count;
        Ok(count)
    }
}
