ghost use Rattle.std.specs.Prelude.{◌≡◌, ◌↔◌, ℕ, ◌<◌, ◌≤◌, min, true, IsErr, IfOk, OnErr, List, [], ◌++◌, length, take, drop, vec_len};
ghost use Rattle.rock_io.specs.Faults.{one_more, Rose, CountsFault};

use crate::{Failed, Plan, Source};

/// Gives bytes from memory, in pieces of a length that is set, and fails at the calls that are
/// listed. It is for trying code out on sources that fail.
#[derive(Debug, Drop)]
pub struct MemSource {
    bytes: Vec<u8>,
    at: usize,
    most: usize,
    plan: Plan,
    ghost within: { at ≤ vec_len bytes },
    ghost gives_some: { 0 < most },
}

impl MemSource {
    ghost use Rattle.rock_io.specs.MemSource.{left_of, most_of, listed_calls_of, calls_of, faults_of};

    /// A source that gives `bytes`, at most `most` of them in a call. The calls are numbered from
    /// 0, and those in `fail` fail.
    pub fn new(bytes: Vec<u8>, most: usize, fail: Vec<u64>) -> Self
        requires { 1 ≤ most }
        ensures left { left_of result ≡ bytes.items }
        ensures most { most_of result ≡ most }
        ensures fail { listed_calls_of result ≡ fail.items }
        ensures calls { calls_of result ≡ 0 }
        ensures faults { faults_of result ≡ 0 }
    {
        MemSource {
            bytes,
            at: 0,
            most,
            plan: Plan::new(fail),
        }
    }
}

impl Source for MemSource {
    ghost use Rattle.rock_io.specs.MemSource.{left_of, most_of, calls_of, faults_of, FailsNext, SameSettings};

    ghost tells = { true };

    ghost left = { left_of };

    ghost faults = { faults_of };

    /// Gives as many bytes as the setting, what is left and `buf` allow, or fails, exactly where
    /// this call is listed.
    fn read(&mut self, buf: &mut [u8]) -> Result<usize, Failed>
        // What each source ensures.
        ensures count { IfOk result (λ n. n ≤ length buf.old) }
        ensures given { IfOk result (λ n. left_of self.old ≡ take n buf.new ++ left_of self.new) }
        ensures end { IfOk result (λ n. n ≡ 0 → 0 < length buf.old → left_of self.old ≡ []) }
        ensures kept { OnErr result (left_of self.new ≡ left_of self.old) }
        ensures faults { faults_of self.old ≤ faults_of self.new }
        ensures failed { OnErr result (Rose (faults_of self.old) (faults_of self.new)) }

        // And what this one does.
        ensures listed { IsErr result ↔ FailsNext self.old }
        ensures exact { IfOk result (λ n.
            n ≡ min (min (most_of self.old) (length (left_of self.old))) (length buf.old)) }
        ensures beyond { IfOk result (λ n. drop n buf.new ≡ drop n buf.old) }
        ensures calls { calls_of self.new ≡ one_more (calls_of self.old) }
        ensures counted { CountsFault result (faults_of self.old) (faults_of self.new) }
        ensures settings { SameSettings self.old self.new }
    {
        if self.plan.begin_call() {
            return Err(self.plan.fault());
        }
        let left = &self.bytes[self.at..];
        let count = self.most.min(left.len()).min(buf.len());
        buf[..count].copy_from_slice(&left[..count]);
        self.at += count;
        Ok(count)
    }
}
