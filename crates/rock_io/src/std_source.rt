ghost use Rattle.std.specs.Prelude.{◌≡◌, ℕ, ◌≤◌, false, IfOk, OnErr, [], length};
ghost use Rattle.std.specs.Io.KnownBytes.{ReadConsumes};
ghost use Rattle.rock_io.specs.Faults.{Rose, CountsFault};

use crate::{Failed, Source};
use std::io::Read;

/// Gives the bytes of a reader of std. It tells nothing of them, since no contract knows what a
/// file or a socket gives.
#[derive(Debug, Drop)]
pub struct StdSource<R> {
    inner: R,
    faults: u64,
}

impl<R: Read> StdSource<R> {
    ghost use Rattle.rock_io.specs.StdSource.{inner_of, faults_of};

    /// A source that reads from `inner`. No call has failed yet.
    pub fn new(inner: R) -> Self
        ensures inner { inner_of result ≡ inner }
        ensures faults { faults_of result ≡ 0 }
    {
        StdSource { inner, faults: 0 }
    }
}

impl<R: Read> Source for StdSource<R> {
    ghost use Rattle.rock_io.specs.StdSource.{inner_of, faults_of};

    ghost tells = { false };

    ghost left = { λ _. [] };

    ghost faults = { faults_of };

    /// Reads once, and fails where the reader does, whatever its error.
    fn read(&mut self, buf: &mut [u8]) -> Result<usize, Failed>
        // What each source ensures.
        ensures count { IfOk result (λ n. n ≤ length buf.old) }
        ensures faults { faults_of self.old ≤ faults_of self.new }
        ensures failed { OnErr result (Rose (faults_of self.old) (faults_of self.new)) }

        // And what this one does. Where the reader's bytes are known, these are they.
        ensures known { ReadConsumes (R.remaining (inner_of self.old))
            (R.remaining (inner_of self.new)) result buf.new }
        ensures counted { CountsFault result (faults_of self.old) (faults_of self.new) }
    {
        match self.inner.read(buf) {
            Ok(count) => Ok(count),
            Err(_) => {
                self.faults = self.faults.saturating_add(1);
                Err(Failed)
            }
        }
    }
}
