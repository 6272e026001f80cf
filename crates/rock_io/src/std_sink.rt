ghost use Rattle.std.specs.Prelude.{◌≡◌, ℕ, ◌<◌, ◌≤◌, false, IfOk, OnErr, [], length};
ghost use Rattle.std.specs.Io.KnownBytes.{WriteAppends};
ghost use Rattle.rock_io.specs.Faults.{one_more, Rose, CountsFault};

use crate::{Failed, Sink};
use std::io::Write;

/// Hands bytes to a writer of std. It tells nothing of them, since no contract knows what a file
/// or a socket takes. What the writer buffers it does not flush.
#[derive(Debug, Drop)]
pub struct StdSink<W> {
    inner: W,
    faults: u64,
}

impl<W: Write> StdSink<W> {
    ghost use Rattle.rock_io.specs.StdSink.{inner_of, faults_of};

    /// A sink that writes to `inner`. No call has failed yet.
    pub fn new(inner: W) -> Self
        ensures inner { inner_of result ≡ inner }
        ensures faults { faults_of result ≡ 0 }
    {
        StdSink { inner, faults: 0 }
    }

    /// Counts a fault, and gives the error to answer with.
    fn fault(&mut self) -> Failed
        ensures counted { self.new ≡ record self.old { faults = one_more self.old.faults } }
        ensures grown { self.old.faults ≤ self.new.faults }
    {
        self.faults = self.faults.saturating_add(1);
        Failed
    }
}

impl<W: Write> Sink for StdSink<W> {
    ghost use Rattle.rock_io.specs.StdSink.{inner_of, faults_of};

    ghost tells = { false };

    ghost taken = { λ _. [] };

    ghost faults = { faults_of };

    /// Writes once. It fails where the writer does, whatever its error, and where the writer takes
    /// none of the bytes that there are.
    fn write(&mut self, bytes: &[u8]) -> Result<usize, Failed>
        // What each sink ensures.
        ensures count { IfOk result (λ n. n ≤ length bytes.now) }
        ensures some { IfOk result (λ n. 0 < length bytes.now → 0 < n) }
        ensures faults { faults_of self.old ≤ faults_of self.new }
        ensures failed { OnErr result (Rose (faults_of self.old) (faults_of self.new)) }

        // And what this one does. Where the writer's bytes are known, these were added to them.
        ensures known { WriteAppends (W.contents (inner_of self.old))
            (W.contents (inner_of self.new)) result bytes.now }
        ensures counted { CountsFault result (faults_of self.old) (faults_of self.new) }
    {
        match self.inner.write(bytes) {
            Ok(0) if !bytes.is_empty() => Err(self.fault()),
            Ok(count) => Ok(count),
            Err(_) => Err(self.fault()),
        }
    }
}
