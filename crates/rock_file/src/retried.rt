ghost use Rattle.std.specs.Prelude.{◌≢◌, IfErr};
ghost use Rattle.std.specs.IoError.{error_kind};
ghost use Rattle.std.specs.Io.{ReadsAtMost, WritesAtMost};

use std::io;
use std::io::{ErrorKind, Read, Write};

/// A reader or a writer whose calls are made again where a signal interrupted them. It does not say which bytes it
/// gives or has.
#[derive(Debug, Drop)]
pub struct Retried<T> {
    inner: T,
}

impl<T> Retried<T> {
    pub fn new(inner: T) -> Retried<T> {
        Retried { inner }
    }
}

/// The error of a call that was interrupted more often than is counted.
fn given_up() -> io::Error
    ensures { error_kind result ≢ ErrorKind.Interrupted }
{
    io::Error::from(ErrorKind::Other)
}

impl<R: Read> Read for Retried<R> {
    /// Reads once, behind reads that were interrupted.
    fn read(&mut self, buf: &mut [u8]) -> io::Result<usize>
        ensures bound { ReadsAtMost result buf.new }
        ensures retried { IfErr result (λ e. error_kind e ≢ ErrorKind.Interrupted) }
    {
        for _ in 0..u64::MAX {
            match self.inner.read(buf) {
                Ok(count) => return Ok(count),
                Err(error) if error.kind() == ErrorKind::Interrupted => {}
                Err(error) => return Err(error),
            }
        }
        Err(given_up())
    }
}

impl<W: Write> Write for Retried<W> {
    /// Writes once, behind writes that were interrupted.
    fn write(&mut self, buf: &[u8]) -> io::Result<usize>
        ensures bound { WritesAtMost result buf.now }
        ensures retried { IfErr result (λ e. error_kind e ≢ ErrorKind.Interrupted) }
    {
        for _ in 0..u64::MAX {
            match self.inner.write(buf) {
                Ok(count) => return Ok(count),
                Err(error) if error.kind() == ErrorKind::Interrupted => {}
                Err(error) => return Err(error),
            }
        }
        Err(given_up())
    }

    fn flush(&mut self) -> io::Result<()> {
        self.inner.flush()
    }
}
