// Calls that a signal interrupts are made again.
ghost use Rattle.std.specs.Prelude.{◌≤◌, IfOk};

use rock_file::Retried;
use std::io;
use std::io::{ErrorKind, Read, Write};
use std::test::Fail;

/// A stream whose first calls are interrupted, so many. The next call moves three bytes, and later ones fail.
#[derive(Drop)]
struct Interrupted {
    left: u32,
    is_used: bool,
}

impl Interrupted {
    fn new(left: u32) -> Interrupted {
        Interrupted {
            left,
            is_used: false,
        }
    }

    /// How many of so many bytes the call moves.
    fn move_some(&mut self, room: usize) -> io::Result<usize>
        ensures { IfOk result (λ count. count ≤ room) }
    {
        if self.left > 0 {
            self.left -= 1;
            return Err(io::Error::from(ErrorKind::Interrupted));
        }
        if self.is_used {
            return Err(io::Error::from(ErrorKind::BrokenPipe));
        }
        self.is_used = true;
        Ok(room.min(3))
    }
}

impl Read for Interrupted {
    fn read(&mut self, buf: &mut [u8]) -> io::Result<usize> {
        self.move_some(buf.len())
    }
}

impl Write for Interrupted {
    fn write(&mut self, buf: &[u8]) -> io::Result<usize> {
        self.move_some(buf.len())
    }

    fn flush(&mut self) -> io::Result<()> {
        Ok(())
    }
}

/// How many bytes a call moved, or why it failed.
fn outcome(answer: io::Result<usize>) -> Result<usize, ErrorKind> {
    answer.map_err(|error| error.kind())
}

#[test]
fn interrupted_calls_are_made_again(rt: HostRuntime) -> Result<(), Fail> {
    for count in [0, 1, 70] {
        let mut reader = Retried::new(Interrupted::new(count));
        assert!(rt; outcome(reader.read(&mut [0; 8])) == Ok(3));
        assert!(rt; outcome(reader.read(&mut [0; 8])) == Err(ErrorKind::BrokenPipe));
        let mut writer = Retried::new(Interrupted::new(count));
        assert!(rt; outcome(writer.write(&[0; 8])) == Ok(3));
        assert!(rt; outcome(writer.write(&[0; 8])) == Err(ErrorKind::BrokenPipe));
        assert!(rt; writer.flush().is_ok());
    }
    Ok(())
}
