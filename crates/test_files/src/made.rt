// A system that is made for the tests, in place of the machine's: it shows what is asked of a system.
ghost use Rattle.std.specs.Prelude.{IsErr};

use rock_file::{Access, LockFile};
use std::alloc::Allocator;
use std::cell::Cell as StdCell;
use std::fs::{Metadata, OpenFile, OpenOptions, TryLockError};
use std::io;
use std::io::{ErrorKind, Read, Seek, SeekFrom, Write};
use std::os::unix::fs::FileExt;
use std::rt::Files;

/// The bytes of the greatest file: 1,048,576 slots of 32,768 bytes behind the header area.
pub(crate) const LENGTH: u64 = 34_359_754_752;

/// The bytes of a file of eight slots of 512 bytes.
const EIGHT: u64 = 20_480;

/// Where the last slot of the greatest file begins.
const LAST: u64 = 34_359_721_984;

/// The most bytes that one call moves.
const PIECE: u64 = 1_000;

/// A system whose files have the greatest length, or eight small slots where their name has "eight", and move few bytes in a call.
/// No file of "loose" in its name is synced, and one of "locked" is only read. Another program has the lock of one of "held", and
/// shares it of one of "shared"; one of "free" has no lock. No further file is opened of "many". A name with "new" is free. Of one
/// of "torn" the first 1,000 bytes are read, and the first 18,500 of one of "worn"; one of "ended" has no more than these. Every
/// other read of one of "signalled" is interrupted, from the first on, and five reads of one of "five" succeed.
#[derive(Drop)]
pub(crate) struct Made;

#[derive(Drop)]
pub(crate) struct MadeFile {
    is_loose: bool,
    is_locked: bool,
    is_full: bool,
    is_held: bool,
    is_shared: bool,
    is_free: bool,
    is_signalled: bool,
    /// How long it says that it is.
    length: u64,
    /// How many bytes it has.
    end: u64,
    /// From where on no byte is read.
    torn: u64,
    /// How many reads succeed.
    most: u64,
    /// How many reads there were.
    reads: StdCell<u64>,
    /// Where 40 zeros were written last, by themselves.
    zeros: StdCell<Option<u64>>,
}

fn refused<T>(kind: ErrorKind) -> io::Result<T>
    ensures { IsErr result }
{
    Err(io::Error::from(kind))
}

/// From where on no byte is read of a file of this name.
fn torn_place(path: &str) -> u64 {
    if path.contains("torn") {
        PIECE
    } else if path.contains("worn") {
        18_500
    } else {
        u64::MAX
    }
}

impl FileExt for MadeFile {
    /// The bytes tell their offset, but for those where 40 zeros were written.
    fn read_at(&self, buf: &mut [u8], offset: u64) -> io::Result<usize> {
        self.refuse_read(offset)?;
        let room = self.torn.min(self.end).saturating_sub(offset);
        let count = (buf.len() as u64).min(PIECE).min(room) as usize;
        for (i, byte) in buf[..count].iter_mut().enumerate() {
            *byte = self.byte_at(offset.wrapping_add(i as u64));
        }
        Ok(count)
    }

    /// There is no room behind the first 2,500 bytes of the last slot, and in one of "full" behind 5,000 bytes.
    fn write_at(&self, buf: &[u8], offset: u64) -> io::Result<usize> {
        if self.is_locked {
            return refused(ErrorKind::PermissionDenied);
        }
        if offset >= LAST + 2_500 || self.is_full && offset >= 5_000 {
            return refused(ErrorKind::StorageFull);
        }
        if buf == [0; 40].as_slice() {
            self.zeros.set(Some(offset));
        }
        Ok((buf.len() as u64).min(PIECE) as usize)
    }
}

impl LockFile for MadeFile {
    fn try_lock_for(&self, access: Access) -> Result<(), TryLockError> {
        if self.is_free {
            return Err(TryLockError::Error(io::Error::from(ErrorKind::Unsupported)));
        }
        if self.is_held || self.is_shared && access == Access::Writing {
            return Err(TryLockError::WouldBlock);
        }
        Ok(())
    }
}

impl MadeFile {
    /// Counts a read at this place, which may be refused.
    fn refuse_read(&self, offset: u64) -> io::Result<()> {
        let reads = self.reads.get();
        self.reads.set(reads.saturating_add(1));
        if self.is_signalled && reads % 2 == 0 {
            return refused(ErrorKind::Interrupted);
        }
        if reads >= self.most || offset >= self.torn {
            return refused(ErrorKind::Other);
        }
        Ok(())
    }

    fn byte_at(&self, offset: u64) -> u8 {
        match self.zeros.get() {
            Some(from) if from <= offset && offset - from < 40 => 0,
            _ => (offset % 253) as u8,
        }
    }

    fn sync(&self) -> io::Result<()> {
        if self.is_loose {
            return refused(ErrorKind::Other);
        }
        Ok(())
    }
}

impl OpenFile for MadeFile {
    fn metadata(&self) -> io::Result<Metadata> {
        Ok(Metadata::of_file(self.length))
    }

    /// A new file may have 3 slots of 1,024 bytes, and no other length.
    fn set_len(&self, size: u64) -> io::Result<()> {
        if size != 19_456 {
            return refused(ErrorKind::StorageFull);
        }
        Ok(())
    }

    fn sync_all(&self) -> io::Result<()> {
        self.sync()
    }

    fn sync_data(&self) -> io::Result<()> {
        self.sync()
    }
}

impl Read for MadeFile {
    fn read(&mut self, _buf: &mut [u8]) -> io::Result<usize> {
        refused(ErrorKind::Unsupported)
    }
}

impl Write for MadeFile {
    fn write(&mut self, _buf: &[u8]) -> io::Result<usize> {
        refused(ErrorKind::Unsupported)
    }

    fn flush(&mut self) -> io::Result<()> {
        refused(ErrorKind::Unsupported)
    }
}

impl Seek for MadeFile {
    fn seek(&mut self, _to: SeekFrom) -> io::Result<u64> {
        refused(ErrorKind::Unsupported)
    }
}

impl Files for Made {
    type File = MadeFile;

    type Dir = io::Empty;

    fn open_file(&self, how: &OpenOptions, path: &str) -> io::Result<MadeFile> {
        if how.asks_create_new() && !path.contains("new") {
            return refused(ErrorKind::AlreadyExists);
        }
        if path.contains("many") {
            return Err(io::Error::from_raw_os_error(24));
        }
        let is_locked = path.contains("locked");
        if is_locked && how.asks_write() {
            return refused(ErrorKind::PermissionDenied);
        }
        Ok(MadeFile {
            is_loose: path.contains("loose"),
            is_locked,
            is_full: path.contains("full"),
            is_held: path.contains("held"),
            is_shared: path.contains("shared"),
            is_free: path.contains("free"),
            is_signalled: path.contains("signalled"),
            length: if path.contains("eight") {
                EIGHT
            } else {
                LENGTH
            },
            end: if path.contains("ended") {
                18_500
            } else {
                LENGTH
            },
            torn: torn_place(path),
            most: if path.contains("five") { 5 } else { u64::MAX },
            reads: StdCell::new(0),
            zeros: StdCell::new(None),
        })
    }

    fn metadata(&self, _path: &str) -> io::Result<Metadata> {
        Ok(Metadata::of_file(LENGTH))
    }

    fn symlink_metadata(&self, _path: &str) -> io::Result<Metadata> {
        Ok(Metadata::of_file(LENGTH))
    }

    fn open_dir(&self, _path: &str) -> io::Result<io::Empty> {
        refused(ErrorKind::Unsupported)
    }

    fn copy(&self, _from: &str, _to: &str) -> io::Result<u64> {
        refused(ErrorKind::Unsupported)
    }

    fn rename(&self, _from: &str, _to: &str) -> io::Result<()> {
        refused(ErrorKind::Unsupported)
    }

    fn remove_file(&self, _path: &str) -> io::Result<()> {
        refused(ErrorKind::Unsupported)
    }

    fn create_dir(&self, _path: &str) -> io::Result<()> {
        refused(ErrorKind::Unsupported)
    }

    fn remove_dir(&self, _path: &str) -> io::Result<()> {
        refused(ErrorKind::Unsupported)
    }

    fn remove_dir_all<B: Allocator>(&self, _alloc: B, _path: &str) -> io::Result<()> {
        refused(ErrorKind::Unsupported)
    }
}

/// Whether these are the bytes that stand at this place of each file.
pub(crate) fn is_at(bytes: &[u8], offset: u64) -> bool {
    let mut at = offset;
    for byte in bytes {
        if u64::from(*byte) != at % 253 {
            return false;
        }
        at = at.wrapping_add(1);
    }
    true
}
