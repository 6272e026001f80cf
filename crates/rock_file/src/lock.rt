// The lock of a whole file, by which runs of the program keep out of each other's way.
use std::fs::{File, TryLockError};
use std::io;
use std::io::ErrorKind;

/// What a volume does with the files that it opens.
#[derive(Clone, Copy, Debug, PartialEq, Eq)]
pub enum Access {
    /// It reads them alone. It shares their locks with others that do so.
    Reading,
    /// It reads and writes them, and has their locks for itself.
    Writing,
}

/// An open file that has a lock of the whole.
pub trait LockFile {
    /// Takes the lock at once or not at all, so it never waits. It is held until the file is closed.
    fn try_lock_for(&self, access: Access) -> Result<(), TryLockError>;
}

impl LockFile for File {
    fn try_lock_for(&self, access: Access) -> Result<(), TryLockError> {
        match access {
            Access::Reading => self.try_lock_shared(),
            Access::Writing => self.try_lock(),
        }
    }
}

/// Takes the lock of an open file. The error is `WouldBlock` where another program holds it. Where the
/// system has no locks for the file, it goes without one.
pub(crate) fn lock(file: &impl LockFile, access: Access) -> io::Result<()> {
    match file.try_lock_for(access) {
        Err(TryLockError::WouldBlock) => Err(io::Error::from(ErrorKind::WouldBlock)),
        Ok(()) | Err(TryLockError::Error(_)) => Ok(()),
    }
}
