// How the system is asked for a file, and what its length says.
ghost use Rattle.std.specs.Prelude.{◌≡◌, ◌+◌, ◌<◌, ◌≤◌, IfOk, OnOk, OnErr};
ghost use Rattle.db_layout.specs.Layout.{slots_of};
ghost use Rattle.db_layout.specs.declared.layout.TheConstants.{HEADER_BYTES};

use crate::lock::{Access, LockFile, lock};
use db_layout::{file_size, slots_of};
use rock_disk::OpenFault;
use std::fs::{OpenFile, OpenOptions};
use std::io;
use std::io::ErrorKind;
use std::os::unix::fs::FileExt;
use std::rt::Files;

/// An open file, what may be done with it, and its length.
#[derive(Drop)]
pub(crate) struct Locked<F> {
    pub(crate) file: F,
    pub(crate) access: Access,
    pub(crate) bytes: u64,
}

/// Opens a regular file. A folder or a device is none, and is not opened.
fn open_regular<R: Files>(rt: &R, name: &str, options: &OpenOptions) -> io::Result<R::File> {
    if !rt.metadata(name)?.is_file() {
        return Err(io::Error::from(ErrorKind::InvalidInput));
    }
    options.open(rt, name)
}

/// Opens a regular file to read it, and to write it too where that is asked for and the system allows it.
/// Answers which of both.
pub(crate) fn open_for<R: Files>(
    rt: &R,
    name: &str,
    access: Access,
) -> io::Result<(R::File, Access)> {
    if access == Access::Writing {
        match open_regular(rt, name, OpenOptions::new().read(true).write(true)) {
            Err(error) if is_read_only(&error) => {}
            opened => return Ok((opened?, Access::Writing)),
        }
    }
    let file = open_regular(rt, name, OpenOptions::new().read(true))?;
    Ok((file, Access::Reading))
}

/// Opens a regular file, and takes its lock. Its length is asked for under the lock.
pub(crate) fn open_locked<R: Files>(
    rt: &R,
    name: &str,
    access: Access,
) -> io::Result<Locked<R::File>>
where
    R::File: LockFile,
{
    let (file, access) = open_for(rt, name, access)?;
    lock(&file, access)?;
    let bytes = file.metadata()?.len();
    Ok(Locked {
        file,
        access,
        bytes,
    })
}

/// Opens a regular file to read it, with no lock, and asks for its length.
pub(crate) fn open_to_peek<R: Files>(rt: &R, name: &str) -> io::Result<(R::File, u64)> {
    let (file, _) = open_for(rt, name, Access::Reading)?;
    let bytes = file.metadata()?.len();
    Ok((file, bytes))
}

/// Fills `buf` with the first bytes of a file.
pub(crate) fn read_front(file: &impl FileExt, buf: &mut [u8]) -> io::Result<()> {
    file.read_exact_at(buf, 0)
}

/// Whether the system refuses to have something written.
fn is_read_only(error: &io::Error) -> bool {
    matches!(
        error.kind(),
        ErrorKind::PermissionDenied | ErrorKind::ReadOnlyFilesystem
    )
}

/// Takes the lock of a new file, gives it its length, and brings it to the disk. The system makes the bytes
/// zeros, and takes no room for them where the file system can leave gaps.
pub(crate) fn extend<F: OpenFile + LockFile>(file: &F, bytes: u64) -> io::Result<()> {
    lock(file, Access::Writing)?;
    file.set_len(bytes)?;
    file.sync_all()
}

/// How many whole slots a file of this length has.
pub(crate) fn count_slots(bytes: u64, slot: u32) -> Result<u32, OpenFault>
    requires { 0 < slot }
    ensures count { IfOk result (λ count. count ≡ slots_of bytes slot) }
    ensures room { OnOk result (HEADER_BYTES + slot ≤ bytes) }
    ensures small { OnErr result ((result ≡ Err (OpenFault.Small bytes)) × (bytes < HEADER_BYTES + slot)) }
{
    if bytes < file_size(1, slot) {
        return Err(OpenFault::Small { bytes });
    }
    Ok(slots_of(bytes, slot))
}
