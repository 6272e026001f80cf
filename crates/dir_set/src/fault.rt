// Why no cache was opened, nothing was found in any file, or no file took an entry.
use lock_word::Cause;
use rock_open::OpenStoreFault;
use rock_writer::BeginFault;

/// A file was not opened as the store of a cache.
#[derive(Clone, Copy, Debug, PartialEq, Eq)]
pub struct DirFault {
    /// The number of the file.
    pub dir: u32,
    pub fault: OpenStoreFault,
}

/// No file has an entry of a URL that can be read.
#[derive(Clone, Copy, Debug, PartialEq, Eq)]
pub struct DirMiss {
    /// Why, of each file in order. None: there is no such file.
    pub causes: [Option<Cause>; 8],
}

/// Why no entry was begun.
#[derive(Clone, Copy, Debug, PartialEq, Eq)]
pub enum DirBeginFault {
    /// A slot has no room for the metadata of this URL.
    LongUrl,
    /// Each file refused it.
    AllRefused {
        /// Why, of each file in order. None: there is no such file.
        faults: [Option<BeginFault>; 8],
    },
}
