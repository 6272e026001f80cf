use crate::lock::Access;
use crate::opening::Locked;
use std::alloc::{AllocError, Global};

/// The files that a volume has open. Nothing is read or written by them: they are there for their locks, which go
/// when they are closed.
#[derive(Drop)]
pub(crate) struct OpenFiles<F> {
    files: Vec<NamedFile<F>>,
}

#[derive(Drop)]
struct NamedFile<F> {
    name: String,
    access: Access,
    _file: F,
}

impl<F: Drop> OpenFiles<F> {
    pub(crate) fn new(alloc: Global) -> OpenFiles<F> {
        OpenFiles {
            files: Vec::new(alloc),
        }
    }

    /// Keeps a file open, with its lock.
    pub(crate) fn keep(
        &mut self,
        alloc: Global,
        name: &str,
        locked: Locked<F>,
    ) -> Result<(), AllocError> {
        let Locked {
            file,
            access,
            bytes: _,
        } = locked;
        let name = String::from_str(alloc, name)?;
        self.files.push(NamedFile {
            name,
            access,
            _file: file,
        })?;
        Ok(())
    }

    /// Closes one file of this name, so that its lock goes.
    pub(crate) fn close(&mut self, name: &str) {
        for place in 0..self.files.len() {
            if self.files[place].name.as_str() == name {
                let _ = self.files.swap_remove(place);
                return;
            }
        }
    }

    /// How a file of this name is open. None where it is not.
    pub(crate) fn access_of(&self, name: &str) -> Option<Access> {
        for file in &self.files {
            if file.name.as_str() == name {
                return Some(file.access);
            }
        }
        None
    }
}
