//! Bytes that are kept under names.

use crate::fault::Fault;
use std::alloc::Global;
use vt_outside::Bytes;

// The bytes under one name.
#[derive(Drop)]
struct Entry {
    name: String,
    bytes: Bytes,
}

/// Bytes that are kept under names, for the rest of a file. Of those of one name the last ones hold.
#[derive(Drop)]
pub(crate) struct Kept {
    entries: Vec<Entry>,
    // where nothing is kept
    nothing: Bytes,
}

impl Kept {
    pub(crate) fn new(alloc: Global) -> Kept {
        Kept {
            entries: Vec::new(alloc),
            nothing: Bytes::new(alloc),
        }
    }

    /// Keeps these bytes under a name.
    pub(crate) fn keep(&mut self, alloc: Global, name: &str, bytes: Bytes) -> Result<(), Fault> {
        let name = String::from_str(alloc, name)?;
        self.entries.push(Entry { name, bytes })?;
        Ok(())
    }

    /// Lends the bytes that were kept last, to be added to.
    pub(crate) fn last(&mut self) -> &mut Bytes {
        match self.entries.last_mut() {
            Some(entry) => &mut entry.bytes,
            None => &mut self.nothing,
        }
    }

    /// Makes a copy of the bytes that are kept under a name.
    pub(crate) fn copy_of(&self, name: &str) -> Result<Bytes, Fault> {
        for entry in self.entries.iter().rev() {
            if entry.name.as_str() == name {
                return Ok(entry.bytes.copy()?);
            }
        }
        Err(Fault::NothingKept)
    }
}
