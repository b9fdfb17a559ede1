//! What a reader of a container holds, and how far it is.

use crate::container::ImageFault;
use crate::head::Head;
use crate::item::Item;
use crate::listed::Listed;
use vt_outside::List;

/// The bytes that were fed, each once, and what the entries say.
#[derive(Drop)]
pub(crate) struct Held {
    /// The number of files, the entries and the flags, as they came.
    pub(crate) head: Head,
    /// What the entries say, once they are there.
    pub(crate) listed: List<Listed>,
    /// The files with their bytes so far, once the flags are there.
    pub(crate) items: List<Item>,
    /// The index of the first file that may lack bytes.
    pub(crate) next: usize,
}

/// How far a reader is: what it takes next, where the entries are of so many files.
#[derive(Clone, Copy, Debug)]
pub(crate) enum Stage {
    /// The number of files.
    Count,
    /// The entries.
    Entries(u32),
    /// The flags.
    Flags(u32),
    /// The files' bytes.
    Contents,
    /// Nothing: it refused the bytes.
    Refused(ImageFault),
}
