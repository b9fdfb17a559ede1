/// What a transfer does.
#[derive(Clone, Copy, Debug, PartialEq, Eq)]
pub enum Kind {
    /// It moves bytes of the item to memory.
    Read,
    /// It moves bytes of memory to the item.
    Write,
    /// It moves the offset alone.
    Skip,
    /// It moves nothing, and at most selects an item.
    Nothing,
}

/// A transfer, in flight or over: as its descriptor asked for it, as it began, and whether it failed.
#[derive(Clone, Copy, Debug, PartialEq, Eq)]
pub struct Finished {
    /// What it does.
    pub kind: Kind,
    /// The item that is selected.
    pub select: u16,
    /// The offset in the item at its start, in bytes.
    pub offset: u32,
    /// How many bytes the descriptor asks for.
    pub length: u32,
    /// The address of the bytes in memory.
    pub address: u64,
    /// Whether it failed.
    pub error: bool,
}

/// A transfer in flight.
#[derive(Clone, Copy)]
pub(crate) struct Flight {
    /// The address of its descriptor.
    pub(crate) descriptor: u64,
    /// The transfer.
    pub(crate) transfer: Finished,
    /// How many of its bytes were moved.
    pub(crate) moved: u32,
}
