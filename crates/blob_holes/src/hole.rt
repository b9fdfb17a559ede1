use vt_outside::Name;

/// A field to which the address of a file is added when that file is placed. The number in it is little-endian.
#[derive(Clone, Copy, Debug)]
pub struct PointerHole {
    /// Where the field begins, in bytes from the file's start.
    pub at: u32,
    /// How many bytes it has: 1, 2, 4 or 8.
    pub size: u8,
    /// The file whose address is added.
    pub target: Name,
}

/// A byte that makes a range sum to zero.
#[derive(Clone, Copy, Debug, PartialEq, Eq)]
pub struct SumHole {
    /// Where the byte is, in bytes from the file's start.
    pub at: u32,
    /// Where the range begins, in bytes from the file's start.
    pub start: u32,
    /// How many bytes the range has.
    pub length: u32,
}
