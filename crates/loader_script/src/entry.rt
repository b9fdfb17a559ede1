use vt_outside::Name;

/// One command of a loader script. Offsets count from the start of a file, in bytes.
#[derive(Clone, Copy, Debug)]
pub enum Entry {
    /// Takes a place for a file and copies the file there.
    Allocate {
        /// The file.
        file: Name,
        /// The place is a multiple of this power of two.
        align: u32,
        /// The zone of memory: 1 for high memory, 2 for the F segment.
        zone: u8,
    },
    /// Adds the place of `src` to a little-endian number in `dest`.
    AddPointer {
        /// The file that holds the number.
        dest: Name,
        /// The file that the number points to.
        src: Name,
        /// Where the number stands in `dest`.
        offset: u32,
        /// How many bytes the number has: 1, 2, 4 or 8.
        size: u8,
    },
    /// Subtracts the 8-bit sum of a range from a byte, so that the range sums to zero if it holds that byte.
    AddChecksum {
        /// The file that holds the range and the byte.
        file: Name,
        /// Where the byte stands.
        offset: u32,
        /// Where the range begins.
        start: u32,
        /// How many bytes the range has.
        length: u32,
    },
    /// Writes the place of `src` plus an offset into the file `dest` of fw_cfg, as a little-endian number.
    WritePointer {
        /// The file of fw_cfg that is written.
        dest: Name,
        /// The file whose place is written.
        src: Name,
        /// Where the number stands in `dest`.
        dst_offset: u32,
        /// What is added to the place of `src`.
        src_offset: u32,
        /// How many bytes the number has: 1, 2, 4 or 8.
        size: u8,
    },
    /// A command with this number, in which the field of a name holds no file name.
    Misnamed(u32),
    /// A command with this number, which changes nothing. QEMU pads its scripts with zeros.
    Skipped(u32),
}
