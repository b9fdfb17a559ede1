ghost use Rattle.std.specs.Prelude.{◌≡◌, ◌<◌, ◌^◌};
ghost use Rattle.vt_layout.specs.Rows.{width_of, size};
ghost use Rattle.blob_holes.specs.Parts.{part_row, part_rows};

use vt_outside::Name;

/// A part of a layout, behind its rows.
#[derive(Clone, Copy, Debug)]
pub enum Part<'a> {
    /// These bytes, however many they are.
    Bytes(&'a [u8]),
    /// A dword with a pointer's hole, low byte first.
    Pointer {
        /// The file whose address is added when that is placed.
        target: Name,
        /// What stands in the dword until then: how many bytes from the file's start the pointer leads to.
        offset: u32,
    },
}

impl Part<'_> {
    /// Returns the width of the part in bytes, which must be below 2^32.
    pub fn width(&self) -> u32
        requires { width_of (part_row self.now) < 2 ^ 32 }
        ensures { result ≡ width_of (part_row self.now) }
    {
        match self {
            Part::Bytes(bytes) => bytes.len() as u32,
            Part::Pointer { .. } => 4,
        }
    }
}

/// Returns the sum of the widths of `parts` in bytes, which must be below 2^32.
pub fn size_of_parts(parts: &[Part]) -> u32
    requires { size (part_rows parts.now) < 2 ^ 32 }
    ensures { result ≡ size (part_rows parts.now) }
{
    let mut total = 0;
    for part in parts {
        total += part.width();
    }
    total
}
