ghost use Rattle.std.specs.Prelude.{◌≡◌};
ghost use Rattle.std.specs.List.{AllByRecursion};
ghost use Rattle.vt_layout.specs.Rows.{IsRow};
ghost use Rattle.smbios_model.specs.Anchor.{anchor_rows, anchor_of};

use vt_layout::{Row, ShortBytes};

/// The form of an anchor of SMBIOS structures (DSP0134 5.2).
#[derive(Clone, Copy, Debug, PartialEq, Eq)]
pub enum AnchorForm {
    /// The anchor of 24 bytes or more with the mark `_SM3_`, the 64-bit entry point (5.2.2).
    Smbios3,
    /// The old one of 31 bytes with the marks `_SM_` and `_DMI_`, the 32-bit entry point (5.2.1).
    Smbios2,
}

/// What the anchor of SMBIOS structures tells, without their address (DSP0134 5.2.1 and 5.2.2). The offsets are those of the 64-bit
/// entry point. The old anchor tells no revision of the document, and 0 stands for it.
#[derive(Clone, Copy, Debug, PartialEq, Eq)]
pub struct Anchor {
    /// How many bytes the anchor has. Offset 0x06, byte.
    pub length: u8,
    /// The major version of the standard. Offset 0x07, byte.
    pub major: u8,
    /// The minor version. Offset 0x08, byte.
    pub minor: u8,
    /// The revision of the document. Offset 0x09, byte.
    pub docrev: u8,
    /// The most bytes that the structures have. Offset 0x0C, dword.
    pub maximum_size: u32,
}

/// Returns the rows of `anchor` (DSP0134 5.2.2). `structures` is the row of the structures' address, with 8 bytes and a value
/// that fits them; it stands last.
pub fn anchor_rows(anchor: &Anchor, structures: Row) -> [Row; 10]
    requires { IsRow structures }
    ensures rows { result ≡ anchor_rows anchor.now structures }
    ensures fit { AllByRecursion IsRow result }
{
    [
        Row::Bytes(5, ShortBytes::of(b"_SM3_")),
        Row::Sum(u32::from(anchor.length)),
        Row::Number(1, u64::from(anchor.length)),
        Row::Number(1, u64::from(anchor.major)),
        Row::Number(1, u64::from(anchor.minor)),
        Row::Number(1, u64::from(anchor.docrev)),
        Row::Ignored(1, 1),
        Row::Reserved(1),
        Row::Number(4, u64::from(anchor.maximum_size)),
        structures,
    ]
}

/// Returns the anchor of structures that have `size` bytes: version 3.0.0, 24 bytes long.
pub fn anchor_of(size: u32) -> Anchor
    ensures { result ≡ anchor_of size }
{
    Anchor {
        length: 0x18,
        major: 3,
        minor: 0,
        docrev: 0,
        maximum_size: size,
    }
}
