ghost use Rattle.std.specs.Prelude.{◌≡◌};
ghost use Rattle.smbios_decode.specs.declared.fault.SmbiosFault.TheVariants.{OutOfMemory as NoMemory};

use vt_outside::OutOfMemory;

/// Why bytes aren't read as structures. A place is where the structure at fault begins, in bytes from the beginning of the table.
#[derive(Clone, Copy, Debug, PartialEq, Eq)]
pub enum SmbiosFault {
    /// The bytes end within the structure at this place: within its header, its area or its strings.
    Truncated(u32),
    /// The structure at this place tells a length below 4, that of its header.
    ShortStructure(u32),
    /// The bytes end behind a whole structure, or there are none, before the end of the table.
    NoEnd,
    /// A structure of a known type names a string that it doesn't have.
    NoSuchString {
        /// Where the structure begins.
        place: u32,
        /// The number of the string. Of OEM Strings it is the first that is missing: the number of strings and one.
        number: u8,
    },
    /// Memory ran out.
    OutOfMemory,
}

impl From<OutOfMemory> for SmbiosFault {
    ghost from_gives = { λ _ fault. fault ≡ NoMemory };

    fn from(_fault: OutOfMemory) -> SmbiosFault {
        SmbiosFault::OutOfMemory
    }
}
