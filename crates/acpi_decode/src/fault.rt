ghost use Rattle.std.specs.Prelude.{◌≡◌};
ghost use Rattle.acpi_decode.specs.declared.fault.AcpiFault.TheVariants.{OutOfMemory as NoMemory};

use vt_outside::OutOfMemory;

/// Why ACPI tables aren't read from a memory. Each address is that of the table at fault; that of `BadEntry` is the entry's, and that of
/// `OutsideRam` may be that of the id of the machine's generation.
#[derive(Clone, Copy, Debug, PartialEq, Eq)]
pub enum AcpiFault {
    /// The table's header isn't all RAM, or the whole table isn't; of a FACS, its 64 bytes. Or the id of the machine's generation at this
    /// address, to which a DSDT leads, isn't: its 16 bytes.
    OutsideRam(u64),
    /// The bytes of the table don't sum to zero.
    BadSum(u64),
    /// The table tells fewer bytes than its form needs. Of an XSDT or an RSDT also: its entries aren't whole, or are more than 256. Of a SLIT: it
    /// tells more than 1,024 nodes. Of an MCFG: its allocations aren't whole. Of a FACS: it tells more or fewer than 64 bytes.
    BadLength(u64),
    /// The entry at this address is shorter than those of its type, or runs past the end of its table.
    BadEntry(u64),
    /// An XSDT, an RSDT, a FACS or a DSDT is due, and another signature stands there.
    WrongSignature(u64),
    /// A table of the same kind was found before this one.
    TwiceGiven(u64),
    /// Memory ran out.
    OutOfMemory,
}

impl From<OutOfMemory> for AcpiFault {
    ghost from_gives = { λ _ fault. fault ≡ NoMemory };

    fn from(_fault: OutOfMemory) -> AcpiFault {
        AcpiFault::OutOfMemory
    }
}
