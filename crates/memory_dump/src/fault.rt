ghost use Rattle.std.specs.Prelude.{◌≡◌};
ghost use Rattle.memory_dump.specs.declared.fault.DumpFault.TheVariants.{OutOfMemory as NoMemory};

use vt_outside::OutOfMemory;

/// Why bytes are no dump. A number is that of the line at fault; the first line has the number 1.
#[derive(Clone, Copy, Debug, PartialEq, Eq)]
pub enum DumpFault {
    /// The first line isn't spelled as a dump's, or its top isn't a multiple of 1 MiB from 64 MiB to 3 GiB.
    BadHeader,
    /// A line is spelled as no row's, or its address is no multiple of 16, or it stands behind the line `end`, be it whole or not.
    BadLine(u32),
    /// The address of a line isn't greater than that of the line before.
    OutOfOrder(u32),
    /// The 16 bytes of a line are all the fill byte.
    AllFill(u32),
    /// The address of a line is no RAM.
    NotRam(u32),
    /// The bytes end before a whole line `end`, and no whole line is at fault.
    Truncated,
    /// Memory ran out. The bytes may be a dump or not.
    OutOfMemory,
}

impl From<OutOfMemory> for DumpFault {
    ghost from_gives = { λ _ fault. fault ≡ NoMemory };

    fn from(_error: OutOfMemory) -> DumpFault {
        DumpFault::OutOfMemory
    }
}
