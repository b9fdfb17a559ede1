ghost use Rattle.std.specs.Prelude.{◌≡◌};
ghost use Rattle.smbios_install.specs.declared.fault.InstallFault.TheVariants.{OutOfMemory as NoMemory};

use vt_outside::OutOfMemory;

/// Why the files of SMBIOS structures aren't installed. Of several reasons the first one in this order is told.
#[derive(Clone, Copy, Debug, PartialEq, Eq)]
pub enum InstallFault {
    /// There is no file of the anchor, `etc/smbios/smbios-anchor`.
    NoAnchor,
    /// There is no file of the structures, `etc/smbios/smbios-tables`.
    NoTables,
    /// The file of the structures has no bytes.
    EmptyTables,
    /// The file of the anchor is an anchor of neither form.
    BadAnchor,
    /// The script's length is no multiple of 128, or is above 1,048,576 bytes.
    ScriptLength,
    /// A command of the script takes a place for one of the two files; this is the index of the first, from 0.
    AlreadyPlaced { command: u32 },
    /// The script would have more than 1,048,576 bytes.
    ScriptFull,
    /// There would be more than 1,024 files.
    TooMany,
    /// The files would have more than 67,108,864 bytes in all.
    TooLarge,
    /// Memory ran out.
    OutOfMemory,
}

impl From<OutOfMemory> for InstallFault {
    ghost from_gives = { λ _ fault. fault ≡ NoMemory };

    fn from(_fault: OutOfMemory) -> InstallFault {
        InstallFault::OutOfMemory
    }
}
