ghost use Rattle.std.specs.Prelude.{◌≡◌};
ghost use Rattle.anchor_scan.specs.Scan.{of_acpi, of_smbios};

use acpi_decode::AcpiFault;
use smbios_decode::SmbiosFault;

/// Why the tables of a memory aren't read. Neither fault that is held is `OutOfMemory`.
#[derive(Clone, Copy, Debug, PartialEq, Eq)]
pub enum ScanFault {
    /// The first fault of the ACPI tables.
    Acpi(AcpiFault),
    /// The first fault of the SMBIOS structures, where the ACPI tables have none.
    Smbios(SmbiosFault),
    /// Memory ran out.
    OutOfMemory,
}

impl From<AcpiFault> for ScanFault {
    ghost from_gives = { λ fault given. given ≡ of_acpi fault };

    fn from(fault: AcpiFault) -> ScanFault {
        match fault {
            AcpiFault::OutOfMemory => ScanFault::OutOfMemory,
            _ => ScanFault::Acpi(fault),
        }
    }
}

impl From<SmbiosFault> for ScanFault {
    ghost from_gives = { λ fault given. given ≡ of_smbios fault };

    fn from(fault: SmbiosFault) -> ScanFault {
        match fault {
            SmbiosFault::OutOfMemory => ScanFault::OutOfMemory,
            _ => ScanFault::Smbios(fault),
        }
    }
}
