ghost use Rattle.std.specs.Prelude.{◌≡◌, refl};
ghost use Rattle.smbios_model.specs.BootInformation.{boot_fields, boot_in, boot_info};

use vt_layout::{Laid, RowList, Values};

/// System Boot Information (DSP0134 7.33).
#[derive(Clone, Copy, Debug, PartialEq, Eq)]
pub struct BootInfo {
    /// The status of the boot (7.33.1). Offset 0x0A, byte.
    pub status: u8,
}

impl Laid for BootInfo {
    const ROWS: u8 = 2;

    ghost ROWS = { 2 };

    ghost fields = { boot_fields };

    ghost made = { boot_in };

    ghost lawful = { λ t u. record { back = refl; shaped = refl; counted = refl; readable = refl } };

    fn put<'a>(&'a self, rows: &mut RowList<'a>) {
        rows.reserved(6);
        rows.byte(self.status);
    }

    fn take(values: &mut Values) -> BootInfo {
        values.pass();
        BootInfo {
            status: values.take_byte(),
        }
    }
}

/// Returns the Boot Information of a machine, which tells of no error.
pub fn boot_info() -> BootInfo
    ensures { result ≡ boot_info }
{
    BootInfo { status: 0 }
}
