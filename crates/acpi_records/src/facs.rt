ghost use Rattle.std.specs.Prelude.{◌≡◌, refl};
ghost use Rattle.std.specs.List.{AllByRecursion};
ghost use Rattle.vt_layout.specs.Rows.{IsRow};
ghost use Rattle.acpi_records.specs.Facs.{facs_fields, facs_made, facs_rows, initial_facs};

use vt_layout::{Laid, RowList, Values};

/// How many bytes the FACS has (ACPI 6.5, 5.2.10).
pub const FACS_SIZE: u32 = 64;

/// The Firmware ACPI Control Structure (ACPI 6.5, 5.2.10), through which firmware and operating system talk. It has no header and no
/// checksum.
///
/// Its signature and its length are among its rows, so a memory that shows these has both.
#[derive(Clone, Copy, Debug, PartialEq, Eq)]
pub struct Facs {
    /// What the firmware found of the hardware at the last boot, as one number. Offset 8, dword.
    pub hardware_signature: u32,
    /// The 32-bit address at which the firmware goes on after sleep, or 0. Offset 12, dword.
    pub waking: u32,
    /// The global lock: bit 0 tells that someone waits for it, bit 1 that it is owned (5.2.10.1). Offset 16, dword.
    pub lock: u32,
    /// What the firmware supports, a bit each. Offset 20, dword.
    pub flags: u32,
    /// The 64-bit address at which the firmware goes on after sleep, or 0. Offset 24, qword.
    pub x_waking: u64,
    /// The structure's version. Offset 32, byte.
    pub version: u8,
    /// What the operating system wants of the firmware, a bit each. Offset 36, dword.
    pub ospm_flags: u32,
}

impl Laid for Facs {
    const ROWS: u8 = 11;

    ghost ROWS = { 11 };

    ghost fields = { facs_fields };

    ghost made = { facs_made };

    ghost lawful = { λ t u. record { back = refl; shaped = refl; counted = refl; readable = refl } };

    fn put<'a>(&'a self, rows: &mut RowList<'a>) {
        rows.four(b"FACS");
        rows.dword(FACS_SIZE);
        rows.dword(self.hardware_signature);
        rows.dword(self.waking);
        rows.dword(self.lock);
        rows.dword(self.flags);
        rows.qword(self.x_waking);
        rows.byte(self.version);
        rows.reserved(3);
        rows.dword(self.ospm_flags);
        rows.reserved(24);
    }

    fn take(values: &mut Values) -> Facs {
        values.pass();
        values.pass();
        let hardware_signature = values.take_dword();
        let waking = values.take_dword();
        let lock = values.take_dword();
        let flags = values.take_dword();
        let x_waking = values.take_qword();
        let version = values.take_byte();
        values.pass();
        let ospm_flags = values.take_dword();
        values.pass();
        Facs {
            hardware_signature,
            waking,
            lock,
            flags,
            x_waking,
            version,
            ospm_flags,
        }
    }
}

/// Returns the FACS as a guest finds it before its operating system has begun: version 2, and zeros.
pub fn initial_facs() -> Facs
    ensures facs { result ≡ initial_facs }
    ensures fits { AllByRecursion IsRow (facs_rows initial_facs) }
{
    Facs {
        hardware_signature: 0,
        waking: 0,
        lock: 0,
        flags: 0,
        x_waking: 0,
        version: 2,
        ospm_flags: 0,
    }
}
