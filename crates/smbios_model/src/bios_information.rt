ghost use Rattle.std.specs.Prelude.{◌≡◌, IfOk, refl};
ghost use Rattle.smbios_model.specs.BiosInformation.{bios_fields, bios_in, bios_of};

use crate::texts::three_copies_of;
use machine_desc::Firmware;
use vt_layout::{Laid, RowList, Values};
use vt_outside::{OutOfMemory, Text};

/// BIOS Information (DSP0134 7.1). An empty text is no text.
#[derive(Debug, Drop)]
pub struct BiosInfo {
    /// The vendor. Offset 0x04, string.
    pub vendor: Text,
    /// The version. Offset 0x05, string.
    pub version: Text,
    /// The segment of the address at which the BIOS begins. Offset 0x06, word.
    pub segment: u16,
    /// When it was released. Offset 0x08, string.
    pub date: Text,
    /// The size of its ROM: so many times 64 KiB, and 64 KiB more. Offset 0x09, byte.
    pub rom_size: u8,
    /// What it supports, a bit each (7.1.1). Offset 0x0A, qword.
    pub characteristics: u64,
    /// More of what it supports (7.1.2.1). Offset 0x12, byte.
    pub ext1: u8,
    /// More of what it supports (7.1.2.2). Offset 0x13, byte.
    pub ext2: u8,
    /// The major number of its release. Offset 0x14, byte.
    pub major: u8,
    /// The minor number of its release. Offset 0x15, byte.
    pub minor: u8,
    /// The major number of the release of the embedded controller's firmware, or 0xFF for none. Offset 0x16, byte.
    pub ec_major: u8,
    /// The minor number of that release, or 0xFF for none. Offset 0x17, byte.
    pub ec_minor: u8,
}

impl Laid for BiosInfo {
    const ROWS: u8 = 12;

    ghost ROWS = { 12 };

    ghost fields = { bios_fields };

    ghost made = { bios_in };

    ghost lawful = { λ t u. record { back = refl; shaped = refl; counted = refl; readable = refl } };

    fn put<'a>(&'a self, rows: &mut RowList<'a>) {
        rows.text(&self.vendor);
        rows.text(&self.version);
        rows.word(self.segment);
        rows.text(&self.date);
        rows.byte(self.rom_size);
        rows.qword(self.characteristics);
        rows.byte(self.ext1);
        rows.byte(self.ext2);
        rows.byte(self.major);
        rows.byte(self.minor);
        rows.byte(self.ec_major);
        rows.byte(self.ec_minor);
    }

    fn take(values: &mut Values) -> BiosInfo {
        BiosInfo {
            vendor: values.take_text(),
            version: values.take_text(),
            segment: values.take_word(),
            date: values.take_text(),
            rom_size: values.take_byte(),
            characteristics: values.take_qword(),
            ext1: values.take_byte(),
            ext2: values.take_byte(),
            major: values.take_byte(),
            minor: values.take_byte(),
            ec_major: values.take_byte(),
            ec_minor: values.take_byte(),
        }
    }
}

/// Returns the BIOS Information of a machine's `firmware`, with copies of its texts. It lies in the segment 0xE800, and tells of
/// no characteristic but that it runs in a virtual machine. Returns `OutOfMemory` when memory runs out.
pub fn bios_of(firmware: &Firmware) -> Result<BiosInfo, OutOfMemory>
    ensures { IfOk result (λ info. info ≡ bios_of firmware.now) }
{
    let (vendor, version, date) = three_copies_of(
        &firmware.vendor,
        &firmware.version,
        &firmware.date,
    )?;
    Ok(BiosInfo {
        vendor,
        version,
        segment: 0xE800,
        date,
        rom_size: 0,
        characteristics: 8,
        ext1: 0,
        ext2: 0x10,
        major: firmware.major,
        minor: firmware.minor,
        ec_major: 0xFF,
        ec_minor: 0xFF,
    })
}
