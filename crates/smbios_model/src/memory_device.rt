ghost use Rattle.std.specs.Prelude.{◌≡◌, IfOk, refl};
ghost use Rattle.smbios_model.specs.MemoryDevice.{device_fields, device_in, device_of, size_field, extended_field};

use crate::memory_array::ARRAY_HANDLE;
use crate::texts::three_copies_of;
use machine_desc::Dimm;
use vt_layout::{Laid, RowList, Values};
use vt_outside::{OutOfMemory, Text};

// What the first field holds where the second field tells the size.
const EXTENDED_SIZE: u16 = 0x7FFF;

/// Memory Device (DSP0134 7.18). An empty text is no text.
#[derive(Debug, Drop)]
pub struct DeviceInfo {
    /// The handle of its array. Offset 0x04, word.
    pub array: u16,
    /// The handle of what tells of its errors, or 0xFFFE where there is none. Offset 0x06, word.
    pub error: u16,
    /// Its width in bits with those of error correction, or 0xFFFF where it is unknown. Offset 0x08, word.
    pub total_width: u16,
    /// Its width in bits without them, or 0xFFFF where it is unknown. Offset 0x0A, word.
    pub data_width: u16,
    /// Its size in MiB, or in KiB with bit 15 set; 0 where none is installed, 0x7FFF where the second field tells, and 0xFFFF
    /// where it is unknown. Offset 0x0C, word.
    pub size: u16,
    /// Its form (7.18.1). Offset 0x0E, byte.
    pub form: u8,
    /// The set of devices that it belongs to, or 0 for none. Offset 0x0F, byte.
    pub set: u8,
    /// What is printed at its socket. Offset 0x10, string.
    pub locator: Text,
    /// What is printed at its bank. Offset 0x11, string.
    pub bank: Text,
    /// The type of its memory (7.18.2). Offset 0x12, byte.
    pub kind: u8,
    /// More of its type, a bit each (7.18.3). Offset 0x13, word.
    pub detail: u16,
    /// The greatest speed in MT/s, or 0 where it is unknown. Offset 0x15, word.
    pub speed: u16,
    /// The manufacturer. Offset 0x17, string.
    pub manufacturer: Text,
    /// The serial number. Offset 0x18, string.
    pub serial: Text,
    /// The asset tag. Offset 0x19, string.
    pub asset: Text,
    /// The part number. Offset 0x1A, string.
    pub part: Text,
    /// Its rank, or 0 where it is unknown. Offset 0x1B, byte.
    pub attributes: u8,
    /// Its size in MiB, or 0 where the first field tells (7.18.4). Offset 0x1C, dword.
    pub extended: u32,
    /// The speed in MT/s to which it is set, or 0 where it is unknown. Offset 0x20, word.
    pub configured: u16,
    /// Its least voltage in mV, or 0 where it is unknown. Offset 0x22, word.
    pub min_voltage: u16,
    /// Its greatest voltage in mV, or 0 where it is unknown. Offset 0x24, word.
    pub max_voltage: u16,
    /// The voltage in mV to which it is set, or 0 where it is unknown. Offset 0x26, word.
    pub voltage: u16,
}

impl Laid for DeviceInfo {
    const ROWS: u8 = 22;

    ghost ROWS = { 22 };

    ghost fields = { device_fields };

    ghost made = { device_in };

    ghost lawful = { λ t u. record { back = refl; shaped = refl; counted = refl; readable = refl } };

    fn put<'a>(&'a self, rows: &mut RowList<'a>) {
        rows.word(self.array);
        rows.word(self.error);
        rows.word(self.total_width);
        rows.word(self.data_width);
        rows.word(self.size);
        rows.byte(self.form);
        rows.byte(self.set);
        rows.text(&self.locator);
        rows.text(&self.bank);
        rows.byte(self.kind);
        rows.word(self.detail);
        rows.word(self.speed);
        rows.text(&self.manufacturer);
        rows.text(&self.serial);
        rows.text(&self.asset);
        rows.text(&self.part);
        rows.byte(self.attributes);
        rows.dword(self.extended);
        rows.word(self.configured);
        rows.word(self.min_voltage);
        rows.word(self.max_voltage);
        rows.word(self.voltage);
    }

    fn take(values: &mut Values) -> DeviceInfo {
        DeviceInfo {
            array: values.take_word(),
            error: values.take_word(),
            total_width: values.take_word(),
            data_width: values.take_word(),
            size: values.take_word(),
            form: values.take_byte(),
            set: values.take_byte(),
            locator: values.take_text(),
            bank: values.take_text(),
            kind: values.take_byte(),
            detail: values.take_word(),
            speed: values.take_word(),
            manufacturer: values.take_text(),
            serial: values.take_text(),
            asset: values.take_text(),
            part: values.take_text(),
            attributes: values.take_byte(),
            extended: values.take_dword(),
            configured: values.take_word(),
            min_voltage: values.take_word(),
            max_voltage: values.take_word(),
            voltage: values.take_word(),
        }
    }
}

/// Returns the Memory Device of a machine's `dimm`, with copies of its texts: a DIMM of RAM in the array of the machine. Its speed
/// is the one to which it is set, and nothing else is known of it. Returns `OutOfMemory` when memory runs out.
pub fn device_of(dimm: &Dimm) -> Result<DeviceInfo, OutOfMemory>
    ensures { IfOk result (λ info. info ≡ device_of dimm.now) }
{
    let (locator, bank, manufacturer) = three_copies_of(
        &dimm.locator,
        &dimm.bank,
        &dimm.manufacturer,
    )?;
    let (serial, asset, part) = three_copies_of(&dimm.serial, &dimm.asset, &dimm.part)?;
    Ok(DeviceInfo {
        array: ARRAY_HANDLE,
        error: 0xFFFE,
        total_width: 0xFFFF,
        data_width: 0xFFFF,
        size: size_field(dimm.size_mib),
        form: 9,
        set: 0,
        locator,
        bank,
        kind: 7,
        detail: 2,
        speed: dimm.speed,
        manufacturer,
        serial,
        asset,
        part,
        attributes: 0,
        extended: extended_field(dimm.size_mib),
        configured: dimm.speed,
        min_voltage: 0,
        max_voltage: 0,
        voltage: 0,
    })
}

// The first field of a size in MiB.
fn size_field(mib: u32) -> u16
    ensures { result ≡ size_field mib }
{
    if mib < u32::from(EXTENDED_SIZE) {
        mib as u16
    } else {
        EXTENDED_SIZE
    }
}

// The second field.
fn extended_field(mib: u32) -> u32
    ensures { result ≡ extended_field mib }
{
    if mib < u32::from(EXTENDED_SIZE) {
        0
    } else {
        mib
    }
}
