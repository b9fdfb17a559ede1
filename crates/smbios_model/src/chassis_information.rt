ghost use Rattle.std.specs.Prelude.{◌≡◌, IfOk, refl};
ghost use Rattle.smbios_model.specs.ChassisInformation.{chassis_fields, chassis_in, chassis_of};

use crate::texts::{three_copies_of, two_copies_of};
use machine_desc::Chassis;
use vt_layout::{Laid, RowList, Values};
use vt_outside::{OutOfMemory, Text};

/// System Enclosure or Chassis (DSP0134 7.4). An empty text is no text.
#[derive(Debug, Drop)]
pub struct ChassisInfo {
    /// The manufacturer. Offset 0x04, string.
    pub manufacturer: Text,
    /// The type (7.4.1). Offset 0x05, byte.
    pub kind: u8,
    /// The version. Offset 0x06, string.
    pub version: Text,
    /// The serial number. Offset 0x07, string.
    pub serial: Text,
    /// The asset tag. Offset 0x08, string.
    pub asset: Text,
    /// Its state when it was last booted (7.4.2). Offset 0x09, byte.
    pub boot: u8,
    /// The state of its power supplies (7.4.2). Offset 0x0A, byte.
    pub supply: u8,
    /// Its thermal state (7.4.2). Offset 0x0B, byte.
    pub thermal: u8,
    /// Its security (7.4.3). Offset 0x0C, byte.
    pub security: u8,
    /// What its maker says of it. Offset 0x0D, dword.
    pub oem: u32,
    /// Its height in rack units, or 0 where it is unknown. Offset 0x11, byte.
    pub height: u8,
    /// How many power cords it has, or 0 where that is unknown. Offset 0x12, byte.
    pub cords: u8,
    /// How many contained elements are listed. Offset 0x13, byte.
    pub elements: u8,
    /// How many bytes each of them has. Offset 0x14, byte.
    pub element_length: u8,
    /// The stock keeping unit. Offset 0x15, string.
    pub sku: Text,
}

impl Laid for ChassisInfo {
    const ROWS: u8 = 15;

    ghost ROWS = { 15 };

    ghost fields = { chassis_fields };

    ghost made = { chassis_in };

    ghost lawful = { λ t u. record { back = refl; shaped = refl; counted = refl; readable = refl } };

    fn put<'a>(&'a self, rows: &mut RowList<'a>) {
        rows.text(&self.manufacturer);
        rows.byte(self.kind);
        rows.text(&self.version);
        rows.text(&self.serial);
        rows.text(&self.asset);
        rows.byte(self.boot);
        rows.byte(self.supply);
        rows.byte(self.thermal);
        rows.byte(self.security);
        rows.dword(self.oem);
        rows.byte(self.height);
        rows.byte(self.cords);
        rows.byte(self.elements);
        rows.byte(self.element_length);
        rows.text(&self.sku);
    }

    fn take(values: &mut Values) -> ChassisInfo {
        ChassisInfo {
            manufacturer: values.take_text(),
            kind: values.take_byte(),
            version: values.take_text(),
            serial: values.take_text(),
            asset: values.take_text(),
            boot: values.take_byte(),
            supply: values.take_byte(),
            thermal: values.take_byte(),
            security: values.take_byte(),
            oem: values.take_dword(),
            height: values.take_byte(),
            cords: values.take_byte(),
            elements: values.take_byte(),
            element_length: values.take_byte(),
            sku: values.take_text(),
        }
    }
}

/// Returns the enclosure of a machine's `chassis`, with copies of its texts. Its states are safe, its security is unknown, and it
/// lists no elements. Returns `OutOfMemory` when memory runs out.
pub fn chassis_of(chassis: &Chassis) -> Result<ChassisInfo, OutOfMemory>
    ensures { IfOk result (λ info. info ≡ chassis_of chassis.now) }
{
    let (manufacturer, version, serial) = three_copies_of(
        &chassis.manufacturer,
        &chassis.version,
        &chassis.serial,
    )?;
    let (asset, sku) = two_copies_of(&chassis.asset, &chassis.sku)?;
    Ok(ChassisInfo {
        manufacturer,
        kind: chassis.kind,
        version,
        serial,
        asset,
        boot: 3,
        supply: 3,
        thermal: 3,
        security: 2,
        oem: 0,
        height: 0,
        cords: 0,
        elements: 0,
        element_length: 0,
        sku,
    })
}
