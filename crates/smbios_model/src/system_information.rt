ghost use Rattle.std.specs.Prelude.{◌≡◌, IfOk, refl};
ghost use Rattle.smbios_model.specs.SystemInformation.{system_fields, system_in, system_of, uuid_field};

use crate::texts::three_copies_of;
use machine_desc::{System, uuid_bytes};
use vt_layout::{Laid, RowList, Values};
use vt_outside::{OutOfMemory, Text};

/// System Information (DSP0134 7.2). An empty text is no text.
#[derive(Debug, Drop)]
pub struct SystemInfo {
    /// The manufacturer. Offset 0x04, string.
    pub manufacturer: Text,
    /// The product's name. Offset 0x05, string.
    pub product: Text,
    /// The version. Offset 0x06, string.
    pub version: Text,
    /// The serial number. Offset 0x07, string.
    pub serial: Text,
    /// The UUID, whose first three fields are little-endian; sixteen zeros mean none (7.2.1). Offset 0x08, 16 bytes.
    pub uuid: [u8; 16],
    /// Why the machine woke up (7.2.2). Offset 0x18, byte.
    pub wake_up: u8,
    /// The stock keeping unit. Offset 0x19, string.
    pub sku: Text,
    /// The family. Offset 0x1A, string.
    pub family: Text,
}

impl Laid for SystemInfo {
    const ROWS: u8 = 8;

    ghost ROWS = { 8 };

    ghost fields = { system_fields };

    ghost made = { system_in };

    ghost lawful = { λ t u. record { back = refl; shaped = refl; counted = refl; readable = refl } };

    fn put<'a>(&'a self, rows: &mut RowList<'a>) {
        rows.text(&self.manufacturer);
        rows.text(&self.product);
        rows.text(&self.version);
        rows.text(&self.serial);
        rows.sixteen(&self.uuid);
        rows.byte(self.wake_up);
        rows.text(&self.sku);
        rows.text(&self.family);
    }

    fn take(values: &mut Values) -> SystemInfo {
        SystemInfo {
            manufacturer: values.take_text(),
            product: values.take_text(),
            version: values.take_text(),
            serial: values.take_text(),
            uuid: values.take_sixteen(),
            wake_up: values.take_byte(),
            sku: values.take_text(),
            family: values.take_text(),
        }
    }
}

/// Returns the System Information of a machine's `system`, with copies of its texts. The wake-up type is 6, the power switch
/// (DSP0134 7.2.2). Returns `OutOfMemory` when memory runs out.
pub fn system_of(system: &System) -> Result<SystemInfo, OutOfMemory>
    ensures { IfOk result (λ info. info ≡ system_of system.now) }
{
    let (manufacturer, product, version) = three_copies_of(
        &system.manufacturer,
        &system.product,
        &system.version,
    )?;
    let (serial, sku, family) = three_copies_of(&system.serial, &system.sku, &system.family)?;
    Ok(SystemInfo {
        manufacturer,
        product,
        version,
        serial,
        uuid: uuid_field(system.uuid),
        wake_up: 6,
        sku,
        family,
    })
}

/// Returns the sixteen bytes of `uuid` with the first three fields little-endian, or sixteen zeros when it is `None` (7.2.1).
pub fn uuid_field(uuid: Option<u128>) -> [u8; 16]
    ensures { result ≡ uuid_field uuid }
{
    match uuid {
        Some(uuid) => uuid_bytes(uuid),
        None => [0; 16],
    }
}
