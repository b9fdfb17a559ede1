ghost use Rattle.std.specs.Prelude.{◌≡◌, ◌≤◌, IfOk, refl};
ghost use Rattle.smbios_model.specs.SlotInformation.{slot_fields, slot_in, slot_of};

use machine_desc::Slot;
use vt_layout::{Laid, RowList, Values};
use vt_outside::{OutOfMemory, Text};

/// System Slots (DSP0134 7.10), one of them. An empty text is no text.
#[derive(Debug, Drop)]
pub struct SlotInfo {
    /// What is printed at the slot. Offset 0x04, string.
    pub designation: Text,
    /// Its type (7.10.1). Offset 0x05, byte.
    pub kind: u8,
    /// Its data bus width (7.10.2). Offset 0x06, byte.
    pub width: u8,
    /// Whether it is used (7.10.3): 3 is free, 4 is used. Offset 0x07, byte.
    pub usage: u8,
    /// Its length (7.10.4). Offset 0x08, byte.
    pub length: u8,
    /// Its id (7.10.5). Offset 0x09, word.
    pub id: u16,
    /// What it supports, a bit each (7.10.6). Offset 0x0B, byte.
    pub char1: u8,
    /// More of what it supports (7.10.7). Offset 0x0C, byte.
    pub char2: u8,
    /// The number of its PCI segment group. Offset 0x0D, word.
    pub segment: u16,
    /// The number of its PCI bus. Offset 0x0F, byte.
    pub bus: u8,
    /// Its device number times 8, and its function number. Offset 0x10, byte.
    pub device_function: u8,
}

impl Laid for SlotInfo {
    const ROWS: u8 = 11;

    ghost ROWS = { 11 };

    ghost fields = { slot_fields };

    ghost made = { slot_in };

    ghost lawful = { λ t u. record { back = refl; shaped = refl; counted = refl; readable = refl } };

    fn put<'a>(&'a self, rows: &mut RowList<'a>) {
        rows.text(&self.designation);
        rows.byte(self.kind);
        rows.byte(self.width);
        rows.byte(self.usage);
        rows.byte(self.length);
        rows.word(self.id);
        rows.byte(self.char1);
        rows.byte(self.char2);
        rows.word(self.segment);
        rows.byte(self.bus);
        rows.byte(self.device_function);
    }

    fn take(values: &mut Values) -> SlotInfo {
        SlotInfo {
            designation: values.take_text(),
            kind: values.take_byte(),
            width: values.take_byte(),
            usage: values.take_byte(),
            length: values.take_byte(),
            id: values.take_word(),
            char1: values.take_byte(),
            char2: values.take_byte(),
            segment: values.take_word(),
            bus: values.take_byte(),
            device_function: values.take_byte(),
        }
    }
}

/// Returns the structure of a machine's `slot`, with a copy of its text. The number of its device is at most 31, and that of its
/// function at most 7. Nothing else is known of the slot. Returns `OutOfMemory` when memory runs out.
pub fn slot_of(slot: &Slot) -> Result<SlotInfo, OutOfMemory>
    requires device { slot.now.device ≤ 31 }
    requires function { slot.now.function ≤ 7 }
    ensures { IfOk result (λ info. info ≡ slot_of slot.now) }
{
    let designation = slot.designation.copy()?;
    Ok(SlotInfo {
        designation,
        kind: slot.kind,
        width: slot.width,
        usage: if slot.used { 4 } else { 3 },
        length: 1,
        id: slot.id,
        char1: 1,
        char2: 0,
        segment: 0,
        bus: slot.bus,
        device_function: slot.device * 8 + slot.function,
    })
}
