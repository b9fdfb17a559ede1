ghost use Rattle.std.specs.Prelude.{◌≡◌, IfOk};
ghost use Rattle.smbios_model.specs.SlotInformation.{slot_part_in};
ghost use Rattle.smbios_model.specs.ToldParts.{slot_told};

use crate::told::Told;
use machine_desc::Slot;
use smbios_model::{Body, SlotInfo};
use std::alloc::Global;
use vt_outside::OutOfMemory;

// What a slot's usage is where it is in use (DSP0134 7.10.3).
const IN_USE: u8 = 4;

impl Told for Slot {
    ghost told = { slot_told };

    fn from_body(_alloc: Global, body: &Body) -> Result<Option<Slot>, OutOfMemory> {
        match body {
            Body::Slot(info) => Ok(Some(slot_in(info)?)),
            _ => Ok(None),
        }
    }
}

// The slot that System Slots tells (DSP0134 7.10). It is used exactly where it says that it is in use.
fn slot_in(info: &SlotInfo) -> Result<Slot, OutOfMemory>
    ensures { IfOk result (λ slot. slot ≡ slot_part_in info.now) }
{
    Ok(Slot {
        designation: info.designation.copy()?,
        kind: info.kind,
        width: info.width,
        used: info.usage == IN_USE,
        id: info.id,
        bus: info.bus,
        device: info.device_function / 8,
        function: info.device_function % 8,
    })
}
