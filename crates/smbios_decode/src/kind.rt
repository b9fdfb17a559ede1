ghost use Rattle.std.specs.Prelude.{◌≡◌, ◌+◌};
ghost use Rattle.std.specs.Option.{option_map};
ghost use Rattle.smbios_model.specs.Structures.{kind_for};
ghost use Rattle.smbios_decode.specs.Kinds.{kind_of};

use smbios_model::{
    ARRAY_TYPE, BIOS_TYPE, BOOT_TYPE, CHASSIS_TYPE, DEVICE_TYPE, END_TYPE, MAPPED_TYPE,
    OEM_STRINGS_TYPE, PROCESSOR_TYPE, SLOT_TYPE, SYSTEM_TYPE,
};

/// The structures that are read as records.
#[derive(Clone, Copy, Debug, PartialEq, Eq)]
pub(crate) enum Kind {
    Bios,
    System,
    Chassis,
    Processor,
    Slot,
    OemStrings,
    Array,
    Device,
    Mapped,
    Boot,
    End,
}

/// Returns the kind of structures of the type `number` whose area behind the header has `size` bytes, or `None` where there is no
/// record for them.
pub(crate) fn known_kind(number: u8, size: usize) -> Option<Kind>
    ensures { option_map kind_of result ≡ kind_for number size }
{
    let (kind, record_size) = match number {
        BIOS_TYPE => (Kind::Bios, 0x14),
        SYSTEM_TYPE => (Kind::System, 0x17),
        CHASSIS_TYPE => (Kind::Chassis, 0x12),
        PROCESSOR_TYPE => (Kind::Processor, 0x2C),
        SLOT_TYPE => (Kind::Slot, 0x0D),
        OEM_STRINGS_TYPE => (Kind::OemStrings, 0x01),
        ARRAY_TYPE => (Kind::Array, 0x13),
        DEVICE_TYPE => (Kind::Device, 0x24),
        MAPPED_TYPE => (Kind::Mapped, 0x1B),
        BOOT_TYPE => (Kind::Boot, 0x07),
        END_TYPE => (Kind::End, 0),
        _ => return None,
    };
    if size == record_size {
        Some(kind)
    } else {
        None
    }
}
