ghost use Rattle.std.specs.Prelude.{◌≡◌, IfOk};
ghost use Rattle.machine_desc.specs.Rules.{IsAccepted};
ghost use Rattle.smbios_model.specs.Smbios.{smbios_of};
ghost use Rattle.smbios_model.specs.Structures.{number_of};

use crate::bios_information::BiosInfo;
use crate::boot_information::BootInfo;
use crate::chassis_information::ChassisInfo;
use crate::machine_structures::structures_of;
use crate::mapped_address::MappedInfo;
use crate::memory_array::ArrayInfo;
use crate::memory_device::DeviceInfo;
use crate::processor_information::ProcessorInfo;
use crate::slot_information::SlotInfo;
use crate::structure_types::{
    ARRAY_TYPE, BIOS_TYPE, BOOT_TYPE, CHASSIS_TYPE, DEVICE_TYPE, END_TYPE, MAPPED_TYPE,
    OEM_STRINGS_TYPE, PROCESSOR_TYPE, SLOT_TYPE, SYSTEM_TYPE,
};
use crate::system_information::SystemInfo;
use machine_desc::Machine;
use std::alloc::Global;
use vt_outside::{Bytes, List, OutOfMemory, Text};

/// The structures of a memory's SMBIOS table, with the version and the revision that its anchor tells (DSP0134 5.2.2).
#[derive(Debug, Drop)]
pub struct SmbiosTable {
    /// The major version.
    pub major: u8,
    /// The minor version.
    pub minor: u8,
    /// The revision of the document.
    pub docrev: u8,
    /// The structures, the last of which is the first of type 127.
    pub structures: List<Structure>,
}

/// A structure (DSP0134 6.1.2).
#[derive(Debug, Drop)]
pub struct Structure {
    /// Its handle. Offset 0x02, word.
    pub handle: u16,
    /// What it says.
    pub body: Body,
}

/// What a structure says. Each variant but the last stands for one type with an area of one length, which its rows fill.
#[derive(Debug, Drop)]
pub enum Body {
    /// BIOS Information, type 0.
    Bios(BiosInfo),
    /// System Information, type 1.
    System(SystemInfo),
    /// System Enclosure or Chassis, type 3.
    Chassis(ChassisInfo),
    /// Processor Information, type 4.
    Processor(ProcessorInfo),
    /// System Slots, type 9.
    Slot(SlotInfo),
    /// OEM Strings, type 11: texts of the machine's maker.
    OemStrings(List<Text>),
    /// Physical Memory Array, type 16.
    Array(ArrayInfo),
    /// Memory Device, type 17.
    Device(DeviceInfo),
    /// Memory Array Mapped Address, type 19.
    Mapped(MappedInfo),
    /// System Boot Information, type 32.
    Boot(BootInfo),
    /// The end of the table, type 127 without an area (7.45).
    End,
    /// A structure of another type, or of one of these with an area of another length.
    Raw {
        /// Its type.
        kind: u8,
        /// Its area behind the structure's header.
        area: Bytes,
        /// Its strings.
        strings: List<Text>,
    },
}

impl Body {
    /// Returns the type of a structure that says this (DSP0134, chapter 7).
    pub fn number(&self) -> u8
        ensures { result ≡ number_of self.now }
    {
        match self {
            Body::Bios(_) => BIOS_TYPE,
            Body::System(_) => SYSTEM_TYPE,
            Body::Chassis(_) => CHASSIS_TYPE,
            Body::Processor(_) => PROCESSOR_TYPE,
            Body::Slot(_) => SLOT_TYPE,
            Body::OemStrings(_) => OEM_STRINGS_TYPE,
            Body::Array(_) => ARRAY_TYPE,
            Body::Device(_) => DEVICE_TYPE,
            Body::Mapped(_) => MAPPED_TYPE,
            Body::Boot(_) => BOOT_TYPE,
            Body::End => END_TYPE,
            Body::Raw { kind, .. } => *kind,
        }
    }
}

/// Returns the SMBIOS table of `machine`, which is accepted: version 3.0 and the machine's structures. Its lists take their memory
/// from `alloc`, and each copy of a text from that text's allocator. Returns `OutOfMemory` when memory runs out.
pub fn smbios_of(alloc: Global, machine: &Machine) -> Result<SmbiosTable, OutOfMemory>
    requires { IsAccepted machine.now }
    ensures { IfOk result (λ table. table ≡ smbios_of machine.now) }
{
    Ok(SmbiosTable {
        major: 3,
        minor: 0,
        docrev: 0,
        structures: structures_of(alloc, machine)?,
    })
}
