//! SMBIOS structures as records, their layouts as rows, the structures of a machine, and the table that a view of memory shows from
//! its anchor on.
//!
//! The definitions say which records bytes are read as, and which table a view shows by the form of its anchor (DSP0134, 5.2.1, 5.2.2,
//! 6.1.2 and chapter 7). The contract is that each record, what it puts into its area and its strings and what is taken of them, and the
//! structures of an accepted machine are those of the definitions; and the laws are that the area and the strings of a structure, as they
//! are written, are read as its texts, and that each part of a machine is got back from its record, a range of memory but for its node.
#![tactic(auto)]

mod anchor;
mod bios_information;
mod boot_information;
mod chassis_information;
pub mod laws;
mod machine_structures;
mod mapped_address;
mod memory_array;
mod memory_device;
mod processor_information;
mod slot_information;
mod smbios;
mod structure_types;
mod system_information;
mod texts;

pub use anchor::{Anchor, AnchorForm, anchor_of, anchor_rows};
pub use bios_information::{BiosInfo, bios_of};
pub use boot_information::{BootInfo, boot_info};
pub use chassis_information::{ChassisInfo, chassis_of};
pub use machine_structures::structures_of;
pub use mapped_address::{MappedInfo, mapped_of};
pub use memory_array::{ArrayInfo, array_of};
pub use memory_device::{DeviceInfo, device_of};
pub use processor_information::{ProcessorInfo, processor_of};
pub use slot_information::{SlotInfo, slot_of};
pub use smbios::{Body, SmbiosTable, Structure, smbios_of};
pub use structure_types::{
    ARRAY_TYPE, BIOS_TYPE, BOOT_TYPE, CHASSIS_TYPE, DEVICE_TYPE, END_TYPE, MAPPED_TYPE,
    OEM_STRINGS_TYPE, PROCESSOR_TYPE, SLOT_TYPE, SYSTEM_TYPE,
};
pub use system_information::{SystemInfo, system_of, uuid_field};
pub use texts::{copies_of, three_copies_of, two_copies_of};
