//! The types of structures (DSP0134, chapter 7).

/// BIOS Information (7.1).
pub const BIOS_TYPE: u8 = 0;
/// System Information (7.2).
pub const SYSTEM_TYPE: u8 = 1;
/// System Enclosure or Chassis (7.4).
pub const CHASSIS_TYPE: u8 = 3;
/// Processor Information (7.5).
pub const PROCESSOR_TYPE: u8 = 4;
/// System Slots (7.10).
pub const SLOT_TYPE: u8 = 9;
/// OEM Strings (7.12).
pub const OEM_STRINGS_TYPE: u8 = 11;
/// Physical Memory Array (7.17).
pub const ARRAY_TYPE: u8 = 16;
/// Memory Device (7.18).
pub const DEVICE_TYPE: u8 = 17;
/// Memory Array Mapped Address (7.20).
pub const MAPPED_TYPE: u8 = 19;
/// System Boot Information (7.33).
pub const BOOT_TYPE: u8 = 32;
/// The end of the table (7.45).
pub const END_TYPE: u8 = 127;
