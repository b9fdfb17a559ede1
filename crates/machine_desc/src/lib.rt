//! The description of a machine, and the rules that an accepted one keeps.
//!
//! The contract is exact: `Machine::check` gives the first broken rule with the least index at which it is
//! broken, and a machine is accepted exactly where there is none. The laws say that an accepted machine keeps the rule of each
//! number, what the rule on its memory means for each address, that the numbers of its ranges fit 32 bits, and that no two of
//! its processors, I/O APICs or overrides have one id; and that the numbers of every machine fit the types of their fields.
#![tactic(auto)]

mod acpi_parts;
mod device_parts;
mod devices;
mod fitting;
pub mod laws;
mod machine;
mod nodes;
mod numbers;
mod parts;
mod ranges;
mod rules;
mod smbios_parts;
mod texts;
mod uuids;

pub use acpi_parts::{Apic, Cpu, IoApic, Nmi, Numa, Override, Power};
pub use device_parts::{Bridge, Route, Uart, Window, WindowKind};
pub use machine::{Acpi, Broken, Hpet, Machine, System};
pub use smbios_parts::{Chassis, Dimm, Firmware, MemRange, Slot, Socket};
pub use uuids::uuid_bytes;
