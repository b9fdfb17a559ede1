use crate::acpi_parts::{Apic, Cpu, IoApic, Nmi, Numa, Override, Power};
use crate::device_parts::{Bridge, Uart};
use crate::smbios_parts::{Chassis, Dimm, Firmware, MemRange, Slot, Socket};
use vt_outside::{List, Text};

/// A machine as its maker describes it. It is accepted where `Machine::check` finds no broken rule. Each text of an accepted
/// machine has at most 64 bytes, each 0x20 to 0x7E.
#[derive(Debug, Drop)]
pub struct Machine {
    /// Where memory below 4 GiB ends, in MiB: 64 to 3072 in an accepted machine. Memory above is told by `ranges`.
    pub top_mib: u32,
    /// Texts of its maker (OEM Strings, DSP0134 7.12), at most 32 in an accepted machine.
    pub oem_strings: List<Text>,
    /// The id of its generation as one number, with the first byte of its text highest: in an accepted machine neither all zeros nor all
    /// ones. A guest that finds another id than before knows that the machine was copied, or went back in time. An accepted machine with an
    /// id has power management.
    pub generation: Option<u128>,
    /// The machine as a product.
    pub system: System,
    /// Its firmware, where it is described.
    pub firmware: Option<Firmware>,
    /// What it is housed in, where that is described.
    pub chassis: Option<Chassis>,
    /// Its sockets with their processors, at most 256 in an accepted machine.
    pub sockets: List<Socket>,
    /// Its memory modules, at most 256 in an accepted machine.
    pub dimms: List<Dimm>,
    /// The ranges of guest addresses in which memory stands, in ascending order and at most 64 in an accepted machine.
    pub ranges: List<MemRange>,
    /// Its slots for cards, at most 64 in an accepted machine.
    pub slots: List<Slot>,
    /// Its ACPI tables; none where they aren't wanted.
    pub acpi: Option<Acpi>,
    /// Its fixed hardware of power management, where it is described. An accepted machine with it has ACPI tables.
    pub power: Option<Power>,
    /// Its HPET, where it has one. An accepted machine with an HPET has ACPI tables.
    pub hpet: Option<Hpet>,
    /// Its interrupt controllers, where they are described. An accepted machine with them has ACPI tables.
    pub apic: Option<Apic>,
    /// Its processors, at most 4,096 in an accepted machine. An accepted machine with a processor here, or an element of one of the
    /// three lists that follow, has `apic`.
    pub cpus: List<Cpu>,
    /// Its I/O APICs, at most 16 in an accepted machine.
    pub io_apics: List<IoApic>,
    /// The overrides of its ISA interrupts, at most 16 in an accepted machine.
    pub overrides: List<Override>,
    /// Its non-maskable interrupts, at most 16 in an accepted machine.
    pub nmis: List<Nmi>,
    /// Its NUMA nodes, where they are described. An accepted machine with them has ACPI tables.
    pub numa: Option<Numa>,
    /// Its bridge to PCI, where it has one. An accepted machine with a bridge has power management.
    pub bridge: Option<Bridge>,
    /// Its serial ports, at most 4 in an accepted machine. An accepted machine with one has power management.
    pub uarts: List<Uart>,
}

/// What identifies the machine as a product (System Information, DSP0134 7.2). An empty text stands for none.
#[derive(Debug, Drop)]
pub struct System {
    /// Who made it.
    pub manufacturer: Text,
    /// What it is called.
    pub product: Text,
    /// Its version.
    pub version: Text,
    /// Its serial number.
    pub serial: Text,
    /// The stock keeping unit, which tells its configurations apart.
    pub sku: Text,
    /// The family of similar machines.
    pub family: Text,
    /// Its UUID as one number, with the first byte of its text highest: in an accepted machine neither all zeros nor all ones.
    pub uuid: Option<u128>,
}

/// What the headers of ACPI tables tell of their maker (ACPI 6.5, 5.2.6). The texts are padded with spaces there.
#[derive(Debug, Drop)]
pub struct Acpi {
    /// The maker: in an accepted machine at most 6 bytes, of which the last is no space.
    pub oem_id: Text,
    /// The maker's name for the tables: in an accepted machine at most 8 bytes, of which the last is no space.
    pub oem_table_id: Text,
}

/// A high precision event timer (IA-PC HPET 1.0a, 3.2.4).
#[derive(Clone, Copy, Debug, PartialEq, Eq)]
pub struct Hpet {
    /// The guest address of its registers: a multiple of 1024 in an accepted machine.
    pub address: u32,
    /// The identifier of its event timer block.
    pub block_id: u32,
    /// Its number among the HPETs.
    pub number: u8,
    /// The least number of clock ticks between interrupts in periodic mode.
    pub min_tick: u16,
}

/// The first rule that a machine breaks, as `Machine::check` finds it.
#[derive(Clone, Copy, Debug, PartialEq, Eq)]
pub struct Broken {
    /// The rule's number: 1 to 28.
    pub rule: u16,
    /// The least index at which it is broken. `Machine::check` says what the index means for each rule.
    pub index: u32,
}
