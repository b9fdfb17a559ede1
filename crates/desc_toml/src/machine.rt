//! A machine from the values of its description, which are taken out one after the other.

ghost use Rattle.std.specs.Prelude.{◌≡◌, IfOk};
ghost use Rattle.desc_toml.specs.Values.{front_of, arrays_of, tables_of, entries_of, acpi_parts_of, devices_of, behind_of, rest_of, joined, machine_of};

use crate::parts::{Part, list_of, part_of};
use desc_schema::Values;
use machine_desc::{
    Acpi, Apic, Bridge, Chassis, Cpu, Dimm, Firmware, Hpet, IoApic, Machine, MemRange, Nmi, Numa,
    Override, Power, Slot, Socket, System, Uart,
};
use std::alloc::Global;
use vt_outside::{List, OutOfMemory, Text};

// What a machine has before its arrays.
#[derive(Drop)]
struct Front {
    top_mib: u32,
    oem_strings: List<Text>,
    generation: Option<u128>,
    system: System,
    firmware: Option<Firmware>,
    chassis: Option<Chassis>,
}

// The arrays of a machine.
#[derive(Drop)]
struct Arrays {
    sockets: List<Socket>,
    dimms: List<Dimm>,
    ranges: List<MemRange>,
    slots: List<Slot>,
}

// The tables of a machine that are about ACPI.
#[derive(Drop)]
struct Tables {
    acpi: Option<Acpi>,
    power: Option<Power>,
    hpet: Option<Hpet>,
    apic: Option<Apic>,
}

// The arrays of a machine that are about ACPI, and the table that has one.
#[derive(Drop)]
struct Entries {
    cpus: List<Cpu>,
    io_apics: List<IoApic>,
    overrides: List<Override>,
    nmis: List<Nmi>,
    numa: Option<Numa>,
}

// What a machine has that is about ACPI, without its devices.
#[derive(Drop)]
struct AcpiParts {
    tables: Tables,
    entries: Entries,
}

// The devices of a machine.
#[derive(Drop)]
struct Devices {
    bridge: Option<Bridge>,
    uarts: List<Uart>,
}

// What a machine has behind its arrays.
#[derive(Drop)]
struct Behind {
    acpi_parts: AcpiParts,
    devices: Devices,
}

// What a machine has from its arrays on.
#[derive(Drop)]
struct Rest {
    arrays: Arrays,
    behind: Behind,
}

// The machine of these values. It is made in parts, since the proof of a function grows steeply with the values that it owns at a `?`.
#[tactic(auto, unfolding(crate::specs::Values::machine_of))]
pub(crate) fn machine_of(alloc: Global, values: &mut Values) -> Result<Machine, OutOfMemory>
    ensures { IfOk result (λ machine. machine ≡ machine_of values.old) }
{
    let front = front_of(alloc, values)?;
    match rest_of(alloc, values) {
        Ok(rest) => Ok(joined(front, rest)),
        Err(error) => {
            // Given up by a call, since each of its parts would be a step of this proof if it ended in place.
            drop(front);
            Err(error)
        }
    }
}

// The machine of these parts.
fn joined(front: Front, rest: Rest) -> Machine
    ensures { result ≡ joined front rest }
{
    let Rest { arrays, behind } = rest;
    let AcpiParts { tables, entries } = behind.acpi_parts;
    Machine {
        top_mib: front.top_mib,
        oem_strings: front.oem_strings,
        generation: front.generation,
        system: front.system,
        firmware: front.firmware,
        chassis: front.chassis,
        sockets: arrays.sockets,
        dimms: arrays.dimms,
        ranges: arrays.ranges,
        slots: arrays.slots,
        acpi: tables.acpi,
        power: tables.power,
        hpet: tables.hpet,
        apic: tables.apic,
        cpus: entries.cpus,
        io_apics: entries.io_apics,
        overrides: entries.overrides,
        nmis: entries.nmis,
        numa: entries.numa,
        bridge: behind.devices.bridge,
        uarts: behind.devices.uarts,
    }
}

// What a machine has before its arrays. No version but 1 is read, and there is one table of the system.
#[tactic(auto, unfolding(crate::specs::Values::front_of))]
fn front_of(alloc: Global, values: &mut Values) -> Result<Front, OutOfMemory>
    ensures { IfOk result (λ front. (front, values.new) ≡ front_of values.old) }
{
    let _version = values.take_first();
    let top_mib = values.take_number(u32::MAX as u64) as u32;
    let oem_strings = list_of(alloc, values)?;
    let generation = values.take_uuid();
    let _one = values.take_first();
    Ok(Front {
        top_mib,
        oem_strings,
        generation,
        system: System::take(alloc, values)?,
        firmware: part_of(alloc, values)?,
        chassis: part_of(alloc, values)?,
    })
}

// What a machine has from its arrays on.
#[tactic(auto, unfolding(crate::specs::Values::rest_of))]
fn rest_of(alloc: Global, values: &mut Values) -> Result<Rest, OutOfMemory>
    ensures { IfOk result (λ rest. (rest, values.new) ≡ rest_of values.old) }
{
    let arrays = arrays_of(alloc, values)?;
    match behind_of(alloc, values) {
        Ok(behind) => Ok(Rest { arrays, behind }),
        Err(error) => {
            drop(arrays);
            Err(error)
        }
    }
}

// What a machine has behind its arrays.
#[tactic(auto, unfolding(crate::specs::Values::behind_of))]
fn behind_of(alloc: Global, values: &mut Values) -> Result<Behind, OutOfMemory>
    ensures { IfOk result (λ behind. (behind, values.new) ≡ behind_of values.old) }
{
    let acpi_parts = acpi_parts_of(alloc, values)?;
    match devices_of(alloc, values) {
        Ok(devices) => Ok(Behind {
            acpi_parts,
            devices,
        }),
        Err(error) => {
            drop(acpi_parts);
            Err(error)
        }
    }
}

// What a machine has that is about ACPI, without its devices.
#[tactic(auto, unfolding(crate::specs::Values::acpi_parts_of))]
fn acpi_parts_of(alloc: Global, values: &mut Values) -> Result<AcpiParts, OutOfMemory>
    ensures { IfOk result (λ parts. (parts, values.new) ≡ acpi_parts_of values.old) }
{
    let tables = tables_of(alloc, values)?;
    match entries_of(alloc, values) {
        Ok(entries) => Ok(AcpiParts { tables, entries }),
        Err(error) => {
            drop(tables);
            Err(error)
        }
    }
}

// The arrays of a machine.
#[tactic(auto, unfolding(crate::specs::Values::arrays_of))]
fn arrays_of(alloc: Global, values: &mut Values) -> Result<Arrays, OutOfMemory>
    ensures { IfOk result (λ arrays. (arrays, values.new) ≡ arrays_of values.old) }
{
    Ok(Arrays {
        sockets: list_of(alloc, values)?,
        dimms: list_of(alloc, values)?,
        ranges: list_of(alloc, values)?,
        slots: list_of(alloc, values)?,
    })
}

// The tables that are about ACPI.
#[tactic(auto, unfolding(crate::specs::Values::tables_of))]
fn tables_of(alloc: Global, values: &mut Values) -> Result<Tables, OutOfMemory>
    ensures { IfOk result (λ tables. (tables, values.new) ≡ tables_of values.old) }
{
    Ok(Tables {
        acpi: part_of(alloc, values)?,
        power: part_of(alloc, values)?,
        hpet: part_of(alloc, values)?,
        apic: part_of(alloc, values)?,
    })
}

// The arrays that are about ACPI, and the table that has one.
#[tactic(auto, unfolding(crate::specs::Values::entries_of))]
fn entries_of(alloc: Global, values: &mut Values) -> Result<Entries, OutOfMemory>
    ensures { IfOk result (λ entries. (entries, values.new) ≡ entries_of values.old) }
{
    Ok(Entries {
        cpus: list_of(alloc, values)?,
        io_apics: list_of(alloc, values)?,
        overrides: list_of(alloc, values)?,
        nmis: list_of(alloc, values)?,
        numa: part_of(alloc, values)?,
    })
}

// The devices.
#[tactic(auto, unfolding(crate::specs::Values::devices_of))]
fn devices_of(alloc: Global, values: &mut Values) -> Result<Devices, OutOfMemory>
    ensures { IfOk result (λ devices. (devices, values.new) ≡ devices_of values.old) }
{
    Ok(Devices {
        bridge: part_of(alloc, values)?,
        uarts: list_of(alloc, values)?,
    })
}
