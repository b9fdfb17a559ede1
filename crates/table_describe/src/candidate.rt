ghost use Rattle.std.specs.Prelude.{◌≡◌, None, [], option_map, option_and_then, IfOk};
ghost use Rattle.acpi_model.specs.MachineMcfg.{ecam_in};
ghost use Rattle.acpi_model.specs.declared.acpi.AcpiTables.{AcpiTables as Tables};
ghost use Rattle.acpi_told.specs.Parts.{power_told, bridge_told};
ghost use Rattle.inventory_items.specs.Items.{fadt_in, mcfg_in};
ghost use Rattle.table_describe.specs.Candidate.{structures_of, devices_told, devices, ranges_on_nodes, id_number, candidate_with, candidate};

use acpi_model::{AcpiTables, Dsdt};
use acpi_told::{
    AcpiParts, affinities_in, ecam_in, parts_in as acpi_parts_in, power_in, put_nodes,
};
use dsdt_devices::{DsdtDevices, devices_in};
use machine_desc::{Bridge, Machine, MemRange, Power};
use smbios_model::{SmbiosTable, Structure};
use smbios_told::{SmbiosParts, parts_in as smbios_parts_in};
use std::alloc::Global;
use table_model::Inventory;
use uuid::Uuid;
use vt_bytes::BYTES_IN_MIB;
use vt_outside::{List, OutOfMemory};

/// Returns the machine that `inventory` may be of: each key is read from the place where it is written, of two places the first. A part
/// without its place is absent, a number that doesn't fit its key is 0, and a truth is told by the value that is written for it. Lists and
/// texts take their memory from `alloc`, copies of texts from those texts' allocators. Returns `OutOfMemory` when memory runs out.
#[tactic(auto, unfolding(crate::specs::Candidate::candidate))]
pub fn candidate_of(alloc: Global, inventory: &Inventory) -> Result<Machine, OutOfMemory>
    ensures { IfOk result (λ machine. machine ≡ candidate inventory.now) }
{
    let acpi = acpi_parts_in(alloc, &inventory.acpi)?;
    let devices = devices_of(alloc, inventory)?;
    let mut smbios = smbios_parts_in(alloc, structures_of(&inventory.smbios))?;
    put_range_nodes(
        &mut smbios.ranges,
        acpi.controllers.cpus.len(),
        &inventory.acpi,
    );
    Ok(machine_of(inventory, smbios, acpi, devices))
}

// The parts put together.
fn machine_of(
    inventory: &Inventory,
    smbios: SmbiosParts,
    acpi: AcpiParts,
    devices: DsdtDevices,
) -> Machine
    ensures { result ≡ candidate_with inventory.now smbios acpi devices }
{
    Machine {
        top_mib: inventory.top / BYTES_IN_MIB as u32,
        oem_strings: smbios.oem_strings,
        generation: generation_of(inventory),
        system: smbios.system,
        firmware: smbios.firmware,
        chassis: smbios.chassis,
        sockets: smbios.sockets,
        dimms: smbios.dimms,
        ranges: smbios.ranges,
        slots: smbios.slots,
        acpi: acpi.acpi,
        power: power_of(inventory, devices.rtc, devices.keyboard),
        hpet: acpi.hpet,
        apic: acpi.controllers.apic,
        cpus: acpi.controllers.cpus,
        io_apics: acpi.controllers.io_apics,
        overrides: acpi.controllers.overrides,
        nmis: acpi.controllers.nmis,
        numa: acpi.numa,
        bridge: bridge_of(inventory, devices.bridge),
        uarts: devices.uarts,
    }
}

// The structures of an anchor's table, and none without one.
fn structures_of(table: &Option<SmbiosTable>) -> &[Structure]
    ensures { result.now ≡ structures_of table.now }
{
    match table {
        Some(table) => table.structures.as_slice(),
        None => &[],
    }
}

// Puts ranges on the nodes that the SRAT tells behind those of so many processors.
fn put_range_nodes(ranges: &mut List<MemRange>, cpus: usize, tables: &Option<AcpiTables>)
    ensures { ranges.new ≡ ranges_on_nodes cpus tables.now ranges.old }
{
    let entries = affinities_in(tables);
    put_nodes(ranges, &entries[cpus.min(entries.len())..]);
}

fn generation_of(inventory: &Inventory) -> Option<u128>
    ensures { result ≡ option_map id_number inventory.now.generation }
{
    match inventory.generation {
        Some(bytes) => Some(Uuid::from_bytes_le(bytes).as_u128()),
        None => None,
    }
}

fn power_of(inventory: &Inventory, rtc: bool, keyboard: bool) -> Option<Power>
    ensures { result ≡ option_map (power_told rtc keyboard) (fadt_in inventory.now) }
{
    match &inventory.acpi {
        Some(
            AcpiTables {
                fadt: Some(fadt),
                ..
            },
        ) => Some(power_in(rtc, keyboard, fadt)),
        _ => None,
    }
}

// The devices that the DSDT tells, where there is one.
fn devices_of(alloc: Global, inventory: &Inventory) -> Result<DsdtDevices, OutOfMemory>
    ensures { IfOk result (λ told. told ≡ devices inventory.now) }
{
    match &inventory.acpi {
        Some(tables) => devices_told(alloc, &tables.dsdt),
        None => Ok(no_devices(alloc, true)),
    }
}

fn devices_told(alloc: Global, dsdt: &Option<Dsdt>) -> Result<DsdtDevices, OutOfMemory>
    ensures { IfOk result (λ told. told ≡ devices_told dsdt.now) }
{
    match dsdt {
        Some(Dsdt::Terms { terms, .. }) => devices_in(alloc, terms.as_slice()),
        Some(Dsdt::Foreign { .. }) => Ok(no_devices(alloc, false)),
        None => Ok(no_devices(alloc, true)),
    }
}

// Neither bridge nor serial ports, and clock and keyboard both or none.
fn no_devices(alloc: Global, both: bool) -> DsdtDevices
    ensures { result ≡ record { bridge = None; uarts = []; rtc = both; keyboard = both } }
{
    DsdtDevices {
        bridge: None,
        uarts: List::new(alloc),
        rtc: both,
        keyboard: both,
    }
}

// A bridge with the configuration space that the MCFG tells.
fn bridge_of(inventory: &Inventory, bridge: Option<Bridge>) -> Option<Bridge>
    ensures { result ≡ option_map (bridge_told (mcfg_in inventory.now)) bridge }
{
    match bridge {
        Some(bridge) => Some(Bridge {
            ecam: ecam_of(&inventory.acpi),
            ..bridge
        }),
        None => None,
    }
}

fn ecam_of(tables: &Option<AcpiTables>) -> u64
    ensures { result ≡ ecam_in (option_and_then (λ (t : Tables). t.mcfg) tables.now) }
{
    match tables {
        Some(tables) => ecam_in(&tables.mcfg),
        None => 0,
    }
}
