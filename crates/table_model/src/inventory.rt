ghost use Rattle.std.specs.Prelude.{◌≡◌, option_map, IfOk};
ghost use Rattle.machine_desc.specs.Rules.{IsAccepted};
ghost use Rattle.acpi_model.specs.Acpi.{acpi_of, id_of};
ghost use Rattle.table_model.specs.Inventory.{inventory_of};

use acpi_model::{AcpiTables, acpi_of};
use machine_desc::{Machine, uuid_bytes};
use smbios_model::{SmbiosTable, smbios_of};
use std::alloc::Global;
use vt_bytes::BYTES_IN_MIB;
use vt_outside::OutOfMemory;

/// What a memory shows of a machine.
#[derive(Debug, Drop)]
pub struct Inventory {
    /// The address past the last byte of memory below 4 GiB.
    pub top: u32,
    /// The table of its SMBIOS anchor; none where no valid anchor stands.
    pub smbios: Option<SmbiosTable>,
    /// The tables of its RSDP; none where no valid RSDP stands.
    pub acpi: Option<AcpiTables>,
    /// The id of its generation, which its DSDT leads to, as it stands in memory: the first three fields are little-endian. None where no DSDT
    /// is found that leads to one.
    pub generation: Option<[u8; 16]>,
}

/// Returns the inventory of `machine`, which is accepted. Its lists take their memory from `alloc`, and each copy of a text from
/// that text's allocator. Returns `OutOfMemory` when memory runs out.
pub fn inventory_of(alloc: Global, machine: &Machine) -> Result<Inventory, OutOfMemory>
    requires { IsAccepted machine.now }
    ensures { IfOk result (λ inventory. inventory ≡ inventory_of machine.now) }
{
    let acpi = acpi_part(alloc, machine)?;
    let smbios = smbios_of(alloc, machine)?;
    Ok(Inventory {
        top: machine.top_mib * BYTES_IN_MIB as u32,
        smbios: Some(smbios),
        acpi,
        generation: id_of(machine),
    })
}

// The id of a machine's generation as a guest finds it, where it has one.
fn id_of(machine: &Machine) -> Option<[u8; 16]>
    ensures { result ≡ id_of machine.now }
{
    match machine.generation {
        Some(id) => Some(uuid_bytes(id)),
        None => None,
    }
}

// The ACPI tables of a machine, where it has some.
fn acpi_part(alloc: Global, machine: &Machine) -> Result<Option<AcpiTables>, OutOfMemory>
    requires { IsAccepted machine.now }
    ensures { IfOk result (λ tables. tables ≡ option_map (acpi_of machine.now) machine.now.acpi) }
{
    match &machine.acpi {
        Some(acpi) => Ok(Some(acpi_of(alloc, machine, acpi)?)),
        None => Ok(None),
    }
}
