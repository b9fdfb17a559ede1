ghost use Rattle.std.specs.Prelude.{◌≡◌, option_map, IfOk};
ghost use Rattle.acpi_model.specs.MachineSlit.{numa_in};
ghost use Rattle.acpi_records.specs.Hpet.{hpet_in};
ghost use Rattle.acpi_told.specs.Parts.{parts_told, parts_in};

use crate::controllers::{Controllers, controllers_in};
use crate::maker::acpi_in;
use acpi_model::{AcpiTables, HpetTable, Slit};
use machine_desc::{Acpi, Hpet, Numa};
use std::alloc::Global;
use vt_outside::{List, OutOfMemory};

/// The parts of a machine of which ACPI tables tell whole.
#[derive(Debug, Drop)]
pub struct AcpiParts {
    /// Who made them.
    pub acpi: Option<Acpi>,
    /// The HPET, where there is a table of one.
    pub hpet: Option<Hpet>,
    /// The interrupt controllers and the processors.
    pub controllers: Controllers,
    /// The NUMA nodes, where there is a SLIT.
    pub numa: Option<Numa>,
}

/// Returns the parts that `tables` tell, and none where there are no tables. Lists and texts take their memory from `alloc`, distances from
/// that of the SLIT's. Returns `OutOfMemory` when memory runs out.
pub fn parts_in(alloc: Global, tables: &Option<AcpiTables>) -> Result<AcpiParts, OutOfMemory>
    ensures { IfOk result (λ parts. parts ≡ parts_in tables.now) }
{
    match tables {
        Some(tables) => parts_told(alloc, tables),
        None => Ok(AcpiParts {
            acpi: None,
            hpet: None,
            controllers: Controllers::none(alloc),
            numa: None,
        }),
    }
}

fn parts_told(alloc: Global, tables: &AcpiTables) -> Result<AcpiParts, OutOfMemory>
    ensures { IfOk result (λ parts. parts ≡ parts_told tables.now) }
{
    let controllers = controllers_in(alloc, &tables.madt, &tables.srat)?;
    let numa = numa_told(&tables.slit)?;
    let acpi = acpi_in(alloc, &tables.oem_id, &tables.xsdt)?;
    Ok(AcpiParts {
        acpi: Some(acpi),
        hpet: hpet_told(&tables.hpet),
        controllers,
        numa,
    })
}

// The nodes that a SLIT tells.
fn numa_told(slit: &Option<Slit>) -> Result<Option<Numa>, OutOfMemory>
    ensures { IfOk result (λ numa. numa ≡ option_map numa_in slit.now) }
{
    match slit {
        Some(slit) => Ok(Some(numa_in(slit)?)),
        None => Ok(None),
    }
}

fn numa_in(slit: &Slit) -> Result<Numa, OutOfMemory>
    ensures { IfOk result (λ numa. numa ≡ numa_in slit.now) }
{
    let mut distance = List::new(slit.distances.allocator());
    distance.extend(slit.distances.as_slice())?;
    Ok(Numa {
        nodes: u8::try_from(slit.count).unwrap_or(0),
        distance,
    })
}

// The HPET that its table tells.
fn hpet_told(table: &Option<HpetTable>) -> Option<Hpet>
    ensures { result ≡ option_map hpet_in table.now }
{
    match table {
        Some(table) => Some(Hpet {
            address: u32::try_from(table.address.address).unwrap_or(0),
            block_id: table.block_id,
            number: table.number,
            min_tick: table.min_tick,
        }),
        None => None,
    }
}
