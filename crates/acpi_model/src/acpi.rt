ghost use Rattle.std.specs.Prelude.{◌≡◌, ◌++◌, option_map, option_to_list, IfOk, OnOk};
ghost use Rattle.machine_desc.specs.Rules.{IsAccepted};
ghost use Rattle.acpi_records.specs.Header.{FitsHead};
ghost use Rattle.acpi_records.specs.Facs.{initial_facs};
ghost use Rattle.acpi_model.specs.MachineFadt.{fadt_of, fadt_links};
ghost use Rattle.acpi_model.specs.MachineMadt.{madt_of_machine};
ghost use Rattle.acpi_records.specs.Hpet.{hpet_of};
ghost use Rattle.acpi_model.specs.MachineSrat.{srat_of_machine};
ghost use Rattle.acpi_model.specs.MachineSlit.{slit_of_machine};
ghost use Rattle.acpi_model.specs.declared.acpi.Table.TheVariants.{Fadt as FadtVariant, Madt as MadtVariant, Srat as SratVariant};
ghost use Rattle.acpi_model.specs.declared.acpi.Table.TheVariants.{Slit as SlitVariant, Mcfg as McfgVariant, Hpet as HpetVariant};
ghost use Rattle.acpi_model.specs.MachineMcfg.{mapped, mcfg_of_bridge};
ghost use Rattle.acpi_model.specs.Acpi.{facs_place, dsdt_place, dsdt_of, tables_of, acpi_of};

use crate::dsdt::Dsdt;
use crate::link::FadtLinks;
use crate::machine_fadt::{DSDT_PLACE, FACS_PLACE, fadt_links, fadt_of};
use crate::machine_madt::madt_of_machine;
use crate::machine_mcfg::mcfg_of_bridge;
use crate::machine_slit::slit_of_machine;
use crate::machine_srat::srat_of_machine;
use acpi_records::{
    Facs, Fadt, Head, HpetTable, Madt, Mcfg, Slit, Srat, head_of, hpet_of, initial_facs,
};
use dsdt_terms::kept_terms;
use machine_desc::{Acpi, Machine};
use std::alloc::Global;
use vt_outside::{List, OutOfMemory};

/// The ACPI tables of a memory, from its RSDP on.
#[derive(Debug, Drop)]
pub struct AcpiTables {
    /// The maker's id in the RSDP (ACPI 6.5, 5.2.5).
    pub oem_id: [u8; 6],
    /// The header of the XSDT (5.2.8).
    pub xsdt: Head,
    /// The FADT, where the XSDT names one.
    pub fadt: Option<Fadt>,
    /// The FACS, where the FADT leads to one.
    pub facs: Option<Facs>,
    /// The DSDT, where the FADT leads to one. Its terms tell 0 in place of the address of the id of the machine's generation.
    pub dsdt: Option<Dsdt>,
    /// The MADT, where the XSDT names one.
    pub madt: Option<Madt>,
    /// The SRAT, where the XSDT names one.
    pub srat: Option<Srat>,
    /// The SLIT, where the XSDT names one.
    pub slit: Option<Slit>,
    /// The MCFG, where the XSDT names one.
    pub mcfg: Option<Mcfg>,
    /// The HPET table, where the XSDT names one.
    pub hpet: Option<HpetTable>,
    /// The tables of other signatures, in the order of the XSDT's entries.
    pub others: List<OtherTable>,
}

/// A table of another signature.
#[derive(Clone, Copy, Debug, PartialEq, Eq)]
pub struct OtherTable {
    /// Its signature.
    pub signature: [u8; 4],
    /// How many bytes it has, with its header.
    pub length: u32,
}

/// What the pointers of an FADT lead to.
#[derive(Debug, Drop)]
pub struct FadtTargets {
    /// The FACS, where they lead to one.
    pub facs: Option<Facs>,
    /// The DSDT, where they lead to one. Its terms tell 0 in place of the address of the id.
    pub dsdt: Option<Dsdt>,
    /// The id of the machine's generation, where the DSDT leads to one.
    pub generation: Option<[u8; 16]>,
}

/// A table of a known signature, which an XSDT names.
#[derive(Debug, Drop)]
pub enum Table {
    /// The FADT, and its pointers.
    Fadt(Fadt, FadtLinks),
    /// The MADT.
    Madt(Madt),
    /// The SRAT.
    Srat(Srat),
    /// The SLIT.
    Slit(Slit),
    /// The MCFG.
    Mcfg(Mcfg),
    /// The HPET table.
    Hpet(HpetTable),
}

/// Returns the tables that the XSDT of `machine` names, in the order of its entries. `machine` is accepted, and `acpi` is the maker of
/// the tables; its `oem_id` has at most 6 bytes and its `oem_table_id` at most 8. The list takes its memory from `alloc`. Returns
/// `OutOfMemory` when memory runs out.
pub fn tables_of(alloc: Global, machine: &Machine, acpi: &Acpi) -> Result<List<Table>, OutOfMemory>
    requires accepted { IsAccepted machine.now }
    requires fits { FitsHead acpi.now }
    ensures { IfOk result (λ tables. tables ≡ tables_of machine.now acpi.now) }
{
    let mut tables = List::new(alloc);
    push_fadt(&mut tables, fadt_part(machine, acpi))?;
    push_madt(&mut tables, madt_part(alloc, machine, acpi)?)?;
    push_srat(&mut tables, srat_part(alloc, machine, acpi)?)?;
    push_slit(&mut tables, slit_part(alloc, machine, acpi)?)?;
    push_mcfg(&mut tables, mcfg_part(alloc, machine, acpi)?)?;
    push_hpet(&mut tables, hpet_part(machine, acpi))?;
    Ok(tables)
}

// Adds the FADT at the end of tables, where there is one. Its pointers are those of a machine.
fn push_fadt(tables: &mut List<Table>, fadt: Option<Fadt>) -> Result<(), OutOfMemory>
    ensures { OnOk result (tables.new ≡ tables.old ++ option_to_list (option_map (λ t. FadtVariant t (fadt_links facs_place dsdt_place)) fadt)) }
{
    match fadt {
        Some(fadt) => tables.push(Table::Fadt(fadt, fadt_links(FACS_PLACE, DSDT_PLACE))),
        None => Ok(()),
    }
}

// Adds the MADT, where there is one.
fn push_madt(tables: &mut List<Table>, madt: Option<Madt>) -> Result<(), OutOfMemory>
    ensures { OnOk result (tables.new ≡ tables.old ++ option_to_list (option_map MadtVariant madt)) }
{
    match madt {
        Some(madt) => tables.push(Table::Madt(madt)),
        None => Ok(()),
    }
}

// Adds the SRAT, where there is one.
fn push_srat(tables: &mut List<Table>, srat: Option<Srat>) -> Result<(), OutOfMemory>
    ensures { OnOk result (tables.new ≡ tables.old ++ option_to_list (option_map SratVariant srat)) }
{
    match srat {
        Some(srat) => tables.push(Table::Srat(srat)),
        None => Ok(()),
    }
}

// Adds the SLIT, where there is one.
fn push_slit(tables: &mut List<Table>, slit: Option<Slit>) -> Result<(), OutOfMemory>
    ensures { OnOk result (tables.new ≡ tables.old ++ option_to_list (option_map SlitVariant slit)) }
{
    match slit {
        Some(slit) => tables.push(Table::Slit(slit)),
        None => Ok(()),
    }
}

// Adds the MCFG, where there is one.
fn push_mcfg(tables: &mut List<Table>, mcfg: Option<Mcfg>) -> Result<(), OutOfMemory>
    ensures { OnOk result (tables.new ≡ tables.old ++ option_to_list (option_map McfgVariant mcfg)) }
{
    match mcfg {
        Some(mcfg) => tables.push(Table::Mcfg(mcfg)),
        None => Ok(()),
    }
}

// Adds the HPET table, where there is one.
fn push_hpet(tables: &mut List<Table>, hpet: Option<HpetTable>) -> Result<(), OutOfMemory>
    ensures { OnOk result (tables.new ≡ tables.old ++ option_to_list (option_map HpetVariant hpet)) }
{
    match hpet {
        Some(hpet) => tables.push(Table::Hpet(hpet)),
        None => Ok(()),
    }
}

// The FADT of a machine, where it has one.
fn fadt_part(machine: &Machine, acpi: &Acpi) -> Option<Fadt>
    requires accepted { IsAccepted machine.now }
    requires fits { FitsHead acpi.now }
    ensures { result ≡ option_map (fadt_of acpi.now) machine.now.power }
{
    match &machine.power {
        Some(power) => Some(fadt_of(acpi, power)),
        None => None,
    }
}

// Its FACS.
fn facs_part(machine: &Machine) -> Option<Facs>
    ensures { result ≡ option_map (λ power. initial_facs) machine.now.power }
{
    match machine.power {
        Some(_) => Some(initial_facs()),
        None => None,
    }
}

// Its MADT.
fn madt_part(alloc: Global, machine: &Machine, acpi: &Acpi) -> Result<Option<Madt>, OutOfMemory>
    requires accepted { IsAccepted machine.now }
    requires fits { FitsHead acpi.now }
    ensures { IfOk result (λ madt. madt ≡ option_map (madt_of_machine machine.now acpi.now) machine.now.apic) }
{
    match machine.apic {
        Some(apic) => Ok(Some(madt_of_machine(alloc, machine, acpi, apic)?)),
        None => Ok(None),
    }
}

// Its SRAT.
fn srat_part(alloc: Global, machine: &Machine, acpi: &Acpi) -> Result<Option<Srat>, OutOfMemory>
    requires { FitsHead acpi.now }
    ensures { IfOk result (λ part. part ≡ option_map (λ numa. srat_of_machine machine.now acpi.now) machine.now.numa) }
{
    match &machine.numa {
        Some(_) => Ok(Some(srat_of_machine(alloc, machine, acpi)?)),
        None => Ok(None),
    }
}

// Its SLIT.
fn slit_part(alloc: Global, machine: &Machine, acpi: &Acpi) -> Result<Option<Slit>, OutOfMemory>
    requires { FitsHead acpi.now }
    ensures { IfOk result (λ part. part ≡ option_map (slit_of_machine acpi.now) machine.now.numa) }
{
    match &machine.numa {
        Some(numa) => Ok(Some(slit_of_machine(alloc, acpi, numa)?)),
        None => Ok(None),
    }
}

// Its MCFG.
fn mcfg_part(alloc: Global, machine: &Machine, acpi: &Acpi) -> Result<Option<Mcfg>, OutOfMemory>
    requires { FitsHead acpi.now }
    ensures { IfOk result (λ part. part ≡ option_map (mcfg_of_bridge acpi.now) (mapped machine.now.bridge)) }
{
    match &machine.bridge {
        Some(bridge) if bridge.ecam != 0 => Ok(Some(mcfg_of_bridge(alloc, acpi, bridge)?)),
        _ => Ok(None),
    }
}

// Its DSDT.
fn dsdt_part(alloc: Global, machine: &Machine, acpi: &Acpi) -> Result<Option<Dsdt>, OutOfMemory>
    requires accepted { IsAccepted machine.now }
    requires fits { FitsHead acpi.now }
    ensures { IfOk result (λ part. part ≡ option_map (λ power. dsdt_of machine.now acpi.now) machine.now.power) }
{
    match machine.power {
        Some(_) => Ok(Some(Dsdt::Terms {
            head: head_of(acpi, 2),
            terms: kept_terms(alloc, machine)?,
        })),
        None => Ok(None),
    }
}

// Its HPET table.
fn hpet_part(machine: &Machine, acpi: &Acpi) -> Option<HpetTable>
    requires { FitsHead acpi.now }
    ensures { result ≡ option_map (hpet_of acpi.now) machine.now.hpet }
{
    match machine.hpet {
        Some(hpet) => Some(hpet_of(acpi, hpet)),
        None => None,
    }
}

/// Returns the ACPI tables of `machine` as a reader finds them in memory. `machine` is accepted and has ACPI tables, and `acpi` is
/// their maker; its `oem_id` has at most 6 bytes and its `oem_table_id` at most 8. There are no tables of other signatures; their
/// empty list keeps `alloc`. Returns `OutOfMemory` when memory runs out.
pub fn acpi_of(alloc: Global, machine: &Machine, acpi: &Acpi) -> Result<AcpiTables, OutOfMemory>
    requires accepted { IsAccepted machine.now }
    requires fits { FitsHead acpi.now }
    ensures { IfOk result (λ tables. tables ≡ acpi_of machine.now acpi.now) }
{
    let madt = madt_part(alloc, machine, acpi)?;
    let srat = srat_part(alloc, machine, acpi)?;
    let slit = slit_part(alloc, machine, acpi)?;
    let mcfg = mcfg_part(alloc, machine, acpi)?;
    let dsdt = dsdt_part(alloc, machine, acpi)?;
    let xsdt = head_of(acpi, 1);
    let oem_id = xsdt.oem_id;
    Ok(AcpiTables {
        oem_id,
        xsdt,
        fadt: fadt_part(machine, acpi),
        facs: facs_part(machine),
        dsdt,
        madt,
        srat,
        slit,
        mcfg,
        hpet: hpet_part(machine, acpi),
        others: List::new(alloc),
    })
}
