//! What a memory is walked as, in words.

use crate::rsdp::has_rsdp;
use crate::terms::push_block_terms;
use crate::words::{
    push_entry, push_name, push_number, push_numbers, push_other_entry, push_text, told_fault,
};
use acpi_decode::{MemView, Walked, walk};
use acpi_model::{
    AcpiTables, ApicAffinity, Dsdt, Facs, Fadt, Head, HpetTable, Madt, MadtEntry, Mcfg,
    McfgAllocation, OtherTable, Slit, Srat, SratEntry,
};
use std::alloc::Global;
use std::process::Abort;
use std::test::Fail;
use vt_outside::{Bytes, OutOfMemory};

/// Asserts that words are those that are wanted.
pub fn are_words(rt: &impl Abort, told: &[u8], wanted: &[u8]) {
    if told != wanted {
        let told = str::from_utf8(told).unwrap_or("not UTF-8");
        let wanted = str::from_utf8(wanted).unwrap_or("not UTF-8");
        panic!(rt; "{told} in place of {wanted}");
    }
}

/// Asserts what the memory `view` is walked as from the RSDP at `rsdp`, in words.
pub fn is_told<V: MemView>(
    rt: &impl Abort,
    alloc: Global,
    view: &V,
    rsdp: u64,
    wanted: &str,
) -> Result<(), Fail> {
    let told = told(alloc, view, rsdp)?;
    are_words(rt, told.as_slice(), wanted.as_bytes());
    Ok(())
}

/// Tells what the memory `view` is walked as from the RSDP at `rsdp`, where a valid one must stand: a line for each table and each entry,
/// or the fault.
pub fn told<V: MemView>(alloc: Global, view: &V, rsdp: u64) -> Result<Bytes, Fail> {
    if !has_rsdp(view, rsdp) {
        return Err(Fail::from("a memory without an RSDP"));
    }
    match walk(alloc, view, rsdp) {
        Ok(walked) => told_walked(alloc, walked),
        Err(fault) => told_fault(alloc, fault),
    }
}

fn told_walked(alloc: Global, walked: Walked) -> Result<Bytes, Fail> {
    let told = told_tables(alloc, &walked);
    drop(walked);
    told
}

fn told_tables(alloc: Global, walked: &Walked) -> Result<Bytes, Fail> {
    let mut told = Bytes::new(alloc);
    push_tables(&mut told, &walked.tables)?;
    push_generation(&mut told, walked.generation)?;
    Ok(told)
}

/// Appends a line with the id of a generation, where there is one.
pub fn push_generation(told: &mut Bytes, generation: Option<[u8; 16]>) -> Result<(), OutOfMemory> {
    match generation {
        Some(id) => {
            push_name(told, b"generation")?;
            push_text(told, &id)
        }
        None => Ok(()),
    }
}

/// Appends the tables: those of which there is one, and then the others.
pub fn push_tables(told: &mut Bytes, tables: &AcpiTables) -> Result<(), OutOfMemory> {
    push_name(told, b"rsdp")?;
    push_text(told, &tables.oem_id)?;
    push_headed(told, b"xsdt", &tables.xsdt)?;
    push_power(told, tables)?;
    push_lists(told, tables)?;
    for other in tables.others.as_slice() {
        push_other(told, other)?;
    }
    Ok(())
}

fn push_power(told: &mut Bytes, tables: &AcpiTables) -> Result<(), OutOfMemory> {
    if let Some(fadt) = &tables.fadt {
        push_fadt(told, fadt)?;
    }
    if let Some(facs) = &tables.facs {
        push_facs(told, facs)?;
    }
    if let Some(dsdt) = &tables.dsdt {
        push_dsdt(told, dsdt)?;
    }
    Ok(())
}

fn push_lists(told: &mut Bytes, tables: &AcpiTables) -> Result<(), OutOfMemory> {
    if let Some(madt) = &tables.madt {
        push_madt(told, madt)?;
    }
    if let Some(srat) = &tables.srat {
        push_srat(told, srat)?;
    }
    if let Some(slit) = &tables.slit {
        push_slit(told, slit)?;
    }
    if let Some(mcfg) = &tables.mcfg {
        push_mcfg(told, mcfg)?;
    }
    if let Some(hpet) = &tables.hpet {
        push_hpet(told, hpet)?;
    }
    Ok(())
}

// Begins a line with a table's name and header.
fn push_headed(told: &mut Bytes, name: &[u8], head: &Head) -> Result<(), OutOfMemory> {
    push_name(told, name)?;
    push_number(told, u64::from(head.revision))?;
    push_text(told, &head.oem_id)?;
    push_text(told, &head.oem_table_id)?;
    push_number(told, u64::from(head.oem_revision))?;
    push_text(told, &head.creator_id)?;
    push_number(told, u64::from(head.creator_revision))
}

// Of an FADT's many numbers a few from its front to its end are told.
fn push_fadt(told: &mut Bytes, fadt: &Fadt) -> Result<(), OutOfMemory> {
    push_headed(told, b"fadt", &fadt.head)?;
    push_numbers(
        told,
        &[
            u64::from(fadt.profile),
            u64::from(fadt.sci),
            u64::from(fadt.pm_tmr),
            u64::from(fadt.flags),
            u64::from(fadt.minor),
            fadt.x_pm_tmr.address,
            fadt.hypervisor,
        ],
    )
}

fn push_facs(told: &mut Bytes, facs: &Facs) -> Result<(), OutOfMemory> {
    push_name(told, b"facs")?;
    push_numbers(
        told,
        &[
            u64::from(facs.hardware_signature),
            u64::from(facs.waking),
            u64::from(facs.lock),
            u64::from(facs.flags),
            facs.x_waking,
            u64::from(facs.version),
            u64::from(facs.ospm_flags),
        ],
    )
}

fn push_dsdt(told: &mut Bytes, dsdt: &Dsdt) -> Result<(), OutOfMemory> {
    match dsdt {
        Dsdt::Terms { head, terms } => {
            push_headed(told, b"dsdt", head)?;
            push_block_terms(told, terms.as_slice())
        }
        Dsdt::Foreign { head, length } => {
            push_headed(told, b"dsdt", head)?;
            push_number(told, u64::from(*length))
        }
    }
}

fn push_madt(told: &mut Bytes, madt: &Madt) -> Result<(), OutOfMemory> {
    push_headed(told, b"madt", &madt.head)?;
    push_numbers(told, &[u64::from(madt.address), u64::from(madt.flags)])?;
    for entry in madt.entries.as_slice() {
        push_madt_entry(told, entry)?;
    }
    Ok(())
}

fn push_madt_entry(told: &mut Bytes, entry: &MadtEntry) -> Result<(), OutOfMemory> {
    match entry {
        MadtEntry::LocalApic(e) => push_entry(
            told,
            0,
            &[u64::from(e.uid), u64::from(e.apic), u64::from(e.flags)],
        ),
        MadtEntry::IoApic(e) => push_entry(
            told,
            1,
            &[u64::from(e.id), u64::from(e.address), u64::from(e.gsi)],
        ),
        MadtEntry::Override(e) => push_entry(
            told,
            2,
            &[
                u64::from(e.bus),
                u64::from(e.irq),
                u64::from(e.gsi),
                u64::from(e.flags),
            ],
        ),
        MadtEntry::LocalNmi(e) => push_entry(
            told,
            4,
            &[u64::from(e.uid), u64::from(e.flags), u64::from(e.lint)],
        ),
        MadtEntry::X2Apic(e) => push_entry(
            told,
            9,
            &[u64::from(e.apic), u64::from(e.flags), u64::from(e.uid)],
        ),
        MadtEntry::X2ApicNmi(e) => push_entry(
            told,
            10,
            &[u64::from(e.flags), u64::from(e.uid), u64::from(e.lint)],
        ),
        MadtEntry::Other { kind, length } => push_other_entry(told, *kind, *length),
    }
}

fn push_srat(told: &mut Bytes, srat: &Srat) -> Result<(), OutOfMemory> {
    push_headed(told, b"srat", &srat.head)?;
    for entry in srat.entries.as_slice() {
        push_srat_entry(told, entry)?;
    }
    Ok(())
}

fn push_srat_entry(told: &mut Bytes, entry: &SratEntry) -> Result<(), OutOfMemory> {
    match entry {
        SratEntry::Apic(e) => push_apic_affinity(told, e),
        SratEntry::Memory(e) => push_entry(
            told,
            1,
            &[u64::from(e.node), e.base, e.length, u64::from(e.flags)],
        ),
        SratEntry::X2Apic(e) => push_entry(
            told,
            2,
            &[u64::from(e.node), u64::from(e.apic), u64::from(e.flags)],
        ),
        SratEntry::Other { kind, length } => push_other_entry(told, *kind, *length),
    }
}

// The node is told in two numbers, as it stands there: its low byte, and the others.
fn push_apic_affinity(told: &mut Bytes, entry: &ApicAffinity) -> Result<(), OutOfMemory> {
    push_entry(
        told,
        0,
        &[
            u64::from(entry.node % 0x100),
            u64::from(entry.node / 0x100),
            u64::from(entry.apic),
            u64::from(entry.flags),
        ],
    )
}

fn push_slit(told: &mut Bytes, slit: &Slit) -> Result<(), OutOfMemory> {
    push_headed(told, b"slit", &slit.head)?;
    push_number(told, slit.count)?;
    push_text(told, slit.distances.as_slice())
}

fn push_mcfg(told: &mut Bytes, mcfg: &Mcfg) -> Result<(), OutOfMemory> {
    push_headed(told, b"mcfg", &mcfg.head)?;
    for allocation in mcfg.allocations.as_slice() {
        push_allocation(told, allocation)?;
    }
    Ok(())
}

fn push_allocation(told: &mut Bytes, allocation: &McfgAllocation) -> Result<(), OutOfMemory> {
    push_name(told, b"allocation")?;
    push_numbers(
        told,
        &[
            allocation.base,
            u64::from(allocation.segment),
            u64::from(allocation.last_bus),
        ],
    )
}

fn push_hpet(told: &mut Bytes, hpet: &HpetTable) -> Result<(), OutOfMemory> {
    push_headed(told, b"hpet", &hpet.head)?;
    push_numbers(
        told,
        &[
            u64::from(hpet.block_id),
            u64::from(hpet.address.space),
            u64::from(hpet.address.width),
            u64::from(hpet.address.offset),
            u64::from(hpet.address.access),
            hpet.address.address,
            u64::from(hpet.number),
            u64::from(hpet.min_tick),
        ],
    )
}

fn push_other(told: &mut Bytes, other: &OtherTable) -> Result<(), OutOfMemory> {
    push_name(told, b"other")?;
    push_text(told, &other.signature)?;
    push_number(told, u64::from(other.length))
}
