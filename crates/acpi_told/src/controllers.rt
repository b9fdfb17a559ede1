//! Interrupt controllers and processors (MADT, ACPI 6.5, 5.2.12).

ghost use Rattle.std.specs.Prelude.{◌≡◌, ◌==◌, [], None, Option as AnOption, option_map, if◌then◌else◌, Some, IfOk};
ghost use Rattle.std.specs.List.{filter_map};
ghost use Rattle.std.specs.Option.{option_map_or};
ghost use Rattle.acpi_records.specs.declared.madt_entry.MadtEntry.{MadtEntry as AnEntry};
ghost use Rattle.acpi_records.specs.declared.madt.Madt.{Madt as AMadt};
ghost use Rattle.acpi_model.specs.MachineMadt.{apic_in, cpu_in, io_apic_in, override_in, nmi_in};
ghost use Rattle.acpi_told.specs.Nodes.{on_told_nodes, node_of_cpu, cpu_on};
ghost use Rattle.acpi_told.specs.Parts.{affinities_of, controllers_told};

use crate::nodes::{affinities_of, put_nodes};
use acpi_model::{Madt, MadtEntry, Srat};
use machine_desc::{Apic, Cpu, IoApic, Nmi, Override};
use std::alloc::Global;
use vt_outside::{List, OutOfMemory};

/// The interrupt controllers of a machine, its processors, and what its interrupts are.
#[derive(Debug, Drop)]
pub struct Controllers {
    /// The controllers as a whole, where there is a MADT.
    pub apic: Option<Apic>,
    /// The processors, in order, with their nodes.
    pub cpus: List<Cpu>,
    /// The I/O APICs, in order.
    pub io_apics: List<IoApic>,
    /// The overrides of ISA interrupts, in order.
    pub overrides: List<Override>,
    /// The non-maskable interrupts, in order.
    pub nmis: List<Nmi>,
}

impl Controllers {
    // None at all.
    pub(crate) fn none(alloc: Global) -> Controllers
        ensures { result ≡ record { apic = None; cpus = []; io_apics = []; overrides = []; nmis = [] } }
    {
        Controllers {
            apic: None,
            cpus: List::new(alloc),
            io_apics: List::new(alloc),
            overrides: List::new(alloc),
            nmis: List::new(alloc),
        }
    }
}

// Those that a MADT tells, with the nodes of processors that an SRAT tells.
pub(crate) fn controllers_in(
    alloc: Global,
    madt: &Option<Madt>,
    srat: &Option<Srat>,
) -> Result<Controllers, OutOfMemory>
    ensures { IfOk result (λ controllers. controllers ≡ controllers_told madt.now srat.now) }
{
    let entries = entries_of(madt);
    let cpus = cpus_in(alloc, entries, srat)?;
    let (io_apics, overrides) = inputs_in(alloc, entries)?;
    Ok(Controllers {
        apic: apic_in(madt),
        cpus,
        io_apics,
        overrides,
        nmis: all_told(alloc, entries)?,
    })
}

// The entries of a MADT, of which there are none without one.
fn entries_of(madt: &Option<Madt>) -> &[MadtEntry]
    ensures { result.now ≡ option_map_or (λ (t : AMadt). t.entries) madt.now [] }
{
    match madt {
        Some(madt) => madt.entries.as_slice(),
        None => &[],
    }
}

fn apic_in(madt: &Option<Madt>) -> Option<Apic>
    ensures { result ≡ option_map apic_in madt.now }
{
    match madt {
        Some(madt) => Some(Apic {
            local: madt.address,
            legacy: madt.flags == 1,
        }),
        None => None,
    }
}

// The processors that entries tell, on their nodes.
fn cpus_in(
    alloc: Global,
    entries: &[MadtEntry],
    srat: &Option<Srat>,
) -> Result<List<Cpu>, OutOfMemory>
    ensures { IfOk result (λ cpus. cpus ≡ on_told_nodes node_of_cpu cpu_on (affinities_of srat.now) (filter_map cpu_in entries.now)) }
{
    let mut cpus = all_told(alloc, entries)?;
    put_nodes(&mut cpus, affinities_of(srat));
    Ok(cpus)
}

// The I/O APICs and the overrides.
fn inputs_in(
    alloc: Global,
    entries: &[MadtEntry],
) -> Result<(List<IoApic>, List<Override>), OutOfMemory>
    ensures io_apics { IfOk result (λ inputs. inputs.0 ≡ filter_map io_apic_in entries.now) }
    ensures overrides { IfOk result (λ inputs. inputs.1 ≡ filter_map override_in entries.now) }
{
    Ok((all_told(alloc, entries)?, all_told(alloc, entries)?))
}

// A part that an entry tells.
trait Told: Drop {
    ghost told: { AnEntry → AnOption Self };

    fn told(entry: &MadtEntry) -> Option<Self>
        ensures { result ≡ told entry.now };
}

// Those that entries tell, in order.
fn all_told<P: Told>(alloc: Global, entries: &[MadtEntry]) -> Result<List<P>, OutOfMemory>
    ensures { IfOk result (λ parts. parts ≡ filter_map P.told entries.now) }
{
    let mut parts = List::new(alloc);
    for entry in entries {
        if let Some(part) = P::told(entry) {
            parts.push(part)?;
        }
    }
    Ok(parts)
}

impl Told for Cpu {
    ghost told = { cpu_in };

    fn told(entry: &MadtEntry) -> Option<Cpu> {
        match entry {
            MadtEntry::LocalApic(local) => Some(cpu(u32::from(local.apic), local.flags)),
            MadtEntry::X2Apic(local) => Some(cpu(local.apic, local.flags)),
            _ => None,
        }
    }
}

// A processor on node 0.
fn cpu(apic: u32, flags: u32) -> Cpu
    ensures { result ≡ record { apic = apic; node = 0; enabled = flags == 1 } }
{
    Cpu {
        apic,
        node: 0,
        enabled: flags == 1,
    }
}

impl Told for IoApic {
    ghost told = { io_apic_in };

    fn told(entry: &MadtEntry) -> Option<IoApic> {
        match entry {
            MadtEntry::IoApic(entry) => Some(IoApic {
                id: entry.id,
                address: entry.address,
                gsi: entry.gsi,
            }),
            _ => None,
        }
    }
}

impl Told for Override {
    ghost told = { override_in };

    fn told(entry: &MadtEntry) -> Option<Override> {
        match entry {
            MadtEntry::Override(entry) => Some(Override {
                irq: entry.irq,
                gsi: entry.gsi,
                flags: entry.flags,
            }),
            _ => None,
        }
    }
}

// The UID that names each processor in an entry of a local APIC (5.2.12.7).
const ALL_LOCAL: u8 = 0xFF;

impl Told for Nmi {
    ghost told = { nmi_in };

    fn told(entry: &MadtEntry) -> Option<Nmi> {
        match entry {
            MadtEntry::LocalNmi(entry) => Some(Nmi {
                cpu: named(entry.uid),
                flags: entry.flags,
                lint: entry.lint,
            }),
            MadtEntry::X2ApicNmi(entry) => Some(Nmi {
                cpu: Some(entry.uid),
                flags: entry.flags,
                lint: entry.lint,
            }),
            _ => None,
        }
    }
}

// The processor that a UID of 8 bits names, where it is one.
fn named(uid: u8) -> Option<u32>
    ensures { result ≡ (if uid == 0xFF then None else Some uid) }
{
    if uid == ALL_LOCAL {
        None
    } else {
        Some(u32::from(uid))
    }
}
