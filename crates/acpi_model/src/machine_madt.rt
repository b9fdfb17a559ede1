ghost use Rattle.std.specs.Prelude.{◌≡◌, ℕ, ◌≤◌, ◌++◌, length, map, IfOk, OnOk};
ghost use Rattle.machine_desc.specs.Rules.{IsAccepted};
ghost use Rattle.acpi_records.specs.Header.{FitsHead};
ghost use Rattle.acpi_records.specs.declared.madt_entry.MadtEntry.TheVariants.{LocalNmi};
ghost use Rattle.acpi_model.specs.MachineMadt.{cpu_entry, cpu_entries, io_apic_entry, override_entry, nmi_entry, entries_of, madt_of_machine};

use acpi_records::{
    IoApicEntry, LocalApicEntry, LocalNmiEntry, Madt, MadtEntry, OverrideEntry, X2ApicEntry,
    X2ApicNmiEntry, head_of,
};
use machine_desc::{Acpi, Apic, Cpu, IoApic, Machine, Nmi, Override};
use std::alloc::Global;
use vt_outside::{List, OutOfMemory};

// The greatest UID and the greatest APIC id of a local APIC: 255 means all processors there.
const MOST_LOCAL: u32 = 254;

// The UID of all processors in an entry of a local APIC.
const ALL_LOCAL: u8 = 0xFF;

/// Returns the MADT of `machine`, whose interrupt controllers are `apic` (ACPI 6.5, 5.2.12). `machine` is accepted, and `acpi` is the
/// maker; its `oem_id` has at most 6 bytes and its `oem_table_id` at most 8. The entries are the processors, the I/O APICs, the overrides
/// and the NMIs, in this order. The list takes its memory from `alloc`. Returns `OutOfMemory` when memory runs out.
pub fn madt_of_machine(
    alloc: Global,
    machine: &Machine,
    acpi: &Acpi,
    apic: Apic,
) -> Result<Madt, OutOfMemory>
    requires accepted { IsAccepted machine.now }
    requires fits { FitsHead acpi.now }
    ensures { IfOk result (λ madt. madt ≡ madt_of_machine machine.now acpi.now apic) }
{
    Ok(Madt {
        head: head_of(acpi, 5),
        address: apic.local,
        flags: u32::from(apic.legacy),
        entries: entries_of(alloc, machine)?,
    })
}

// The entries of a machine.
fn entries_of(alloc: Global, machine: &Machine) -> Result<List<MadtEntry>, OutOfMemory>
    requires { IsAccepted machine.now }
    ensures { IfOk result (λ entries. entries ≡ entries_of machine.now) }
{
    let mut entries = List::new(alloc);
    push_cpus(&mut entries, machine.cpus.as_slice())?;
    push_io_apics(&mut entries, machine.io_apics.as_slice())?;
    push_overrides(&mut entries, machine.overrides.as_slice())?;
    push_nmis(&mut entries, machine.nmis.as_slice())?;
    Ok(entries)
}

fn push_cpus(entries: &mut List<MadtEntry>, cpus: &[Cpu]) -> Result<(), OutOfMemory>
    requires { length cpus.now ≤ 4096 }
    ensures { OnOk result (entries.new ≡ entries.old ++ cpu_entries cpus.now) }
{
    for position in 0..cpus.len() {
        entries.push(cpu_entry(position as u32, &cpus[position]))?;
    }
    Ok(())
}

// The entry of the processor at a position.
fn cpu_entry(position: u32, cpu: &Cpu) -> MadtEntry
    ensures { result ≡ cpu_entry (position, cpu.now) }
{
    let flags = u32::from(cpu.enabled);
    if position <= MOST_LOCAL && cpu.apic <= MOST_LOCAL {
        MadtEntry::LocalApic(LocalApicEntry {
            uid: position as u8,
            apic: cpu.apic as u8,
            flags,
        })
    } else {
        MadtEntry::X2Apic(X2ApicEntry {
            apic: cpu.apic,
            flags,
            uid: position,
        })
    }
}

fn push_io_apics(entries: &mut List<MadtEntry>, io_apics: &[IoApic]) -> Result<(), OutOfMemory>
    ensures { OnOk result (entries.new ≡ entries.old ++ map io_apic_entry io_apics.now) }
{
    for io_apic in io_apics {
        entries.push(MadtEntry::IoApic(IoApicEntry {
            id: io_apic.id,
            address: io_apic.address,
            gsi: io_apic.gsi,
        }))?;
    }
    Ok(())
}

fn push_overrides(entries: &mut List<MadtEntry>, overrides: &[Override]) -> Result<(), OutOfMemory>
    ensures { OnOk result (entries.new ≡ entries.old ++ map override_entry overrides.now) }
{
    for over in overrides {
        entries.push(MadtEntry::Override(OverrideEntry {
            bus: 0,
            irq: over.irq,
            gsi: over.gsi,
            flags: over.flags,
        }))?;
    }
    Ok(())
}

fn push_nmis(entries: &mut List<MadtEntry>, nmis: &[Nmi]) -> Result<(), OutOfMemory>
    ensures { OnOk result (entries.new ≡ entries.old ++ map nmi_entry nmis.now) }
{
    for nmi in nmis {
        entries.push(nmi_entry(nmi))?;
    }
    Ok(())
}

// The entry of an NMI, which is that of one processor or of all.
fn nmi_entry(nmi: &Nmi) -> MadtEntry
    ensures { result ≡ nmi_entry nmi.now }
{
    let Nmi { cpu, flags, lint } = *nmi;
    match cpu {
        None => local_nmi(ALL_LOCAL, flags, lint),
        Some(uid) if uid <= MOST_LOCAL => local_nmi(uid as u8, flags, lint),
        Some(uid) => MadtEntry::X2ApicNmi(X2ApicNmiEntry { flags, uid, lint }),
    }
}

fn local_nmi(uid: u8, flags: u16, lint: u8) -> MadtEntry
    ensures { result ≡ LocalNmi (record { uid = uid; flags = flags; lint = lint }) }
{
    MadtEntry::LocalNmi(LocalNmiEntry { uid, flags, lint })
}
