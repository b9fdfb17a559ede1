ghost use Rattle.std.specs.Prelude.{◌≡◌, ◌++◌, map, IfOk, OnOk};
ghost use Rattle.acpi_records.specs.Header.{FitsHead};
ghost use Rattle.acpi_model.specs.MachineSrat.{cpu_affinity, range_affinity, srat_of_machine};

use acpi_records::{ApicAffinity, MemoryAffinity, Srat, SratEntry, X2ApicAffinity, head_of};
use machine_desc::{Acpi, Cpu, Machine, MemRange};
use std::alloc::Global;
use vt_bytes::BYTES_IN_MIB;
use vt_outside::{List, OutOfMemory};

// The flag of an entry that counts (ACPI 6.5, 5.2.16.1 to 5.2.16.3).
const ENABLED: u32 = 1;

/// Returns the SRAT of `machine` (ACPI 6.5, 5.2.16): the nodes of its processors, and then those of its ranges. `acpi` is the maker; its
/// `oem_id` has at most 6 bytes and its `oem_table_id` at most 8. The entries take their memory from `alloc`. Returns `OutOfMemory` when
/// memory runs out.
pub fn srat_of_machine(alloc: Global, machine: &Machine, acpi: &Acpi) -> Result<Srat, OutOfMemory>
    requires { FitsHead acpi.now }
    ensures { IfOk result (λ srat. srat ≡ srat_of_machine machine.now acpi.now) }
{
    let mut entries = List::new(alloc);
    push_cpus(&mut entries, machine.cpus.as_slice())?;
    push_ranges(&mut entries, machine.ranges.as_slice())?;
    Ok(Srat {
        head: head_of(acpi, 3),
        entries,
    })
}

// Adds the entries of processors.
fn push_cpus(entries: &mut List<SratEntry>, cpus: &[Cpu]) -> Result<(), OutOfMemory>
    ensures { OnOk result (entries.new ≡ entries.old ++ map cpu_affinity cpus.now) }
{
    for cpu in cpus {
        entries.push(cpu_affinity(cpu))?;
    }
    Ok(())
}

// Adds the entries of ranges.
fn push_ranges(entries: &mut List<SratEntry>, ranges: &[MemRange]) -> Result<(), OutOfMemory>
    ensures { OnOk result (entries.new ≡ entries.old ++ map range_affinity ranges.now) }
{
    for range in ranges {
        entries.push(range_affinity(range))?;
    }
    Ok(())
}

// The entry of a processor. An id of 255 names each local APIC, so that from there on the entry is that of an x2APIC.
fn cpu_affinity(cpu: &Cpu) -> SratEntry
    ensures { result ≡ cpu_affinity cpu.now }
{
    let node = u32::from(cpu.node);
    if cpu.apic <= 254 {
        SratEntry::Apic(ApicAffinity {
            node,
            apic: cpu.apic as u8,
            flags: ENABLED,
        })
    } else {
        SratEntry::X2Apic(X2ApicAffinity {
            node,
            apic: cpu.apic,
            flags: ENABLED,
        })
    }
}

// The entry of a range, which stands there in bytes.
fn range_affinity(range: &MemRange) -> SratEntry
    ensures { result ≡ range_affinity range.now }
{
    SratEntry::Memory(MemoryAffinity {
        node: u32::from(range.node),
        base: u64::from(range.base_mib) * BYTES_IN_MIB,
        length: u64::from(range.size_mib) * BYTES_IN_MIB,
        flags: ENABLED,
    })
}
