ghost use Rattle.std.specs.Prelude.{◌≡◌, ◌-◌, ◌+◌, ◌⊎◌, ◌≤◌, true, Some, List as ListOf, IfOk, IfErr};
ghost use Rattle.vt_layout.specs.Entries.{Entry, EntriesShown};
ghost use Rattle.acpi_records.specs.SratEntries.{srat_types, srat_entry};
ghost use Rattle.acpi_model.specs.SratKind.{srat_kind};
ghost use Rattle.acpi_model.specs.declared.acpi.Table.TheVariants.{Srat as SratVariant};
ghost use Rattle.acpi_decode.specs.declared.fault.AcpiFault.TheVariants.{OutOfMemory as NoMemory};
ghost use Rattle.acpi_decode.specs.Seen.{is_ram};
ghost use Rattle.acpi_decode.specs.EntryFaults.{EntryFault};
ghost use Rattle.acpi_decode.specs.Read.{table_at};
ghost use Rattle.acpi_decode.specs.Readable.{srat_readable};

use crate::entries::{EntryReader, count_entries, read_entries};
use crate::fault::AcpiFault;
use crate::view::MemView;
use acpi_records::{
    APIC_AFFINITY_TYPE, ApicAffinity, MEMORY_AFFINITY_TYPE, MemoryAffinity, Srat, SratEntry,
    SratFront, X2APIC_AFFINITY_TYPE, X2ApicAffinity,
};
use std::alloc::Global;
use vt_layout::{RecordReader, read_plain};
use vt_outside::OutOfMemory;

/// How many bytes an SRAT has in front of its entries (ACPI 6.5, 5.2.16).
pub(crate) const SRAT_FRONT_SIZE: u32 = 48;

/// The readers of the entries of an SRAT, one for each type that is read as a record (ACPI 6.5, 5.2.16.1 to 5.2.16.3).
#[derive(Drop)]
struct SratEntryReader {
    apic: RecordReader<ApicAffinity>,
    memory: RecordReader<MemoryAffinity>,
    x2apic: RecordReader<X2ApicAffinity>,
}

impl EntryReader<SratEntry> for SratEntryReader {
    ghost types = { srat_types };

    ghost entry = { srat_entry };

    ghost readable = { srat_readable };

    fn new(alloc: Global) -> Result<SratEntryReader, OutOfMemory> {
        Ok(SratEntryReader {
            apic: RecordReader::new(alloc)?,
            memory: RecordReader::new(alloc)?,
            x2apic: RecordReader::new(alloc)?,
        })
    }

    fn least_length(kind: u8) -> u32 {
        match kind {
            APIC_AFFINITY_TYPE => 16,
            MEMORY_AFFINITY_TYPE => 40,
            X2APIC_AFFINITY_TYPE => 24,
            _ => 2,
        }
    }

    fn read(&mut self, kind: u8, total: u8, body: &[u8]) -> Result<SratEntry, OutOfMemory> {
        Ok(match kind {
            APIC_AFFINITY_TYPE => SratEntry::Apic(self.apic.read_plain(body)?),
            MEMORY_AFFINITY_TYPE => SratEntry::Memory(self.memory.read_plain(body)?),
            X2APIC_AFFINITY_TYPE => SratEntry::X2Apic(self.x2apic.read_plain(body)?),
            _ => SratEntry::Other {
                kind,
                length: total,
            },
        })
    }
}

/// Reads the SRAT at `address`, which has `total` bytes, all of them RAM. `BadEntry` tells the address of its first bad entry.
pub(crate) fn read_srat<V: MemView>(
    alloc: Global,
    view: &V,
    address: u64,
    total: u32,
) -> Result<Srat, AcpiFault>
    requires enough { 48 ≤ total }
    requires ram { is_ram (V.seen view.now) address total ≡ true }
    ensures read { IfOk result (λ t. (entries : ListOf Entry)
        × EntriesShown srat_types (V.seen view.now) address (address + 48) (total - 48) entries
        × (SratVariant t ≡ table_at srat_kind (V.seen view.now) address entries)) }
    ensures fault { IfErr result (λ fault. (fault ≡ NoMemory)
        ⊎ EntryFault (Some srat_types) (V.seen view.now) address (address + 48) (total - 48) fault) }
{
    let count = count_entries::<V, SratEntry, SratEntryReader>(
        view,
        address,
        SRAT_FRONT_SIZE,
        total,
    )?;
    let mut bytes = [0; SRAT_FRONT_SIZE as usize];
    view.copy_out(address, &mut bytes);
    let front: SratFront = read_plain(alloc, &bytes)?;
    let entries = read_entries::<V, SratEntry, SratEntryReader>(
        alloc,
        view,
        address,
        SRAT_FRONT_SIZE,
        total,
        count,
    )?;
    Ok(Srat::of(front, entries))
}
