ghost use Rattle.std.specs.Prelude.{◌≡◌, ◌-◌, ◌+◌, ◌⊎◌, ◌≤◌, true, Some, List as ListOf, IfOk, IfErr};
ghost use Rattle.vt_layout.specs.Entries.{Entry, EntriesShown};
ghost use Rattle.acpi_records.specs.MadtEntries.{madt_types, madt_entry};
ghost use Rattle.acpi_model.specs.MadtKind.{madt_kind};
ghost use Rattle.acpi_model.specs.declared.acpi.Table.TheVariants.{Madt as MadtVariant};
ghost use Rattle.acpi_decode.specs.declared.fault.AcpiFault.TheVariants.{OutOfMemory as NoMemory};
ghost use Rattle.acpi_decode.specs.Seen.{is_ram};
ghost use Rattle.acpi_decode.specs.EntryFaults.{EntryFault};
ghost use Rattle.acpi_decode.specs.Read.{table_at};
ghost use Rattle.acpi_decode.specs.Readable.{madt_readable};

use crate::entries::{EntryReader, count_entries, read_entries};
use crate::fault::AcpiFault;
use crate::view::MemView;
use acpi_records::{
    IO_APIC_TYPE, IoApicEntry, LOCAL_APIC_TYPE, LOCAL_NMI_TYPE, LocalApicEntry, LocalNmiEntry,
    Madt, MadtEntry, MadtFront, OVERRIDE_TYPE, OverrideEntry, X2APIC_NMI_TYPE, X2APIC_TYPE,
    X2ApicEntry, X2ApicNmiEntry,
};
use std::alloc::Global;
use vt_layout::{RecordReader, read_plain};
use vt_outside::OutOfMemory;

/// How many bytes a MADT has in front of its entries (ACPI 6.5, 5.2.12).
pub(crate) const MADT_FRONT_SIZE: u32 = 44;

/// The readers of the entries of a MADT, one for each type that is read as a record (ACPI 6.5, 5.2.12.2 to 5.2.12.13).
#[derive(Drop)]
struct MadtEntryReader {
    local_apic: RecordReader<LocalApicEntry>,
    io_apic: RecordReader<IoApicEntry>,
    source_override: RecordReader<OverrideEntry>,
    local_nmi: RecordReader<LocalNmiEntry>,
    x2apic: RecordReader<X2ApicEntry>,
    x2apic_nmi: RecordReader<X2ApicNmiEntry>,
}

impl EntryReader<MadtEntry> for MadtEntryReader {
    ghost types = { madt_types };

    ghost entry = { madt_entry };

    ghost readable = { madt_readable };

    fn new(alloc: Global) -> Result<MadtEntryReader, OutOfMemory> {
        Ok(MadtEntryReader {
            local_apic: RecordReader::new(alloc)?,
            io_apic: RecordReader::new(alloc)?,
            source_override: RecordReader::new(alloc)?,
            local_nmi: RecordReader::new(alloc)?,
            x2apic: RecordReader::new(alloc)?,
            x2apic_nmi: RecordReader::new(alloc)?,
        })
    }

    fn least_length(kind: u8) -> u32 {
        match kind {
            LOCAL_APIC_TYPE => 8,
            IO_APIC_TYPE => 12,
            OVERRIDE_TYPE => 10,
            LOCAL_NMI_TYPE => 6,
            X2APIC_TYPE => 16,
            X2APIC_NMI_TYPE => 12,
            _ => 2,
        }
    }

    fn read(&mut self, kind: u8, total: u8, body: &[u8]) -> Result<MadtEntry, OutOfMemory> {
        Ok(match kind {
            LOCAL_APIC_TYPE => MadtEntry::LocalApic(self.local_apic.read_plain(body)?),
            IO_APIC_TYPE => MadtEntry::IoApic(self.io_apic.read_plain(body)?),
            OVERRIDE_TYPE => MadtEntry::Override(self.source_override.read_plain(body)?),
            LOCAL_NMI_TYPE => MadtEntry::LocalNmi(self.local_nmi.read_plain(body)?),
            X2APIC_TYPE => MadtEntry::X2Apic(self.x2apic.read_plain(body)?),
            X2APIC_NMI_TYPE => MadtEntry::X2ApicNmi(self.x2apic_nmi.read_plain(body)?),
            _ => MadtEntry::Other {
                kind,
                length: total,
            },
        })
    }
}

/// Reads the MADT at `address`, which has `total` bytes, all of them RAM. `BadEntry` tells the address of its first bad entry.
pub(crate) fn read_madt<V: MemView>(
    alloc: Global,
    view: &V,
    address: u64,
    total: u32,
) -> Result<Madt, AcpiFault>
    requires enough { 44 ≤ total }
    requires ram { is_ram (V.seen view.now) address total ≡ true }
    ensures read { IfOk result (λ t. (entries : ListOf Entry)
        × EntriesShown madt_types (V.seen view.now) address (address + 44) (total - 44) entries
        × (MadtVariant t ≡ table_at madt_kind (V.seen view.now) address entries)) }
    ensures fault { IfErr result (λ fault. (fault ≡ NoMemory)
        ⊎ EntryFault (Some madt_types) (V.seen view.now) address (address + 44) (total - 44) fault) }
{
    let count = count_entries::<V, MadtEntry, MadtEntryReader>(
        view,
        address,
        MADT_FRONT_SIZE,
        total,
    )?;
    let mut bytes = [0; MADT_FRONT_SIZE as usize];
    view.copy_out(address, &mut bytes);
    let front: MadtFront = read_plain(alloc, &bytes)?;
    let entries = read_entries::<V, MadtEntry, MadtEntryReader>(
        alloc,
        view,
        address,
        MADT_FRONT_SIZE,
        total,
        count,
    )?;
    Ok(Madt::of(front, entries))
}
