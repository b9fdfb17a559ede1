ghost use Rattle.std.specs.Prelude.{◌≡◌, map, IfOk, OnOk};
ghost use Rattle.std.specs.List.{AllByRecursion};
ghost use Rattle.vt_layout.specs.Entries.{entries_rows};
ghost use Rattle.blob_holes.specs.Plain.{Spells};
ghost use Rattle.acpi_model.specs.SratEntries.{srat_entry_of, IsSratEntry};
ghost use Rattle.acpi_model.specs.declared.acpi.Table.TheVariants.{Srat as SratTable};
ghost use Rattle.acpi_append.specs.EntryPut.{IsEntryPut};
ghost use Rattle.acpi_append.specs.Tables.{front_rows};

use crate::entries::{put_entry, put_other};
use acpi_records::{
    APIC_AFFINITY_TYPE, MEMORY_AFFINITY_TYPE, Srat, SratEntry, SratFront, X2APIC_AFFINITY_TYPE,
};
use std::alloc::Global;
use vt_layout::{Laid, Row, RowList};
use vt_outside::{Bytes, OutOfMemory};

/// Returns the rows of `srat` before its entries, with zeros for its signature, its length and its checksum. The memory is taken from
/// `alloc`. Returns `OutOfMemory` when memory runs out.
pub(crate) fn srat_rows<'a>(alloc: Global, srat: &'a Srat) -> Result<RowList<'a>, OutOfMemory>
    ensures { IfOk result (λ list. list.rows ≡ front_rows (SratTable srat.now)) }
{
    let mut rows = RowList::with_room(alloc, SratFront::ROWS)?;
    srat.head.put(&mut rows);
    rows.row(Row::Ignored(4, 1));
    rows.reserved(8);
    Ok(rows)
}

/// Returns the entries of `srat`, which can stand in a table, as bytes. The memory is taken from `alloc`. Returns `OutOfMemory` when
/// memory runs out.
pub(crate) fn srat_bytes(alloc: Global, srat: &Srat) -> Result<Bytes, OutOfMemory>
    requires { AllByRecursion IsSratEntry srat.now.entries }
    ensures { IfOk result (λ bytes. Spells (entries_rows (map srat_entry_of srat.now.entries)) bytes) }
{
    let mut bytes = Bytes::new(alloc);
    for entry in srat.entries.as_slice() {
        put_srat_entry(&mut bytes, alloc, entry)?;
    }
    Ok(bytes)
}

// Appends an entry to others.
fn put_srat_entry(bytes: &mut Bytes, alloc: Global, entry: &SratEntry) -> Result<(), OutOfMemory>
    requires { IsSratEntry entry.now }
    ensures { OnOk result (IsEntryPut bytes.old bytes.new (srat_entry_of entry.now)) }
{
    match entry {
        SratEntry::Apic(entry) => put_entry(bytes, alloc, APIC_AFFINITY_TYPE, entry),
        SratEntry::Memory(entry) => put_entry(bytes, alloc, MEMORY_AFFINITY_TYPE, entry),
        SratEntry::X2Apic(entry) => put_entry(bytes, alloc, X2APIC_AFFINITY_TYPE, entry),
        SratEntry::Other { kind, length } => put_other(bytes, *kind, *length),
    }
}
