ghost use Rattle.std.specs.Prelude.{◌≡◌, map, IfOk, OnOk};
ghost use Rattle.std.specs.List.{AllByRecursion};
ghost use Rattle.vt_layout.specs.Entries.{entries_rows};
ghost use Rattle.blob_holes.specs.Plain.{Spells};
ghost use Rattle.acpi_model.specs.MadtEntries.{madt_entry_of, IsMadtEntry};
ghost use Rattle.acpi_model.specs.declared.acpi.Table.TheVariants.{Madt as MadtTable};
ghost use Rattle.acpi_append.specs.EntryPut.{IsEntryPut};
ghost use Rattle.acpi_append.specs.Tables.{front_rows};

use crate::entries::{put_entry, put_other};
use acpi_records::{
    IO_APIC_TYPE, LOCAL_APIC_TYPE, LOCAL_NMI_TYPE, Madt, MadtEntry, MadtFront, OVERRIDE_TYPE,
    X2APIC_NMI_TYPE, X2APIC_TYPE,
};
use std::alloc::Global;
use vt_layout::{Laid, RowList};
use vt_outside::{Bytes, OutOfMemory};

/// Returns the rows of `madt` before its entries, with zeros for its signature, its length and its checksum. The memory is taken from
/// `alloc`. Returns `OutOfMemory` when memory runs out.
pub(crate) fn madt_rows<'a>(alloc: Global, madt: &'a Madt) -> Result<RowList<'a>, OutOfMemory>
    ensures { IfOk result (λ list. list.rows ≡ front_rows (MadtTable madt.now)) }
{
    let mut rows = RowList::with_room(alloc, MadtFront::ROWS)?;
    madt.head.put(&mut rows);
    rows.dword(madt.address);
    rows.dword(madt.flags);
    Ok(rows)
}

/// Returns the entries of `madt`, which can stand in a table, as bytes. The memory is taken from `alloc`. Returns `OutOfMemory` when
/// memory runs out.
pub(crate) fn madt_bytes(alloc: Global, madt: &Madt) -> Result<Bytes, OutOfMemory>
    requires { AllByRecursion IsMadtEntry madt.now.entries }
    ensures { IfOk result (λ bytes. Spells (entries_rows (map madt_entry_of madt.now.entries)) bytes) }
{
    let mut bytes = Bytes::new(alloc);
    for entry in madt.entries.as_slice() {
        put_madt_entry(&mut bytes, alloc, entry)?;
    }
    Ok(bytes)
}

// Appends an entry to others.
fn put_madt_entry(bytes: &mut Bytes, alloc: Global, entry: &MadtEntry) -> Result<(), OutOfMemory>
    requires { IsMadtEntry entry.now }
    ensures { OnOk result (IsEntryPut bytes.old bytes.new (madt_entry_of entry.now)) }
{
    match entry {
        MadtEntry::LocalApic(entry) => put_entry(bytes, alloc, LOCAL_APIC_TYPE, entry),
        MadtEntry::IoApic(entry) => put_entry(bytes, alloc, IO_APIC_TYPE, entry),
        MadtEntry::Override(entry) => put_entry(bytes, alloc, OVERRIDE_TYPE, entry),
        MadtEntry::LocalNmi(entry) => put_entry(bytes, alloc, LOCAL_NMI_TYPE, entry),
        MadtEntry::X2Apic(entry) => put_entry(bytes, alloc, X2APIC_TYPE, entry),
        MadtEntry::X2ApicNmi(entry) => put_entry(bytes, alloc, X2APIC_NMI_TYPE, entry),
        MadtEntry::Other { kind, length } => put_other(bytes, *kind, *length),
    }
}
