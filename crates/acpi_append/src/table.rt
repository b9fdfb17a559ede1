ghost use Rattle.std.specs.Prelude.{◌≡◌, ◌+◌, ◌++◌, ◌<◌, ◌≤◌, ◌^◌, length, drop, IfOk, OnOk};
ghost use Rattle.std.specs.List.{AllByRecursion};
ghost use Rattle.vt_layout.specs.Rows.{IsRow, size};
ghost use Rattle.acpi_model.specs.Header.{framed};
ghost use Rattle.acpi_model.specs.Acpi.{signature_of, IsWritable};
ghost use Rattle.blob_holes.specs.Blob.{next_place};
ghost use Rattle.blob_holes.specs.Rows.{IsUnsummed};
ghost use Rattle.blob_holes.specs.Plain.{Spells};
ghost use Rattle.blob_holes.specs.Parts.{part_rows};
ghost use Rattle.acpi_model.specs.Kinds.{tables_name};
ghost use Rattle.acpi_append.specs.Tables.{BeginWithHeader, AreRowsPutWith, IsTablePut, front_rows, rows_as_bytes, table_pointer};

use crate::fadt::fadt_rows;
use crate::madt::{madt_bytes, madt_rows};
use crate::mcfg::{mcfg_bytes, mcfg_rows};
use crate::slit::slit_rows;
use crate::srat::{srat_bytes, srat_rows};
use acpi_model::Table;
use blob_holes::{Blob, Part, append_layout, size_of_parts};
use std::alloc::Global;
use vt_layout::{Row, RowList, ShortBytes, rows_of, size_of};
use vt_outside::{Bytes, Name, OutOfMemory};

/// The name of the file of fw_cfg that holds the tables. The pointers to them have its place added.
pub const TABLES_FILE: &str = "etc/acpi/tables";

/// The alignment of a table in its file, in bytes.
pub(crate) const ALIGN: u32 = 16;

/// Appends `table` to `blob` at the next multiple of 16, and returns its offset in bytes. `table` is one that can be written: each
/// of its entries is of a known type, each of its lists is as long as the table says, its pointers fit their rows wherever their file is
/// placed, and it has at most 16 MiB behind its header. An HPET table always is; a SLIT is where it tells of at most 1,024 nodes and has a
/// distance for each two of them. `blob` has less than 2 GiB before. Returns `OutOfMemory` when memory runs out; what `blob` then holds is
/// unspecified.
pub fn put_table(blob: &mut Blob, table: &Table) -> Result<u32, OutOfMemory>
    requires writable { IsWritable table.now }
    requires short { length blob.old.bytes < 2 ^ 31 }

    // Where the table is in the file.
    ensures place { IfOk result (λ place. place ≡ next_place 16 blob.old) }

    // What the file then is, exactly; that it has only grown, and can be linked as before; and that wherever a view holds it with its
    // holes filled, the table stands at its place.
    ensures put { OnOk result (IsTablePut blob.old blob.new table.now) }
{
    let bytes = known_bytes(blob.alloc(), table)?;
    let mut rows = known_rows(blob.alloc(), table)?;
    append_table(
        blob,
        known_signature(table),
        &mut rows,
        &[],
        &[Part::Bytes(bytes.as_slice())],
    )
}

// The rows of a table before its entries, its distances or its allocations, with zeros for its signature, its length and its checksum.
fn known_rows<'a>(alloc: Global, table: &'a Table) -> Result<RowList<'a>, OutOfMemory>
    requires { IsWritable table.now }
    ensures { IfOk result (λ list. list.rows ≡ front_rows table.now) }
{
    match table {
        Table::Fadt(table, links) => fadt_rows(alloc, table, links),
        Table::Madt(table) => madt_rows(alloc, table),
        Table::Srat(table) => srat_rows(alloc, table),
        Table::Slit(table) => slit_rows(alloc, table),
        Table::Mcfg(table) => mcfg_rows(alloc, table),
        Table::Hpet(table) => rows_of(alloc, table),
    }
}

// The entries, the distances or the allocations of a table as bytes, since rows of thousands of entries would take much memory.
fn known_bytes(alloc: Global, table: &Table) -> Result<Bytes, OutOfMemory>
    requires { IsWritable table.now }
    ensures { IfOk result (λ bytes. Spells (rows_as_bytes table.now) bytes) }
{
    match table {
        Table::Fadt(..) => Ok(Bytes::new(alloc)),
        Table::Madt(table) => madt_bytes(alloc, table),
        Table::Srat(table) => srat_bytes(alloc, table),
        Table::Slit(table) => table.distances.copy(),
        Table::Mcfg(table) => mcfg_bytes(alloc, table),
        Table::Hpet(_) => Ok(Bytes::new(alloc)),
    }
}

fn known_signature(table: &Table) -> &'static [u8; 4]
    ensures { result.now ≡ signature_of table.now }
{
    match table {
        Table::Fadt(..) => b"FACP",
        Table::Madt(_) => b"APIC",
        Table::Srat(_) => b"SRAT",
        Table::Slit(_) => b"SLIT",
        Table::Mcfg(_) => b"MCFG",
        Table::Hpet(_) => b"HPET",
    }
}

/// Appends the table with `signature` that has the rows `rows`, which begin with those of a header, the rows `more` behind them and the
/// parts `parts` behind those, at the next multiple of 16, and returns its offset in bytes. Its signature, its length and its checksum are
/// put into `rows`. All is at most 2^25 bytes, there is no checksum behind the header, and each pointer of `parts` fits its dword wherever
/// its file is placed. `blob` has less than 2 GiB before. Returns `OutOfMemory` when memory runs out; what `blob` then holds is
/// unspecified.
pub(crate) fn append_table(
    blob: &mut Blob,
    signature: &[u8; 4],
    rows: &mut RowList,
    more: &[Row],
    parts: &[Part],
) -> Result<u32, OutOfMemory>
    requires header { BeginWithHeader rows.old.rows }
    requires more { AllByRecursion IsRow more.now }
    requires fit { AllByRecursion IsRow (part_rows parts.now) }
    requires no_sum { AllByRecursion IsUnsummed (drop 9 rows.old.rows ++ more.now) }
    requires short { length blob.old.bytes < 2 ^ 31 }
    requires few { size rows.old.rows + size more.now + size (part_rows parts.now) ≤ 2 ^ 25 }
    ensures place { IfOk result (λ place. place ≡ next_place 16 blob.old) }
    ensures put { OnOk result (AreRowsPutWith blob.old blob.new
        (framed signature.now (size rows.old.rows + size more.now + size (part_rows parts.now)) rows.old.rows ++ more.now) parts.now) }
{
    let total = size_of(rows.rows()) + size_of(more) + size_of_parts(parts);
    rows.set(0, Row::Bytes(4, ShortBytes::of(signature)));
    rows.set(1, Row::Number(4, u64::from(total)));
    rows.set(3, Row::Sum(total));
    append_layout(blob, ALIGN, rows.rows(), more, parts)
}

/// Returns the row, 8 bytes wide, of the address of the table at `offset` in the file `TABLES_FILE`, in bytes.
pub(crate) fn table_pointer(offset: u32) -> Row
    ensures row { result ≡ table_pointer offset }
    ensures fits { IsRow result }
{
    Row::Pointer(8, tables_name(), offset)
}

pub(crate) fn tables_name() -> Name
    ensures { result ≡ tables_name }
{
    Name::of(TABLES_FILE).unwrap()
}
