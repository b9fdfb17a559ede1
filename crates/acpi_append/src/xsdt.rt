ghost use Rattle.std.specs.Prelude.{◌≡◌, ◌+◌, ◌*◌, ◌<◌, ◌≤◌, ◌^◌, length, map, IfOk, OnOk};
ghost use Rattle.acpi_model.specs.Xsdt.{most_entries};
ghost use Rattle.blob_holes.specs.Blob.{next_place};
ghost use Rattle.acpi_append.specs.Tables.{IsXsdtPut, table_pointer};

use crate::table::{append_table, table_pointer};
use acpi_model::Head;
use blob_holes::Blob;
use std::alloc::Global;
use vt_layout::{Row, rows_of};
use vt_outside::{List, OutOfMemory};

/// Appends the XSDT with the header `head` to `blob` at the next multiple of 16, and returns its offset in bytes. Its entries
/// are `tables`, at most 256 offsets of tables in the file `TABLES_FILE`, in bytes. `blob` has less than 2 GiB before. Returns
/// `OutOfMemory` when memory runs out; what `blob` then holds is unspecified.
pub fn put_xsdt(blob: &mut Blob, head: &Head, tables: &[u32]) -> Result<u32, OutOfMemory>
    requires short { length blob.old.bytes < 2 ^ 31 }
    requires few { length tables.now ≤ most_entries }

    // Where the XSDT is in the file, and how many bytes the file then has.
    ensures place { IfOk result (λ place. place ≡ next_place 16 blob.old) }
    ensures size { OnOk result (length blob.new.bytes ≡ next_place 16 blob.old + (36 + 8 * length tables.now)) }

    // What the file then is, exactly; that it has only grown, and can be linked as before; and that wherever a view holds it with its
    // holes filled, the XSDT stands at its place, and names each table that isn't at zero.
    ensures put { OnOk result (IsXsdtPut blob.old blob.new head.now tables.now) }
{
    let entries = entries_of(blob.alloc(), tables)?;
    let mut rows = rows_of(blob.alloc(), head)?;
    append_table(blob, b"XSDT", &mut rows, entries.as_slice(), &[])
}

// The entries of tables that stand at these offsets of their file.
fn entries_of(alloc: Global, tables: &[u32]) -> Result<List<Row>, OutOfMemory>
    ensures { IfOk result (λ entries. entries ≡ map table_pointer tables.now) }
{
    let mut entries = List::new(alloc);
    for table in tables {
        entries.push(table_pointer(*table))?;
    }
    Ok(entries)
}
