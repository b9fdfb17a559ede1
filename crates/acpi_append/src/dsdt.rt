ghost use Rattle.std.specs.Prelude.{◌≡◌, ◌<◌, ◌≤◌, ◌^◌, List, IfOk, OnOk, length};
ghost use Rattle.std.specs.List.{AllByRecursion};
ghost use Rattle.vt_layout.specs.declared.row.Row.{Row as ARow};
ghost use Rattle.vt_layout.specs.Rows.{IsRow, size};
ghost use Rattle.blob_holes.specs.Blob.{next_place};
ghost use Rattle.blob_holes.specs.Parts.{StandFor, part_rows};
ghost use Rattle.acpi_append.specs.DsdtPut.{IsDsdtPut};

use crate::table::append_table;
use acpi_model::Head;
use blob_holes::{Blob, Part};
use vt_layout::rows_of;
use vt_outside::OutOfMemory;

/// Appends the DSDT with the header `head` to `blob` at the next multiple of 16, and returns its offset in bytes. Its definition block is
/// `block`, at most 16 MiB of bytes and of pointers, each of which fits its dword wherever its file is placed: its offset is at most 1 GiB.
/// `blob` has less than 2 GiB before. Returns `OutOfMemory` when memory runs out; what `blob` then holds is unspecified.
pub fn put_dsdt(blob: &mut Blob, head: &Head, block: &[Part]) -> Result<u32, OutOfMemory>
    requires short { length blob.old.bytes < 2 ^ 31 }
    requires few { size (part_rows block.now) ≤ 0x1000000 }
    requires fit { AllByRecursion IsRow (part_rows block.now) }

    // Where the DSDT is in the file.
    ensures place { IfOk result (λ place. place ≡ next_place 16 blob.old) }

    // What the file then is, exactly, whatever plain rows spell the bytes of its definition block; that it has only grown, and can be
    // linked as before; and that wherever a view holds it with its holes filled, the DSDT stands at its place.
    ensures put { OnOk result ((rows : List ARow) → StandFor block.now rows → IsDsdtPut blob.old blob.new head.now rows) }
{
    let mut rows = rows_of(blob.alloc(), head)?;
    append_table(blob, b"DSDT", &mut rows, &[], block)
}
