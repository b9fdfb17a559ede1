ghost use Rattle.std.specs.Prelude.{◌<◌, ◌^◌, length, OnOk};
ghost use Rattle.acpi_append.specs.Tables.{IsRsdpPut};

use crate::table::{ALIGN, table_pointer};
use acpi_model::rsdp_rows;
use blob_holes::{Blob, append_layout};
use vt_outside::OutOfMemory;

/// Appends the RSDP with the maker's id `oem_id` to `blob` at the next multiple of 16. `xsdt` is the offset of the XSDT in the
/// file `TABLES_FILE`, in bytes. `blob` has less than 2 GiB before. Returns `OutOfMemory` when memory runs out; what `blob`
/// then holds is unspecified.
pub fn put_rsdp(blob: &mut Blob, oem_id: &[u8; 6], xsdt: u32) -> Result<(), OutOfMemory>
    requires short { length blob.old.bytes < 2 ^ 31 }

    // What the file then is, exactly; that it has only grown, and can be linked as before; and that wherever a view holds it with its
    // holes filled, the RSDP stands at its place as it was written, and a reader finds the XSDT's address there.
    ensures { OnOk result (IsRsdpPut blob.old blob.new oem_id.now xsdt) }
{
    append_layout(
        blob,
        ALIGN,
        &rsdp_rows(oem_id, table_pointer(xsdt)),
        &[],
        &[],
    )?;
    Ok(())
}
