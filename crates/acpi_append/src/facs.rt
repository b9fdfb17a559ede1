ghost use Rattle.std.specs.Prelude.{◌≡◌, ◌<◌, ◌^◌, length, IfOk, OnOk};
ghost use Rattle.blob_holes.specs.Blob.{next_place};
ghost use Rattle.acpi_append.specs.FacsPut.{IsFacsPut};

use crate::table::ALIGN;
use acpi_model::Facs;
use blob_holes::{Blob, append_layout};
use vt_layout::rows_of;
use vt_outside::OutOfMemory;

/// Appends `facs` to `blob` at the next multiple of 16, and returns its offset in bytes. A FACS has no checksum. It has to stand at a
/// multiple of 64 (ACPI 6.5, 5.2.10), as it does where it is the first of a file that is placed at one. `blob` has less than 2 GiB
/// before. Returns `OutOfMemory` when memory runs out; what `blob` then holds is unspecified.
pub fn put_facs(blob: &mut Blob, facs: &Facs) -> Result<u32, OutOfMemory>
    requires short { length blob.old.bytes < 2 ^ 31 }

    // Where the FACS is in the file.
    ensures place { IfOk result (λ place. place ≡ next_place 16 blob.old) }

    // What the file then is, exactly; that it has only grown, and can be linked as before; and that wherever a view holds it with its
    // holes filled, the FACS stands at its place.
    ensures put { OnOk result (IsFacsPut blob.old blob.new facs.now) }
{
    let rows = rows_of(blob.alloc(), facs)?;
    append_layout(blob, ALIGN, rows.rows(), &[], &[])
}
