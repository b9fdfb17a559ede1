ghost use Rattle.std.specs.Prelude.{◌≡◌, ◌<◌, ◌^◌, length, IfOk, OnOk};
ghost use Rattle.acpi_records.specs.Facs.{initial_facs};
ghost use Rattle.blob_holes.specs.Blob.{next_place};
ghost use Rattle.acpi_append.specs.FacsPut.{IsFacsPut};

use acpi_append::put_facs;
use acpi_model::initial_facs;
use blob_holes::Blob;
use vt_outside::OutOfMemory;

/// Appends the FACS of a machine as it starts to `blob` at the next multiple of 16, and returns its offset in bytes. It has to stand at
/// a multiple of 64 (ACPI 6.5, 5.2.10), as it does where it is the first of a file that is placed at one. `blob` has less than 2 GiB
/// before. Returns `OutOfMemory` when memory runs out; what `blob` then holds is unspecified.
pub fn append_facs(blob: &mut Blob) -> Result<u32, OutOfMemory>
    requires short { length blob.old.bytes < 2 ^ 31 }

    // Where the FACS is in the file.
    ensures place { IfOk result (λ place. place ≡ next_place 16 blob.old) }

    // What the file then is, exactly; that it has only grown, and can be linked as before; and that wherever a view holds it with its
    // holes filled, the FACS stands at its place.
    ensures put { OnOk result (IsFacsPut blob.old blob.new initial_facs) }
{
    put_facs(blob, &initial_facs())
}
