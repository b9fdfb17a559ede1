ghost use Rattle.std.specs.Prelude.{◌<◌, ◌^◌, length, OnOk, IsSome, IsSomeAnd};
ghost use Rattle.machine_desc.specs.Rules.{IsAccepted};
ghost use Rattle.acpi_model.specs.Header.{padded};
ghost use Rattle.acpi_append.specs.Tables.{IsRsdpPut};

use acpi_append::put_rsdp;
use acpi_model::head_of;
use blob_holes::Blob;
use machine_desc::Machine;
use vt_outside::OutOfMemory;

/// Appends the RSDP of `machine`, which is accepted and has ACPI tables, to `blob` at the next multiple of 16. `xsdt` is the
/// offset of the XSDT in the file `TABLES_FILE`, in bytes. `blob` has less than 2 GiB before. Returns `OutOfMemory` when memory
/// runs out; what `blob` then holds is unspecified.
pub fn append_rsdp(blob: &mut Blob, machine: &Machine, xsdt: u32) -> Result<(), OutOfMemory>
    requires accepted { IsAccepted machine.now }
    requires wanted { IsSome machine.now.acpi }
    requires short { length blob.old.bytes < 2 ^ 31 }

    // What the file then is, exactly; that it has only grown, and can be linked as before; and that wherever a view holds it with its
    // holes filled, the machine's RSDP stands at its place as it was written, and a reader finds the XSDT's address there.
    ensures { OnOk result (IsSomeAnd machine.now.acpi (λ acpi. IsRsdpPut blob.old blob.new (padded 6 acpi.oem_id) xsdt)) }
{
    let Some(acpi) = &machine.acpi else {
        unreachable!()
    };
    put_rsdp(blob, &head_of(acpi, 1).oem_id, xsdt)
}
