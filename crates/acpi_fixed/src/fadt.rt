ghost use Rattle.std.specs.Prelude.{◌≡◌, ◌<◌, ◌≤◌, ◌^◌, length, IfOk, OnOk, IsSome, IsSomeAnd};
ghost use Rattle.machine_desc.specs.Rules.{IsAccepted};
ghost use Rattle.acpi_model.specs.declared.acpi.Table.TheVariants.{Fadt};
ghost use Rattle.acpi_model.specs.MachineFadt.{fadt_of, fadt_links};
ghost use Rattle.blob_holes.specs.Blob.{next_place};
ghost use Rattle.acpi_append.specs.Tables.{IsTablePut};

use acpi_append::put_table;
use acpi_model::{Table, fadt_links, fadt_of};
use blob_holes::Blob;
use machine_desc::Machine;
use vt_outside::OutOfMemory;

/// Appends the FADT of `machine`, which is accepted and has power management, to `blob` at the next multiple of 16, and returns its
/// offset in bytes. `facs` and `dsdt` are the offsets of the machine's FACS and of its DSDT in the file `TABLES_FILE`, in bytes. `dsdt` is
/// at most 1 GiB, since the table also has the DSDT's address in 32 bits, wherever the file is placed. `blob` has less than 2 GiB before.
/// Returns `OutOfMemory` when memory runs out; what `blob` then holds is unspecified.
pub fn append_fadt(
    blob: &mut Blob,
    machine: &Machine,
    facs: u32,
    dsdt: u32,
) -> Result<u32, OutOfMemory>
    requires accepted { IsAccepted machine.now }
    requires wanted { IsSome machine.now.power }
    requires near { dsdt ≤ 2 ^ 30 }
    requires short { length blob.old.bytes < 2 ^ 31 }

    // Where the table is in the file.
    ensures place { IfOk result (λ place. place ≡ next_place 16 blob.old) }

    // What the file then is, exactly; that it has only grown, and can be linked as before; and that wherever a view holds it with its
    // holes filled, the machine's table stands at its place, and leads to the FACS and the DSDT.
    ensures put { OnOk result (IsSomeAnd machine.now.acpi (λ acpi. IsSomeAnd machine.now.power (λ power.
        IsTablePut blob.old blob.new (Fadt (fadt_of acpi power) (fadt_links facs dsdt))))) }
{
    let (Some(acpi), Some(power)) = (&machine.acpi, machine.power) else {
        unreachable!()
    };
    let links = fadt_links(facs, dsdt);
    put_table(blob, &Table::Fadt(fadt_of(acpi, &power), links))
}
