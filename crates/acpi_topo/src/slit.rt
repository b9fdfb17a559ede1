ghost use Rattle.std.specs.Prelude.{◌≡◌, ◌<◌, ◌^◌, length, IfOk, OnOk, IsSome, IsSomeAnd};
ghost use Rattle.machine_desc.specs.Rules.{IsAccepted};
ghost use Rattle.acpi_model.specs.MachineSlit.{slit_of_machine};
ghost use Rattle.acpi_model.specs.declared.acpi.Table.TheVariants.{Slit};
ghost use Rattle.blob_holes.specs.Blob.{next_place};
ghost use Rattle.acpi_append.specs.Tables.{IsTablePut};

use acpi_append::put_table;
use acpi_model::{Table, slit_of_machine};
use blob_holes::Blob;
use machine_desc::Machine;
use vt_outside::OutOfMemory;

/// Appends the SLIT of `machine`, which is accepted and has nodes, to `blob` at the next multiple of 16, and returns its offset in
/// bytes. It gives the distance between each two nodes. `blob` has less than 2 GiB before. Returns
/// `OutOfMemory` when memory runs out; what `blob` then holds is unspecified.
pub fn append_slit(blob: &mut Blob, machine: &Machine) -> Result<u32, OutOfMemory>
    requires accepted { IsAccepted machine.now }
    requires wanted { IsSome machine.now.numa }
    requires short { length blob.old.bytes < 2 ^ 31 }

    // Where the table is in the file.
    ensures place { IfOk result (λ place. place ≡ next_place 16 blob.old) }

    // What the file then is, exactly; that it has only grown, and can be linked as before; and that wherever a view holds it with its
    // holes filled, the machine's table stands at its place.
    ensures put { OnOk result (IsSomeAnd machine.now.acpi (λ acpi. IsSomeAnd machine.now.numa (λ numa.
        IsTablePut blob.old blob.new (Slit (slit_of_machine acpi numa))))) }
{
    let (Some(acpi), Some(numa)) = (&machine.acpi, &machine.numa) else {
        unreachable!()
    };
    let slit = slit_of_machine(blob.alloc(), acpi, numa)?;
    put_table(blob, &Table::Slit(slit))
}
