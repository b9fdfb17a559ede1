ghost use Rattle.std.specs.Prelude.{◌≡◌, ◌<◌, ◌^◌, length, IfOk, OnOk, IsSome, IsSomeAnd};
ghost use Rattle.machine_desc.specs.Rules.{IsAccepted};
ghost use Rattle.acpi_records.specs.Hpet.{hpet_of};
ghost use Rattle.acpi_model.specs.declared.acpi.Table.TheVariants.{Hpet};
ghost use Rattle.blob_holes.specs.Blob.{next_place};
ghost use Rattle.acpi_append.specs.Tables.{IsTablePut};

use acpi_append::put_table;
use acpi_model::{Table, hpet_of};
use blob_holes::Blob;
use machine_desc::Machine;
use vt_outside::OutOfMemory;

/// Appends the HPET table of `machine`, which is accepted and has one, to `blob` at the next multiple of 16, and returns its
/// offset in bytes. `blob` has less than 2 GiB before. Returns `OutOfMemory` when memory runs out; what `blob` then holds is
/// unspecified.
pub fn append_hpet(blob: &mut Blob, machine: &Machine) -> Result<u32, OutOfMemory>
    requires accepted { IsAccepted machine.now }
    requires wanted { IsSome machine.now.hpet }
    requires short { length blob.old.bytes < 2 ^ 31 }

    // Where the table is in the file.
    ensures place { IfOk result (λ place. place ≡ next_place 16 blob.old) }

    // What the file then is, exactly; that it has only grown, and can be linked as before; and that wherever a view holds it with its
    // holes filled, the machine's table stands at its place.
    ensures put { OnOk result (IsSomeAnd machine.now.acpi (λ acpi. IsSomeAnd machine.now.hpet (λ hpet.
        IsTablePut blob.old blob.new (Hpet (hpet_of acpi hpet))))) }
{
    let (Some(acpi), Some(hpet)) = (&machine.acpi, machine.hpet) else {
        unreachable!()
    };
    put_table(blob, &Table::Hpet(hpet_of(acpi, hpet)))
}
