ghost use Rattle.std.specs.Prelude.{◌≡◌, ◌<◌, ◌^◌, length, IfOk, OnOk, IsSome, IsSomeAnd};
ghost use Rattle.machine_desc.specs.Rules.{IsAccepted};
ghost use Rattle.acpi_model.specs.MachineMadt.{madt_of_machine};
ghost use Rattle.acpi_model.specs.declared.acpi.Table.TheVariants.{Madt};
ghost use Rattle.blob_holes.specs.Blob.{next_place};
ghost use Rattle.acpi_append.specs.Tables.{IsTablePut};

use acpi_append::put_table;
use acpi_model::{Table, madt_of_machine};
use blob_holes::Blob;
use machine_desc::Machine;
use vt_outside::OutOfMemory;

/// Appends the MADT of `machine`, which is accepted and has interrupt controllers, to `blob` at the next multiple of 16, and returns its offset in
/// bytes. It names the processors, the I/O APICs, the overrides and the NMIs. `blob` has less than 2 GiB before. Returns
/// `OutOfMemory` when memory runs out; what `blob` then holds is unspecified.
pub fn append_madt(blob: &mut Blob, machine: &Machine) -> Result<u32, OutOfMemory>
    requires accepted { IsAccepted machine.now }
    requires wanted { IsSome machine.now.apic }
    requires short { length blob.old.bytes < 2 ^ 31 }

    // Where the table is in the file.
    ensures place { IfOk result (λ place. place ≡ next_place 16 blob.old) }

    // What the file then is, exactly; that it has only grown, and can be linked as before; and that wherever a view holds it with its
    // holes filled, the machine's table stands at its place.
    ensures put { OnOk result (IsSomeAnd machine.now.acpi (λ acpi. IsSomeAnd machine.now.apic (λ apic.
        IsTablePut blob.old blob.new (Madt (madt_of_machine machine.now acpi apic))))) }
{
    let (Some(acpi), Some(apic)) = (&machine.acpi, machine.apic) else {
        unreachable!()
    };
    let madt = madt_of_machine(blob.alloc(), machine, acpi, apic)?;
    put_table(blob, &Table::Madt(madt))
}
