ghost use Rattle.std.specs.Prelude.{◌≡◌, ◌<◌, ◌^◌, length, IfOk, OnOk, IsSome, IsSomeAnd};
ghost use Rattle.machine_desc.specs.Rules.{IsAccepted};
ghost use Rattle.acpi_model.specs.MachineMcfg.{mapped, mcfg_of_bridge};
ghost use Rattle.acpi_model.specs.declared.acpi.Table.TheVariants.{Mcfg};
ghost use Rattle.blob_holes.specs.Blob.{next_place};
ghost use Rattle.acpi_append.specs.Tables.{IsTablePut};

use acpi_append::put_table;
use acpi_model::{Table, mcfg_of_bridge};
use blob_holes::Blob;
use machine_desc::Machine;
use vt_outside::OutOfMemory;

/// Appends the MCFG of `machine`, which is accepted and has a bridge with configuration space in memory, to `blob` at the next multiple of
/// 16, and returns its offset in bytes. `blob` has less than 2 GiB before. Returns `OutOfMemory` when memory runs out; what `blob` then
/// holds is unspecified.
pub fn append_mcfg(blob: &mut Blob, machine: &Machine) -> Result<u32, OutOfMemory>
    requires accepted { IsAccepted machine.now }
    requires wanted { IsSome (mapped machine.now.bridge) }
    requires short { length blob.old.bytes < 2 ^ 31 }

    // Where the table is in the file.
    ensures place { IfOk result (λ place. place ≡ next_place 16 blob.old) }

    // What the file then is, exactly; that it has only grown, and can be linked as before; and that wherever a view holds it with its
    // holes filled, the machine's table stands at its place.
    ensures put { OnOk result (IsSomeAnd machine.now.acpi (λ acpi. IsSomeAnd (mapped machine.now.bridge) (λ bridge.
        IsTablePut blob.old blob.new (Mcfg (mcfg_of_bridge acpi bridge))))) }
{
    let (Some(acpi), Some(bridge)) = (&machine.acpi, &machine.bridge) else {
        unreachable!()
    };
    let mcfg = mcfg_of_bridge(blob.alloc(), acpi, bridge)?;
    put_table(blob, &Table::Mcfg(mcfg))
}
