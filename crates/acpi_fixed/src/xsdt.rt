ghost use Rattle.std.specs.Prelude.{◌≡◌, ◌+◌, ◌*◌, ◌<◌, ◌≤◌, ◌^◌, length, IfOk, OnOk, IsSome, IsSomeAnd};
ghost use Rattle.machine_desc.specs.Rules.{IsAccepted};
ghost use Rattle.acpi_model.specs.Header.{head_of};
ghost use Rattle.acpi_model.specs.Xsdt.{most_entries};
ghost use Rattle.blob_holes.specs.Blob.{next_place};
ghost use Rattle.acpi_append.specs.Tables.{IsXsdtPut};

use acpi_append::put_xsdt;
use acpi_model::head_of;
use blob_holes::Blob;
use machine_desc::Machine;
use vt_outside::OutOfMemory;

/// Appends the XSDT of `machine`, which is accepted and has ACPI tables, to `blob` at the next multiple of 16, and returns its
/// offset in bytes. Its entries are `tables`, at most 256 offsets of tables in the file `TABLES_FILE`, in bytes. `blob` has
/// less than 2 GiB before. Returns `OutOfMemory` when memory runs out; what `blob` then holds is unspecified.
pub fn append_xsdt(blob: &mut Blob, machine: &Machine, tables: &[u32]) -> Result<u32, OutOfMemory>
    requires accepted { IsAccepted machine.now }
    requires wanted { IsSome machine.now.acpi }
    requires short { length blob.old.bytes < 2 ^ 31 }
    requires few { length tables.now ≤ most_entries }

    // Where the XSDT is in the file, and how many bytes the file then has.
    ensures place { IfOk result (λ place. place ≡ next_place 16 blob.old) }
    ensures size { OnOk result (length blob.new.bytes ≡ next_place 16 blob.old + (36 + 8 * length tables.now)) }

    // What the file then is, exactly; that it has only grown, and can be linked as before; and that wherever a view holds it with its
    // holes filled, the XSDT stands at its place, and names each table that isn't at zero.
    ensures put { OnOk result (IsSomeAnd machine.now.acpi (λ acpi. IsXsdtPut blob.old blob.new (head_of acpi 1) tables.now)) }
{
    let Some(acpi) = &machine.acpi else {
        unreachable!()
    };
    put_xsdt(blob, &head_of(acpi, 1), tables)
}
