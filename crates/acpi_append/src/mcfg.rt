ghost use Rattle.std.specs.Prelude.{◌≡◌, ◌++◌, List, IfOk, OnOk};
ghost use Rattle.vt_layout.specs.declared.row.Row.{Row as ARow};
ghost use Rattle.vt_layout.specs.Fields.{field_rows};
ghost use Rattle.blob_holes.specs.Plain.{Spells};
ghost use Rattle.acpi_model.specs.Mcfg.{allocation_fields, allocations_rows};
ghost use Rattle.acpi_model.specs.declared.acpi.Table.TheVariants.{Mcfg as McfgTable};
ghost use Rattle.acpi_append.specs.Tables.{front_rows};

use acpi_records::{Mcfg, McfgAllocation, McfgFront};
use std::alloc::Global;
use vt_layout::{Laid, RowList, put_rows, rows_of};
use vt_outside::{Bytes, OutOfMemory};

/// Returns the rows of `mcfg` before its allocations, with zeros for its signature, its length and its checksum. The memory is taken from
/// `alloc`. Returns `OutOfMemory` when memory runs out.
pub(crate) fn mcfg_rows<'a>(alloc: Global, mcfg: &'a Mcfg) -> Result<RowList<'a>, OutOfMemory>
    ensures { IfOk result (λ list. list.rows ≡ front_rows (McfgTable mcfg.now)) }
{
    let mut rows = RowList::with_room(alloc, McfgFront::ROWS)?;
    mcfg.head.put(&mut rows);
    rows.reserved(8);
    Ok(rows)
}

/// Returns the allocations of `mcfg` as bytes. The memory is taken from `alloc`. Returns `OutOfMemory` when memory runs out.
pub(crate) fn mcfg_bytes(alloc: Global, mcfg: &Mcfg) -> Result<Bytes, OutOfMemory>
    ensures { IfOk result (λ bytes. Spells (allocations_rows mcfg.now.allocations) bytes) }
{
    let mut bytes = Bytes::new(alloc);
    for allocation in mcfg.allocations.as_slice() {
        put_allocation(&mut bytes, alloc, allocation)?;
    }
    Ok(bytes)
}

// Appends an allocation to others.
fn put_allocation(
    bytes: &mut Bytes,
    alloc: Global,
    allocation: &McfgAllocation,
) -> Result<(), OutOfMemory>
    ensures { OnOk result ((rows : List ARow) → Spells rows bytes.old → Spells (rows ++ field_rows (allocation_fields allocation.now)) bytes.new) }
{
    let rows = rows_of(alloc, allocation)?;
    put_rows(bytes, rows.rows())
}
