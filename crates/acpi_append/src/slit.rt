ghost use Rattle.std.specs.Prelude.{◌≡◌, IfOk};
ghost use Rattle.acpi_model.specs.declared.acpi.Table.TheVariants.{Slit as SlitTable};
ghost use Rattle.acpi_append.specs.Tables.{front_rows};

use acpi_records::{Slit, SlitFront};
use std::alloc::Global;
use vt_layout::{Laid, RowList};
use vt_outside::OutOfMemory;

/// Returns the rows of `slit` before its distances, with zeros for its signature, its length and its checksum. The memory is taken from
/// `alloc`. Returns `OutOfMemory` when memory runs out.
pub(crate) fn slit_rows<'a>(alloc: Global, slit: &'a Slit) -> Result<RowList<'a>, OutOfMemory>
    ensures { IfOk result (λ list. list.rows ≡ front_rows (SlitTable slit.now)) }
{
    let mut rows = RowList::with_room(alloc, SlitFront::ROWS)?;
    slit.head.put(&mut rows);
    rows.qword(slit.count);
    Ok(rows)
}
