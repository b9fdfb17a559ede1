ghost use Rattle.std.specs.Prelude.{◌≡◌, IfOk};
ghost use Rattle.std.specs.List.{AllByRecursion};
ghost use Rattle.vt_layout.specs.Rows.{IsRow};
ghost use Rattle.acpi_model.specs.Links.{link_row};
ghost use Rattle.acpi_model.specs.FadtKind.{link_rows};
ghost use Rattle.acpi_model.specs.declared.acpi.Table.TheVariants.{Fadt as FadtTable};
ghost use Rattle.acpi_append.specs.Tables.{front_rows};

use crate::table::tables_name;
use acpi_model::{
    FADT_DSDT_ROW, FADT_FACS_ROW, FADT_X_DSDT_ROW, FADT_X_FACS_ROW, Fadt, FadtLinks, Link,
};
use std::alloc::Global;
use vt_layout::{Row, RowList, rows_of};
use vt_outside::OutOfMemory;

/// Returns the rows of `fadt`, with zeros for its signature, its length and its checksum, and with the pointers `links` in their places.
/// Each of these fits its row. The memory is taken from `alloc`. Returns `OutOfMemory` when memory runs out.
pub(crate) fn fadt_rows<'a>(
    alloc: Global,
    fadt: &'a Fadt,
    links: &FadtLinks,
) -> Result<RowList<'a>, OutOfMemory>
    requires lead { AllByRecursion IsRow (link_rows links.now) }
    ensures rows { IfOk result (λ list. list.rows ≡ front_rows (FadtTable fadt.now links.now)) }
{
    let mut rows = rows_of(alloc, fadt)?;
    rows.set(FADT_FACS_ROW, link_row(4, links.firmware_ctrl));
    rows.set(FADT_DSDT_ROW, link_row(4, links.dsdt));
    rows.set(FADT_X_FACS_ROW, link_row(8, links.x_firmware_ctrl));
    rows.set(FADT_X_DSDT_ROW, link_row(8, links.x_dsdt));
    Ok(rows)
}

// The row of a pointer of `width` bytes.
fn link_row(width: u8, link: Link) -> Row
    requires { IsRow (link_row width link) }
    ensures row { result ≡ link_row width link }
    ensures fits { IsRow result }
{
    match link {
        Link::Offset(offset) => Row::Pointer(width, tables_name(), offset),
        Link::Address(address) => Row::Number(width, address),
    }
}
