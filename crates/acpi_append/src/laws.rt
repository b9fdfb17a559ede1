//! Laws over the definitions. Each is the contract of a function that does nothing.

ghost use Rattle.std.specs.Prelude.{ℕ, ◌+◌, ◌<◌, ◌≤◌, ◌^◌, List, length, map};
ghost use Rattle.std.specs.List.{AllByRecursion};
ghost use Rattle.vt_layout.specs.declared.row.Row.{Row};
ghost use Rattle.vt_layout.specs.Rows.{size};
ghost use Rattle.acpi_records.specs.declared.header.Head.{Head};
ghost use Rattle.acpi_model.specs.declared.acpi.Table.{Table};
ghost use Rattle.acpi_model.specs.Xsdt.{most_entries, xsdt_rows};
ghost use Rattle.acpi_model.specs.Rsdp.{rsdp_rows};
ghost use Rattle.acpi_model.specs.Found.{IsBlockRow, dsdt_rows};
ghost use Rattle.acpi_model.specs.Acpi.{IsWritable, rows_of};
ghost use Rattle.blob_holes.specs.Blob.{BlobState, IsBlob, next_place};
ghost use Rattle.blob_holes.specs.Rows.{AreRows};
ghost use Rattle.acpi_records.specs.declared.facs.Facs.{Facs};
ghost use Rattle.acpi_records.specs.Facs.{facs_rows};
ghost use Rattle.acpi_append.specs.FacsPut.{with_facs, IsFacsPut};
ghost use Rattle.acpi_append.specs.DsdtPut.{with_dsdt, IsDsdtPut};
ghost use Rattle.acpi_append.specs.Tables.{Leads, table_pointer, with_table, with_xsdt, with_rsdp, IsTablePut, IsXsdtPut, IsRsdpPut};

/// States that a file with a table at its end, with an XSDT, with an RSDP, with a FACS or with a DSDT, is as the call says that appends it.
pub fn tables_at_its_end_are_put()
    ensures table { (file : BlobState) → IsBlob file → (table : Table) → IsWritable table → AreRows (rows_of table)
        → next_place 16 file + size (rows_of table) < 2 ^ 32 → IsTablePut file (with_table file table) table }
    ensures xsdt { (file : BlobState) → IsBlob file → (head : Head) (tables : List ℕ) → length tables ≤ most_entries
        → AreRows (xsdt_rows head (map table_pointer tables))
        → next_place 16 file + size (xsdt_rows head (map table_pointer tables)) < 2 ^ 32
        → IsXsdtPut file (with_xsdt file head tables) head tables }
    ensures rsdp { (file : BlobState) → IsBlob file → (oem_id : List ℕ) (xsdt : ℕ) → AreRows (rsdp_rows oem_id (table_pointer xsdt))
        → next_place 16 file + size (rsdp_rows oem_id (table_pointer xsdt)) < 2 ^ 32
        → IsRsdpPut file (with_rsdp file oem_id xsdt) oem_id xsdt }
    ensures facs { (file : BlobState) → IsBlob file → (facs : Facs) → AreRows (facs_rows facs) → next_place 16 file + 64 < 2 ^ 32
        → IsFacsPut file (with_facs file facs) facs }
    ensures dsdt { (file : BlobState) → IsBlob file → (head : Head) (block : List Row) → AreRows (dsdt_rows head block)
        → AllByRecursion IsBlockRow block → next_place 16 file + size (dsdt_rows head block) < 2 ^ 32
        → IsDsdtPut file (with_dsdt file head block) head block }
{}

/// States that the rows of a table that can be written, of an XSDT and of an RSDP lead to the file of the tables, where they lead to a
/// file.
pub fn tables_lead_to_their_file()
    ensures table { (table : Table) → IsWritable table → AllByRecursion Leads (rows_of table) }
    ensures xsdt { (head : Head) (tables : List ℕ) → AllByRecursion Leads (xsdt_rows head (map table_pointer tables)) }
    ensures rsdp { (oem_id : List ℕ) (xsdt : ℕ) → AllByRecursion Leads (rsdp_rows oem_id (table_pointer xsdt)) }
{}
