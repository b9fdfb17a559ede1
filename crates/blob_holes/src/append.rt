ghost use Rattle.std.specs.Prelude.{◌≡◌, ◌+◌, ◌<◌, ◌^◌, [], ◌∷◌, ◌++◌, length, slice_index, IfOk, OnOk, IsTrue};
ghost use Rattle.std.specs.Int.{is_power_of_two};
ghost use Rattle.std.specs.List.{AllByRecursion};
ghost use Rattle.vt_layout.specs.Rows.{IsRow, width_of, bytes_of, size};
ghost use Rattle.vt_layout.specs.Shown.{LayoutHeld};
ghost use Rattle.blob_holes.specs.declared.hole.SumHole.{SumHole};
ghost use Rattle.blob_holes.specs.Blob.{IsBlob, FitsSum, next_place};
ghost use Rattle.blob_holes.specs.Grown.{Extends, IsLinkable};
ghost use Rattle.blob_holes.specs.Rows.{AreRows, pointer_of, sum_of, sum_holes, unsummed, with_rows};
ghost use Rattle.blob_holes.specs.Held.{WhereHeld};
ghost use Rattle.blob_holes.specs.Parts.{part_row, part_rows};
ghost use Rattle.blob_holes.specs.Appended.{IsAppendedWith};

use crate::blob::Blob;
use crate::part::Part;
use vt_layout::Row;
use vt_outside::OutOfMemory;

/// Appends the layout `rows` to `blob`, and makes a hole for each pointer and each sum among them. Each value must fit its row.
/// Each sum's byte must lie in the range that it sums, behind the ranges of the sums before it, and that range must lie in the
/// layout. The file must stay below 2^32 bytes. It fails with `OutOfMemory` only where memory runs out. `blob` is then still a
/// file with holes, but may hold a part of the rows.
pub fn append_rows(blob: &mut Blob, rows: &[Row]) -> Result<(), OutOfMemory>
    requires rows { AreRows rows.now }
    requires short { length blob.old.bytes + size rows.now < 2 ^ 32 }
    ensures file { OnOk result (blob.new ≡ with_rows blob.old rows.now) }
    ensures size { OnOk result (length blob.new.bytes ≡ length blob.old.bytes + size rows.now) }
    ensures grown { OnOk result (Extends blob.old blob.new) }
    ensures linkable { OnOk result (IsLinkable blob.old → IsLinkable blob.new) }
    ensures held { OnOk result (WhereHeld blob.new
        (λ view address place_of. LayoutHeld view place_of (address + length blob.old.bytes) rows.now)) }
{
    append_all(blob, rows, &[], &[])
}

/// Appends zeros to `blob` up to a multiple of `align` bytes, a power of two, and then, as one layout, the rows of `header`, those of
/// `body` and the parts `parts`, and makes a hole for each pointer and each sum among them. Returns the offset in the file at which the
/// layout begins. The rows must be as [`append_rows`] asks, and so must those of the parts; a sum's range may reach over the parts. The
/// file must stay below 2^32 bytes. It fails with `OutOfMemory` only where memory runs out. `blob` is then still a file with holes, but
/// may hold the zeros and a part of the layout.
pub fn append_layout(
    blob: &mut Blob,
    align: u32,
    header: &[Row],
    body: &[Row],
    parts: &[Part],
) -> Result<u32, OutOfMemory>
    requires power { IsTrue (is_power_of_two align) }
    requires rows { AreRows (header.now ++ body.now ++ part_rows parts.now) }
    requires short { next_place align blob.old + size (header.now ++ body.now ++ part_rows parts.now) < 2 ^ 32 }
    ensures place { IfOk result (λ place. place ≡ next_place align blob.old) }
    ensures appended { OnOk result (IsAppendedWith align blob.old blob.new (header.now ++ body.now) parts.now) }
{
    let place = blob.len().next_multiple_of(align);
    blob.align(align)?;
    append_all(blob, header, body, parts)?;
    Ok(place)
}

// Appends the rows of `header`, those of `body` and the parts `parts` as one layout. The sums come last, since a sum's range reaches
// behind its row.
fn append_all(
    blob: &mut Blob,
    header: &[Row],
    body: &[Row],
    parts: &[Part],
) -> Result<(), OutOfMemory>
    requires rows { AreRows (header.now ++ body.now ++ part_rows parts.now) }
    requires short { length blob.old.bytes + size (header.now ++ body.now ++ part_rows parts.now) < 2 ^ 32 }
    ensures file { OnOk result (blob.new ≡ with_rows blob.old (header.now ++ body.now ++ part_rows parts.now)) }
    ensures blob { IsBlob blob.old }
{
    let start = blob.len();
    append_unsummed(blob, header)?;
    let behind = blob.len();
    append_body(blob, body, parts)?;
    add_sums(blob, start, start, header)?;
    add_sums(blob, start, behind, body)
}

// Appends rows, whose sums are no holes yet, and the parts `parts`.
fn append_body(blob: &mut Blob, rows: &[Row], parts: &[Part]) -> Result<(), OutOfMemory>
    requires rows { AllByRecursion IsRow (rows.now ++ part_rows parts.now) }
    requires short { length blob.old.bytes + size (rows.now ++ part_rows parts.now) < 2 ^ 32 }
    ensures { OnOk result (blob.new ≡ unsummed blob.old (rows.now ++ part_rows parts.now)) }
{
    append_unsummed(blob, rows)?;
    append_parts(blob, parts)
}

// Appends parts, one after the other.
fn append_parts(blob: &mut Blob, parts: &[Part]) -> Result<(), OutOfMemory>
    requires rows { AllByRecursion IsRow (part_rows parts.now) }
    requires short { length blob.old.bytes + size (part_rows parts.now) < 2 ^ 32 }
    ensures { OnOk result (blob.new ≡ unsummed blob.old (part_rows parts.now)) }
{
    for part in parts {
        append_part(blob, part)?;
    }
    Ok(())
}

fn append_part(blob: &mut Blob, part: &Part) -> Result<(), OutOfMemory>
    requires row { IsRow (part_row part.now) }
    requires short { length blob.old.bytes + width_of (part_row part.now) < 2 ^ 32 }
    ensures { OnOk result (blob.new ≡ record blob.old {
      bytes = blob.old.bytes ++ bytes_of (part_row part.now);
      pointers = blob.old.pointers ++ pointer_of (length blob.old.bytes) (part_row part.now);
    }) }
{
    match part {
        Part::Bytes(bytes) => {
            blob.append(bytes)?;
            Ok(())
        }
        Part::Pointer { target, offset } => append_row(blob, &Row::Pointer(4, *target, *offset)),
    }
}

// Appends rows. A sum is no hole yet.
fn append_unsummed(blob: &mut Blob, rows: &[Row]) -> Result<(), OutOfMemory>
    requires rows { AllByRecursion IsRow rows.now }
    requires short { length blob.old.bytes + size rows.now < 2 ^ 32 }
    ensures { OnOk result (blob.new ≡ unsummed blob.old rows.now) }
{
    for row in rows {
        append_row(blob, row)?;
    }
    Ok(())
}

fn append_row(blob: &mut Blob, row: &Row) -> Result<(), OutOfMemory>
    requires row { IsRow row.now }
    requires short { length blob.old.bytes + width_of row.now < 2 ^ 32 }
    ensures { OnOk result (blob.new ≡ record blob.old {
      bytes = blob.old.bytes ++ bytes_of row.now;
      pointers = blob.old.pointers ++ pointer_of (length blob.old.bytes) row.now;
    }) }
{
    let at = blob.len();
    blob.append_bytes_of(row)?;
    match row {
        Row::Pointer(width, target, offset) => blob.hole_pointer(at, *width, *target, *offset),
        _ => Ok(()),
    }
}

// Makes holes of the sums of rows that stand from `at` on, in the layout that begins at `start`.
fn add_sums(blob: &mut Blob, start: u32, at: u32, rows: &[Row]) -> Result<(), OutOfMemory>
    requires fit { AllByRecursion (FitsSum blob.old) (sum_holes start at rows.now) }
    requires zero { AllByRecursion (λ (hole : SumHole). slice_index blob.old.bytes hole.at ≡ 0) (sum_holes start at rows.now) }
    requires short { at + size rows.now < 2 ^ 32 }
    ensures { OnOk result (blob.new ≡ record blob.old { sums = blob.old.sums ++ sum_holes start at rows.now }) }
{
    let mut place = at;
    for row in rows {
        add_sum(blob, start, place, row)?;
        place += row.width();
    }
    Ok(())
}

fn add_sum(blob: &mut Blob, start: u32, at: u32, row: &Row) -> Result<(), OutOfMemory>
    requires fits { AllByRecursion (FitsSum blob.old) (sum_of start at row.now) }
    requires zero { AllByRecursion (λ (hole : SumHole). slice_index blob.old.bytes hole.at ≡ 0) (sum_of start at row.now) }
    ensures { OnOk result (blob.new ≡ record blob.old { sums = blob.old.sums ++ sum_of start at row.now }) }
{
    match row {
        Row::Sum(covers) => blob.hole_sum(at, start, *covers),
        _ => Ok(()),
    }
}
