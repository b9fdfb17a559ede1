//! Laws over the definitions, each the contract of a function that does nothing.

ghost use Rattle.std.specs.Prelude.{◌≡◌, ℕ, ◌+◌, ◌^◌, ◌<◌, List, [], ◌∷◌, ◌++◌};
ghost use Rattle.std.specs.Borrow.{Bor};
ghost use Rattle.std.specs.List.{AllByRecursion};
ghost use Rattle.vt_bytes.specs.Parts.{part};
ghost use Rattle.vt_layout.specs.declared.row.Row.{Row};
ghost use Rattle.vt_layout.specs.Rows.{IsRow, size};
ghost use Rattle.blob_holes.specs.declared.part.Part.{Part};
ghost use Rattle.blob_holes.specs.declared.part.Part.TheVariants.{Bytes};
ghost use Rattle.blob_holes.specs.Blob.{BlobState, IsBlob, next_place, aligned};
ghost use Rattle.blob_holes.specs.Rows.{AreRows, with_rows};
ghost use Rattle.blob_holes.specs.Plain.{Spells, bytes_row};
ghost use Rattle.blob_holes.specs.Parts.{StandFor, part_rows};
ghost use Rattle.blob_holes.specs.Appended.{IsAppended};
ghost use Rattle.blob_holes.specs.Filled.{IsSolid, IsFilled, PlacesFit, AreInOrder, with_pointers, with_sums};

/// States that adding the places and then subtracting the sums, each in its order, fills every hole, where each place fits its
/// field and no sum's byte lies in the range of a sum before it.
pub fn pointers_then_sums_fill()
    ensures { (blob : BlobState) (place_of : List ℕ → ℕ) → IsBlob blob → PlacesFit blob place_of → AreInOrder blob.sums
        → IsFilled blob place_of (with_sums (with_pointers blob.bytes blob.pointers place_of) blob.sums) }
{}

/// States that a part of a filled blob that has no byte of a hole is what it was.
pub fn solid_parts_stay()
    ensures { (blob : BlobState) (place_of : List ℕ → ℕ) (bytes : List ℕ) (at count : ℕ) → IsFilled blob place_of bytes
        → ((i : ℕ) → i < count → IsSolid blob (at + i)) → part bytes at count ≡ part blob.bytes at count }
{}

/// States that a file with a layout's rows at its end is a file with holes still, to which the layout was appended.
pub fn rows_at_its_end_are_appended()
    ensures kept { (align : ℕ) (blob : BlobState) (rows : List Row) → IsBlob blob → AreRows rows → next_place align blob + size rows < 2 ^ 32
        → IsBlob (with_rows (aligned align blob) rows) }
    ensures appended { (align : ℕ) (blob : BlobState) (rows : List Row) → IsBlob blob → AreRows rows → next_place align blob + size rows < 2 ^ 32
        → IsAppended align blob (with_rows (aligned align blob) rows) rows }
{}

/// States that one row spells any bytes, and that rows one after the other spell what each of them spells, one after the other.
pub fn rows_spell_their_bytes()
    ensures one { (bytes : List ℕ) → Spells (bytes_row bytes ∷ []) bytes }
    ensures behind { (rows more : List Row) (bytes others : List ℕ) → Spells rows bytes → Spells more others
        → Spells (rows ++ more) (bytes ++ others) }
{}

/// States that one row of each part stands for parts, and that whatever plain rows spell bytes stand for the one part of these bytes.
/// All rows that stand for parts have as many bytes, and values that fit them where those of the parts do.
pub fn rows_stand_for_their_parts()
    ensures canonical { (parts : List Part) → StandFor parts (part_rows parts) }
    ensures bytes { (bytes : Bor (List ℕ)) (rows : List Row) → Spells rows bytes.now → StandFor (Bytes bytes ∷ []) rows }
    ensures size { (parts : List Part) (rows : List Row) → StandFor parts rows → size rows ≡ size (part_rows parts) }
    ensures fit { (parts : List Part) (rows : List Row) → StandFor parts rows → AllByRecursion IsRow (part_rows parts)
        → AllByRecursion IsRow rows }
{}
