//! Laws over all records, each the contract of a function that does nothing.

ghost use Rattle.std.specs.Prelude.{◌≡◌, ◌<◌, ◌≤◌, ◌↔◌, ◌++◌, ℕ, List, [], Ok, Err, length};
ghost use Rattle.std.specs.List.{AllByRecursion};
ghost use Rattle.vt_bytes.specs.View.{View, view_of};
ghost use Rattle.vt_layout.specs.declared.record_reader.RecordFault.TheVariants.{TooShort, NoSuchString};
ghost use Rattle.vt_layout.specs.Rows.{IsRow, size, string_numbers};
ghost use Rattle.vt_layout.specs.Shown.{Held};
ghost use Rattle.vt_layout.specs.Strings.{IsFirstMissing};
ghost use Rattle.vt_layout.specs.Reading.{rows_in};
ghost use Rattle.vt_layout.specs.Values.{values_of};
ghost use Rattle.vt_layout.specs.Fields.{field_rows, field_texts, numbered_rows, field_bytes, field_strings};
ghost use Rattle.vt_layout.specs.Records.{IsLaid, kinds_of, record_in};

use crate::laid::Laid;

/// States that a record that is read of bytes stands at their front, and that one that stands there is read, where the bytes reach
/// to the end of its rows.
pub fn record_is_read_where_it_stands<T: Laid>()
    ensures stands { (area : List ℕ) (strings : List (List ℕ)) (t : T) → record_in T.fields T.made area strings ≡ Ok t
        → IsLaid T.fields T.made (view_of area) 0 0 strings t }
    ensures read { (area : List ℕ) (strings : List (List ℕ)) (t : T) → size (kinds_of T.fields T.made) ≤ length area
        → IsLaid T.fields T.made (view_of area) 0 0 strings t → record_in T.fields T.made area strings ≡ Ok t }
{}

/// States that a record without texts that is read of bytes is made of the values of the rows that the bytes are.
pub fn record_without_texts_is_of_its_rows<T: Laid>()
    ensures { (area : List ℕ) (strings : List (List ℕ)) (t : T) → field_texts (T.fields (T.made [])) ≡ []
        → record_in T.fields T.made area strings ≡ Ok t
        → t ≡ T.made (values_of (rows_in (field_rows (T.fields (T.made []))) area) []) }
{}

/// States when each fault of reading comes: where bytes end before the record's rows, and else where a row has a number that is no
/// string's, of which the first is told.
pub fn first_fault_is_told<T: Laid>()
    ensures short { (area : List ℕ) (strings : List (List ℕ))
        → (record_in T.fields T.made area strings ≡ Err TooShort) ↔ (length area < size (kinds_of T.fields T.made)) }
    ensures missing { (area : List ℕ) (strings : List (List ℕ)) (number : ℕ) → size (kinds_of T.fields T.made) ≤ length area
        → (record_in T.fields T.made area strings ≡ Err (NoSuchString number))
        ↔ IsFirstMissing strings (string_numbers (rows_in (kinds_of T.fields T.made) area)) number }
{}

/// States that two records that one view shows at one address, with the same strings, are equal.
pub fn one_record_stands_at_a_place<T: Laid>()
    ensures { (view : View) (start address : ℕ) (strings : List (List ℕ)) (t u : T)
        → IsLaid T.fields T.made view start address strings t → IsLaid T.fields T.made view start address strings u → t ≡ u }
{}

/// States that a record stands wherever a view holds its rows as they were written, with the strings that its texts are.
pub fn written_record_stands<T: Laid>()
    ensures { (t : T) (view : View) (place_of : List ℕ → ℕ) (start address : ℕ) → AllByRecursion IsRow (numbered_rows (T.fields t))
        → Held view place_of start address (numbered_rows (T.fields t))
        → IsLaid T.fields T.made view start address (field_strings (T.fields t)) t }
{}

/// States that the bytes and the strings that a record is written as are read as the record, whatever follows the bytes.
pub fn written_record_is_read<T: Laid>()
    ensures { (t : T) (more : List ℕ) → AllByRecursion IsRow (numbered_rows (T.fields t))
        → record_in T.fields T.made (field_bytes (T.fields t) ++ more) (field_strings (T.fields t)) ≡ Ok t }
{}
