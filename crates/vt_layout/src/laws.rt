//! Laws over all layouts, each the contract of a function that does nothing.

ghost use Rattle.std.specs.Prelude.{◌≡◌, ◌≤◌, ◌+◌, ◌↔◌, ℕ, List, Some, Ok, length};
ghost use Rattle.std.specs.List.{AllByRecursion};
ghost use Rattle.vt_layout.specs.declared.row.Row.{Row};
ghost use Rattle.vt_layout.specs.Rows.{IsRow, IsPlain, size, shape, linked, spelled, number, text};
ghost use Rattle.vt_layout.specs.Reading.{row_at, read_number, read_name, IsNumber, IsNamed, IsReadable, rows_in};
ghost use Rattle.vt_bytes.specs.View.{View, bytes_in, view_of};
ghost use Rattle.vt_layout.specs.Shown.{Shown, LayoutShown, Held};
ghost use Rattle.vt_layout.specs.Entries.{Entry, Types, entries_rows, linked_entries, IsOfType, EntriesShown};
ghost use Rattle.vt_layout.specs.Filled.{Filled};

/// States that rows that a view holds as they were written are shown there, each pointer with its target's place added.
pub fn held_rows_are_shown()
    ensures { (view : View) (place_of : List ℕ → ℕ) (start address : ℕ) (rows : List Row)
        → AllByRecursion IsRow rows → Held view place_of start address rows → Shown view start address (linked place_of rows) }
{}

/// States that rows of one shape that one view shows at one address are the same.
pub fn shown_rows_are_the_same()
    ensures { (view : View) (start address : ℕ) (rows others : List Row)
        → Shown view start address rows → Shown view start address others → shape rows ≡ shape others → rows ≡ others }
{}

/// States that rows without pointers and sums are shown where the bytes that they are written as stand alone.
pub fn spelled_rows_are_shown()
    ensures { (rows : List Row) → AllByRecursion IsRow rows → AllByRecursion IsPlain rows → LayoutShown (view_of (spelled rows)) 0 rows }
{}

/// States that where rows are shown in bytes, a reader takes the number, or the name, of each.
pub fn shown_rows_are_read()
    ensures number { (bytes : List ℕ) (rows : List Row) (k count : ℕ) → LayoutShown (view_of bytes) 0 rows → IsNumber count (row_at k rows)
        → read_number k rows bytes ≡ number k rows }
    ensures name { (bytes : List ℕ) (rows : List Row) (k : ℕ) → LayoutShown (view_of bytes) 0 rows → IsNamed (row_at k rows)
        → read_name k rows bytes ≡ Ok (text k rows) }
{}

/// States that bytes are shown as rows of a shape, where any bytes can be such rows and there are enough of them.
pub fn bytes_are_shown_as_rows()
    ensures shown { (kinds : List Row) (bytes : List ℕ) → AllByRecursion IsReadable kinds → size kinds ≤ length bytes
        → LayoutShown (view_of bytes) 0 (rows_in kinds bytes) }
    ensures shaped { (kinds : List Row) (bytes : List ℕ) → shape (rows_in kinds bytes) ≡ shape kinds }
{}

/// States that bytes that a view shows are shown there as rows of a shape, where any bytes can be such rows and there are enough of
/// them.
pub fn bytes_of_a_view_are_rows()
    ensures { (view : View) (start address count : ℕ) (kinds : List Row) (bytes : List ℕ) → AllByRecursion IsReadable kinds
        → size kinds ≤ count → bytes_in view address count ≡ Some bytes → Shown view start address (rows_in kinds bytes) }
{}

/// States that entries that a view holds as they were written are shown there, each pointer with its target's place added. They
/// fill the bytes that their rows have.
pub fn held_entries_are_shown()
    ensures { (types : Types) (view : View) (place_of : List ℕ → ℕ) (start address : ℕ) (entries : List Entry)
        → AllByRecursion IsRow (entries_rows entries) → AllByRecursion (IsOfType types) (linked_entries place_of entries)
        → Held view place_of start address (entries_rows entries)
        → EntriesShown types view start address (size (entries_rows entries)) (linked_entries place_of entries) }
{}

/// States that one view shows at most one list of entries at one address, within one number of bytes.
pub fn shown_entries_are_the_same()
    ensures { (types : Types) (view : View) (start address count : ℕ) (entries others : List Entry)
        → EntriesShown types view start address count entries → EntriesShown types view start address count others → entries ≡ others }
{}

/// States that rows that end within a layout that may be shorter are shown in it exactly where they are shown in the view.
pub fn rows_within_are_shown()
    ensures { (view : View) (start end address : ℕ) (fillings rows : List Row) → length fillings ≡ length rows → address + size rows ≤ end
        → Filled view start end address fillings rows ↔ Shown view start address rows }
{}

/// States that rows of one shape that one view shows at one address, and that are filled in alike past one end, are the same.
pub fn filled_rows_are_the_same()
    ensures { (view : View) (start end address : ℕ) (fillings rows others : List Row) → Filled view start end address fillings rows
        → Filled view start end address fillings others → shape rows ≡ shape others → rows ≡ others }
{}
