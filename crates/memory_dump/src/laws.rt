//! Laws over all memories and all texts, each the contract of a function that does nothing.

ghost use Rattle.std.specs.Prelude.{◌≡◌, ◌≢◌, ◌+◌, ◌<◌, ◌^◌, ◌++◌, ℕ, List, [], Ok, Err, Some, length};
ghost use Rattle.vt_bytes.specs.Memory.{Memory, IsMemory};
ghost use Rattle.memory_dump.specs.declared.fault.DumpFault.TheVariants.{OutOfMemory as NoMemory, Truncated};
ghost use Rattle.memory_dump.specs.declared.row.Row.{Row};
ghost use Rattle.memory_dump.specs.Dump.{dump};
ghost use Rattle.guest_memory.specs.Bytes.{HoldsBytes};
ghost use Rattle.memory_dump.specs.Rows.{AreRows, IsSpelled, Rows, memory_of, rows_of, text_of};
ghost use Rattle.memory_dump.specs.Reading.{read_so, row_of};
ghost use Rattle.vt_outside.specs.Stream.{line_feeds};

/// States that the text of a memory is that of its rows which aren't all the fill byte, and that these are a lawful dump's.
pub fn a_text_is_that_of_rows()
    ensures text { (m : Memory) → dump m ≡ text_of (rows_of m) }
    ensures lawful { (m : Memory) → IsMemory m → HoldsBytes m → AreRows (rows_of m) }
{}

/// States that a dump has a line for each of its rows, and two more: the first one, and the last.
pub fn a_dump_has_a_line_for_each_row()
    ensures { (m : Memory) → IsMemory m → HoldsBytes m → line_feeds (dump m) ≡ length (rows_of m).rows + 2 }
{}

/// States that the rows of the memory that a lawful dump's rows make are these rows, and that the rows of a memory make it.
pub fn rows_and_memories_are_one()
    ensures rows { (d : Rows) → AreRows d → rows_of (memory_of d) ≡ d }
    ensures memory { (m : Memory) → IsMemory m → HoldsBytes m → memory_of (rows_of m) ≡ m }
{}

/// States that a line is read as a row exactly where it is spelled as the row's: an address is below 2^32.
pub fn a_line_is_read_as_it_is_spelled()
    ensures read { (line : List ℕ) (row : Row) → row_of line ≡ Some row → IsSpelled line row }
    ensures spelled { (line : List ℕ) (row : Row) → row.address < 2 ^ 32 → IsSpelled line row → row_of line ≡ Some row }
{}

/// States that bytes are read as a memory exactly where they are its text, and that no fault of theirs is want of memory.
pub fn bytes_are_read_as_the_memory_of_their_text()
    ensures text { (bytes : List ℕ) (m : Memory) → read_so bytes ≡ Ok m → dump m ≡ bytes }
    ensures lawful { (bytes : List ℕ) (m : Memory) → read_so bytes ≡ Ok m → IsMemory m }
    ensures holds { (bytes : List ℕ) (m : Memory) → read_so bytes ≡ Ok m → HoldsBytes m }
    ensures read { (m : Memory) → IsMemory m → HoldsBytes m → read_so (dump m) ≡ Ok m }
    ensures fault { (bytes : List ℕ) → read_so bytes ≢ Err NoMemory }
{}

/// States that memories with one text are equal.
pub fn memories_of_one_text_are_equal()
    ensures { (m other : Memory) → IsMemory m → HoldsBytes m → IsMemory other → HoldsBytes other → dump m ≡ dump other → m ≡ other }
{}

/// States that each front of a text but the whole is cut off.
pub fn fronts_of_a_text_are_cut_off()
    ensures { (m : Memory) (front rest : List ℕ) → IsMemory m → HoldsBytes m → dump m ≡ front ++ rest → rest ≢ []
        → read_so front ≡ Err Truncated }
{}
