//! What readers take from bytes that were made by hand.

ghost use Rattle.std.specs.Prelude.{[], ◌∷◌, take};
ghost use Rattle.vt_layout.specs.View.{view_of};
ghost use Rattle.vt_layout.specs.Entries.{EntriesShown};
ghost use Rattle.vt_layout.specs.BadEntries.{FirstBad};
ghost use Rattle.vt_layout.specs.Filled.{Filled, blank};
ghost use Rattle.test_ground.specs.Worked.{types, entries, entries_bytes, short_entry, short_bytes, short_rows};

use std::test::Fail;

#[test]
fn worked_rows(rt: HostRuntime) -> Result<(), Fail> {
    let _rt = rt;
    worked_entries();
    worked_bad_entries();
    worked_short_rows();
    Ok(())
}

// Bytes past an entry's rows are ignored, and an entry of another type is its type and its length.
fn worked_entries()
    ensures { EntriesShown types (view_of entries_bytes) 0 0 20 entries }
{}

// The third entry has three bytes, which may be more than are left, and one byte is no type and length. An entry of a processor has at
// least eight bytes.
fn worked_bad_entries()
    ensures runs_past { FirstBad types (view_of entries_bytes) 0 0 19 (take 2 entries) 17 }
    ensures one_byte { FirstBad types (view_of entries_bytes) 0 0 18 (take 2 entries) 17 }
    ensures too_short { FirstBad types (view_of short_entry) 0 0 8 [] 0 }
{}

// Rows that don't end within the layout are filled with zeros; in a layout of all 8 bytes they are what stands there.
fn worked_short_rows()
    ensures short { Filled (view_of short_bytes) 0 3 0 (blank (short_rows 1 1 [])) (short_rows 0x1234 0 (0 ∷ 0 ∷ [])) }
    ensures whole { Filled (view_of short_bytes) 0 8 0 (blank (short_rows 1 1 [])) (short_rows 0x1234 0x12345678 (0x41 ∷ 0x42 ∷ [])) }
{}
