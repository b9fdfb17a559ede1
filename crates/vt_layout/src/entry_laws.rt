//! Laws over bytes that are to be entries of a type and a length, each the contract of a function that does nothing.

ghost use Rattle.std.specs.Prelude.{◌≡◌, ◌+◌, ◌-◌, ◌≤◌, ◌⊎◌, ℕ, List, Some};
ghost use Rattle.vt_bytes.specs.View.{View, bytes_in, number_in};
ghost use Rattle.vt_layout.specs.Entries.{Entry, Types, IsEntry, EntriesShown};
ghost use Rattle.vt_layout.specs.BadEntries.{least_length, FirstBad, AreReadable, entry_in};

/// States that so many bytes at an address are entries of some types or have a first bad one, and never both, and that at most one
/// of them is the first bad one. Where an entry's type and length stand and its length is enough, the entry is what its bytes are.
pub fn bytes_are_entries_or_hold_a_bad_one()
    ensures either { (types : Types) (view : View) (start address count : ℕ) (bytes : List ℕ) → AreReadable types
        → bytes_in view address count ≡ Some bytes
        → ((entries : List Entry) × EntriesShown types view start address count entries)
        ⊎ ((before : List Entry) × (bad : ℕ) × FirstBad types view start address count before bad) }
    ensures not_both { (types : Types) (view : View) (start address count : ℕ) (entries before : List Entry) (bad : ℕ)
        → EntriesShown types view start address count entries → FirstBad types view start address count before bad → ⊥ }
    ensures one_bad { (types : Types) (view : View) (start address count : ℕ) (before others : List Entry) (bad other : ℕ)
        → FirstBad types view start address count before bad → FirstBad types view start address count others other → bad ≡ other }
    ensures stands { (types : Types) (view : View) (start address kind length : ℕ) (body : List ℕ) → AreReadable types
        → number_in view address 1 ≡ Some kind → number_in view (address + 1) 1 ≡ Some length → least_length (types kind) ≤ length
        → bytes_in view (address + 2) (length - 2) ≡ Some body
        → IsEntry types view start address length (entry_in (types kind) kind length body) }
{}
