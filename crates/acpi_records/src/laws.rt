//! Laws over the definitions, each the contract of a function that does nothing.

ghost use Rattle.std.specs.Prelude.{◌≡◌, ℕ, List, map, sum_by};
ghost use Rattle.std.specs.List.{AllByRecursion};
ghost use Rattle.vt_bytes.specs.View.{View};
ghost use Rattle.vt_layout.specs.Rows.{IsRow, IsPlain, size, spelled};
ghost use Rattle.vt_layout.specs.Shown.{LayoutHeld};
ghost use Rattle.vt_layout.specs.Entries.{IsOfType, entries_rows, linked_entries};
ghost use Rattle.vt_layout.specs.Fields.{field_rows};
ghost use Rattle.acpi_records.specs.declared.facs.Facs.{Facs};
ghost use Rattle.acpi_records.specs.declared.fadt.Fadt.{Fadt};
ghost use Rattle.acpi_records.specs.Facs.{IsFacs, facs_rows};
ghost use Rattle.acpi_records.specs.Fadt.{fadt_fields};
ghost use Rattle.acpi_records.specs.declared.madt_entry.MadtEntry.{MadtEntry};
ghost use Rattle.acpi_records.specs.declared.srat_entry.SratEntry.{SratEntry};
ghost use Rattle.acpi_records.specs.MadtEntries.{madt_entry_of, madt_types, madt_entry, IsMadtEntry, IsFittingMadtEntry, madt_entry_size};
ghost use Rattle.acpi_records.specs.SratEntries.{srat_entry_of, srat_types, srat_entry, IsSratEntry, IsFittingSratEntry, srat_entry_size};
ghost use Rattle.acpi_records.specs.declared.madt.MadtFront.{MadtFront};
ghost use Rattle.acpi_records.specs.declared.srat.SratFront.{SratFront};
ghost use Rattle.acpi_records.specs.declared.slit.SlitFront.{SlitFront};
ghost use Rattle.acpi_records.specs.declared.mcfg.McfgFront.{McfgFront};
ghost use Rattle.acpi_records.specs.declared.mcfg.McfgAllocation.{McfgAllocation};
ghost use Rattle.acpi_records.specs.Mcfg.{mcfg_front_fields, allocation_fields, allocations_rows};
ghost use Rattle.acpi_records.specs.Madt.{madt_front_fields};
ghost use Rattle.acpi_records.specs.Srat.{srat_front_fields};
ghost use Rattle.acpi_records.specs.Slit.{slit_front_fields};
ghost use Rattle.acpi_records.specs.Offsets.{offsets_from, fadt_offsets};
ghost use Rattle.acpi_records.specs.Worked.{worked_madt, worked_madt_bytes, worked_srat, worked_srat_bytes, worked_allocations, worked_allocations_bytes};

/// States that at most one FACS stands at an address.
pub fn one_facs_stands_at_an_address()
    ensures { (view : View) (address : ℕ) (f g : Facs) → IsFacs view address f → IsFacs view address g → f ≡ g }
{}

/// States that a FACS that a view holds as it was written stands there.
pub fn held_facs_is_there()
    ensures { (view : View) (place_of : List ℕ → ℕ) (address : ℕ) (f : Facs) → AllByRecursion IsRow (facs_rows f)
        → LayoutHeld view place_of address (facs_rows f) → IsFacs view address f }
{}

/// States that each row of an FADT stands at its offset of the standard, and how many bytes that table has, the FACS, and the fronts of
/// the MADT, the SRAT, the SLIT and the MCFG, and an allocation of the MCFG.
pub fn rows_stand_at_their_offsets()
    ensures fadt { (t : Fadt) → offsets_from 0 (field_rows (fadt_fields t)) ≡ fadt_offsets }
    ensures fadt_size { (t : Fadt) → size (field_rows (fadt_fields t)) ≡ 276 }
    ensures facs_size { (f : Facs) → size (facs_rows f) ≡ 64 }
    ensures madt_size { (f : MadtFront) → size (field_rows (madt_front_fields f)) ≡ 44 }
    ensures srat_size { (f : SratFront) → size (field_rows (srat_front_fields f)) ≡ 48 }
    ensures slit_size { (f : SlitFront) → size (field_rows (slit_front_fields f)) ≡ 44 }
    ensures mcfg_size { (f : McfgFront) → size (field_rows (mcfg_front_fields f)) ≡ 44 }
    ensures allocation_size { (a : McfgAllocation) → size (field_rows (allocation_fields a)) ≡ 16 }
{}

/// States of the entries of a MADT that they are got back from their rows, which have no pointers and no sums, are of their types, and
/// have so many bytes, and that the rows fit where the entries' numbers do.
pub fn entries_of_a_madt_are_got_back()
    ensures back { (list : List MadtEntry) → map madt_entry (map madt_entry_of list) ≡ list }
    ensures linked { (place_of : List ℕ → ℕ) (list : List MadtEntry)
        → linked_entries place_of (map madt_entry_of list) ≡ map madt_entry_of list }
    ensures typed { (list : List MadtEntry) → AllByRecursion IsMadtEntry list
        → AllByRecursion (IsOfType madt_types) (map madt_entry_of list) }
    ensures sized { (list : List MadtEntry) → AllByRecursion IsMadtEntry list
        → size (entries_rows (map madt_entry_of list)) ≡ sum_by madt_entry_size list }
    ensures plain { (list : List MadtEntry) → AllByRecursion IsPlain (entries_rows (map madt_entry_of list)) }
    ensures fit { (list : List MadtEntry) → AllByRecursion IsFittingMadtEntry list
        → AllByRecursion IsRow (entries_rows (map madt_entry_of list)) }
{}

/// States the same of the entries of an SRAT.
pub fn entries_of_an_srat_are_got_back()
    ensures back { (list : List SratEntry) → map srat_entry (map srat_entry_of list) ≡ list }
    ensures linked { (place_of : List ℕ → ℕ) (list : List SratEntry)
        → linked_entries place_of (map srat_entry_of list) ≡ map srat_entry_of list }
    ensures typed { (list : List SratEntry) → AllByRecursion IsSratEntry list
        → AllByRecursion (IsOfType srat_types) (map srat_entry_of list) }
    ensures sized { (list : List SratEntry) → AllByRecursion IsSratEntry list
        → size (entries_rows (map srat_entry_of list)) ≡ sum_by srat_entry_size list }
    ensures plain { (list : List SratEntry) → AllByRecursion IsPlain (entries_rows (map srat_entry_of list)) }
    ensures fit { (list : List SratEntry) → AllByRecursion IsFittingSratEntry list
        → AllByRecursion IsRow (entries_rows (map srat_entry_of list)) }
{}

/// States what worked entries are written as, one after the other.
pub fn worked_entries_are_spelled()
    ensures madt { spelled (entries_rows (map madt_entry_of worked_madt)) ≡ worked_madt_bytes }
    ensures srat { spelled (entries_rows (map srat_entry_of worked_srat)) ≡ worked_srat_bytes }
    ensures mcfg { spelled (allocations_rows worked_allocations) ≡ worked_allocations_bytes }
{}
