//! Laws over the definitions, each the contract of a function that does nothing.

ghost use Rattle.std.specs.Prelude.{◌≡◌, ℕ, suc, ◌+◌, ◌*◌, ◌↔◌, List, ◌++◌, length, slice_get, Some, None};
ghost use Rattle.std.specs.List.{flat_map, AllByRecursion};
ghost use Rattle.vt_outside.specs.File.{File};
ghost use Rattle.loader_script.specs.Run.{Progress, Done, Command, NoRoom, cause_of, carried_out, run, run_from, run_on, after_first};
ghost use Rattle.loader_script.specs.Conditions.{CanCarryOut};
ghost use Rattle.loader_script.specs.declared.refusing.Cause.{Cause};
ghost use Rattle.loader_script.specs.Spelling.{entry_of, entries_of, entry_bytes, Fits, CanBeWritten};
ghost use Rattle.loader_script.specs.declared.entry.Entry.{Entry};

/// States that an entry is read again as it was written, where it is no `Misnamed`, and the number of a `Skipped` is 0 or at
/// least 5.
pub fn written_entry_is_read()
    ensures { (entry : Entry) → Fits entry → CanBeWritten entry → entry_of (entry_bytes entry) ≡ entry }
{}

/// States that an entry is written as 128 bytes.
pub fn entry_has_128_bytes()
    ensures { (entry : Entry) → Fits entry → length (entry_bytes entry) ≡ 128 }
{}

/// States that a script is read again as it was written, where each of its entries is, and that its bytes are 128 times as many
/// as its entries.
pub fn written_script_is_read()
    ensures read { (script : List Entry) → AllByRecursion Fits script → AllByRecursion CanBeWritten script
        → entries_of (length script) (flat_map entry_bytes script) ≡ script }
    ensures size { (script : List Entry) → AllByRecursion Fits script
        → length (flat_map entry_bytes script) ≡ 128 * length script }
{}

/// States that a command isn't refused exactly where its conditions hold.
pub fn commands_are_refused_by_their_conditions()
    ensures { (entry : Entry) (p : Progress) → (cause_of entry p ≡ None) ↔ CanCarryOut entry p }
{}

/// States that each command of a run that ends as Done isn't refused, and is carried out in its turn.
pub fn done_runs_carry_out_each_command()
    ensures { (files : List File) (script : List Entry) (places : List ℕ) (end : Progress) (index : ℕ) (entry : Entry)
        → run files script places ≡ (Done, end) → slice_get script index ≡ Some entry
        → (cause_of entry (after_first index files script places) ≡ None)
        × (carried_out entry (after_first index files script places) ≡ Some (after_first (suc index) files script places)) }
{}

/// States that the run of two scripts, one behind the other, is that of the first and, where it is done, that of the second from there, with the
/// indexes going on.
pub fn a_script_is_run_in_two_parts()
    ensures { (index : ℕ) (front back : List Entry) (p : Progress)
        → run_from index (front ++ back) p
        ≡ run_on (index + length front) back (run_from index front p).0 (run_from index front p).1 }
{}

/// States that a run that ends at a command is refused there for the first cause, and that the command changes nothing.
pub fn refused_commands_change_nothing()
    ensures { (files : List File) (script : List Entry) (places : List ℕ) (index : ℕ) (cause : Cause)
        → (run files script places).0 ≡ Command index cause
        → (entry : Entry) × (slice_get script index ≡ Some entry) × (cause_of entry (after_first index files script places) ≡ Some cause)
        × ((run files script places).1 ≡ after_first index files script places) }
{}

/// States that a run that finds no room stops at a command that isn't refused but finds no place, and that it changes nothing.
pub fn commands_without_room_change_nothing()
    ensures { (files : List File) (script : List Entry) (places : List ℕ) (index : ℕ)
        → (run files script places).0 ≡ NoRoom index
        → (entry : Entry) × (slice_get script index ≡ Some entry) × (cause_of entry (after_first index files script places) ≡ None)
        × (carried_out entry (after_first index files script places) ≡ None)
        × ((run files script places).1 ≡ after_first index files script places) }
{}
