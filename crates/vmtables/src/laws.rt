//! Laws over the definitions, each the contract of a function that does nothing.

ghost use Rattle.std.specs.Prelude.{◌≢◌, ℕ, Some};
ghost use Rattle.vt_outside.specs.Stream.{SinkSeen, SourceSeen};
ghost use Rattle.vt_words.specs.declared.command.Command.TheVariants.{Boot, Gen};
ghost use Rattle.vt_words.specs.declared.setting.Setting.{Setting};
ghost use Rattle.command_acts.specs.Allocators.{MayAnswer};
ghost use Rattle.vmtables.specs.Calls.{Answered, Seen};
ghost use Rattle.vmtables.specs.Complete.{AreDone, IsBootListed, IsBootNeverRefused, IsBootTold, IsShownListed, IsShownTold, TellFaults};
ghost use Rattle.vmtables.specs.Does.{Does};
ghost use Rattle.vmtables.specs.Shelf.{shelf_answers};
ghost use Rattle.vmtables.specs.declared.status.Status.{Status};
ghost use Rattle.vmtables.specs.declared.status.Status.TheVariants.{NoRoom};

use zone_alloc::ZoneAlloc;

/// States that neither `boot` nor `gen` answers `NoRoom` where a `ShelfAlloc` gives the places, whatever its policy and its seed.
pub fn a_shelf_has_room_for_a_machine()
    ensures boot { (setting : Setting) (before after : Seen) (answer : Status) (source source_after : SourceSeen) (out out_after say say_after : SinkSeen)
        → Answered (Does shelf_answers (Some (Boot setting)) before after) answer source source_after out out_after say say_after → answer ≢ NoRoom }
    ensures generated { (processors : ℕ) (before after : Seen) (answer : Status) (source source_after : SourceSeen) (out out_after say say_after : SinkSeen)
        → Answered (Does shelf_answers (Some (Gen processors)) before after) answer source source_after out out_after say say_after → answer ≢ NoRoom }
{}

/// States that each command is done of a lawful input, unless memory ran out, where no read, no write, no flush and no place failed: `boot` and
/// `build` of a description whose machine has few files, `load` of a container of which the script's run is done with the places that were
/// handed out, `decode` of the dump of a memory that shows an inventory of which no item fails, `decode --list` of that of one whose tables have
/// no fault, and `gen` of a number of processors whose machine has few files.
pub fn each_command_is_done<A: ZoneAlloc>()
    ensures { AreDone (MayAnswer A.state A.gives) }
{}

/// States that each command tells each fault of its input, unless memory ran out, where no read, no write and no flush failed: of a description,
/// of a container with its script's commands, of a dump and its tables, or that a machine's files are too large.
pub fn each_command_tells_faults<A: ZoneAlloc>()
    ensures { TellFaults (MayAnswer A.state A.gives) }
{}

/// States that `decode --list` of the dump of a memory that shows an inventory writes the list of it, unless memory ran out, where no read, no
/// write and no flush failed.
pub fn a_shown_memory_is_listed<A: ZoneAlloc>()
    ensures { IsShownListed (MayAnswer A.state A.gives) }
{}

/// States that `decode` of the dump of a memory that shows the inventory of a machine writes a description of this machine, unless memory ran
/// out, where no read, no write and no flush failed.
pub fn a_shown_machine_is_told<A: ZoneAlloc>()
    ensures { IsShownTold (MayAnswer A.state A.gives) }
{}

/// States that `decode --list` of what `boot` wrote of a description writes the list of what the machine shows that is described, unless
/// memory ran out, where no read, no write and no flush failed. The allocators of the two calls may differ.
pub fn a_booted_machine_is_listed<A: ZoneAlloc, B: ZoneAlloc>()
    ensures { IsBootListed (MayAnswer A.state A.gives) (MayAnswer B.state B.gives) }
{}

/// States that `decode` of what `boot` wrote of a description writes a description of the same machine, which is read as this machine again,
/// unless memory ran out, where no read, no write and no flush failed. The allocators of the two calls may differ.
pub fn a_booted_machine_is_told<A: ZoneAlloc, B: ZoneAlloc>()
    ensures { IsBootTold (MayAnswer A.state A.gives) (MayAnswer B.state B.gives) }
{}

/// States that `decode` of what `boot` wrote of a description never answers that it is no dump, nor that its tables have a fault or are no
/// machine's, also where a read, a write or a flush failed. The allocators of the two calls may differ.
pub fn what_boot_wrote_is_never_refused<A: ZoneAlloc, B: ZoneAlloc>()
    ensures { IsBootNeverRefused (MayAnswer A.state A.gives) (MayAnswer B.state B.gives) }
{}
