ghost use Rattle.std.specs.Prelude.{◌≡◌, ◌↔◌, map, string_bytes, Err, None};
ghost use Rattle.vt_words.specs.Command.{command_of};
ghost use Rattle.command_acts.specs.Allocators.{MayAnswer};
ghost use Rattle.vmtables.specs.Calls.{Ran, Streams, seen_by};
ghost use Rattle.vmtables.specs.Does.{Does, NothingIsRefused};
ghost use Rattle.vmtables.specs.Outcome.{status_of};

use crate::boot_command::boot;
use crate::build_command::build;
use crate::decode_command::{decode, list, search_for};
use crate::fault::Fault;
use crate::generate_command::generate;
use crate::load_command::load;
use firmware_load::{Schedule, World};
use std::alloc::Global;
use table_model::Search;
use vt_outside::{Sink, Source};
use vt_words::{Command, read_words};
use zone_alloc::ZoneAlloc;

/// Carries out the command that `words`, those after the program's name, ask for. `boot` reads a description from `source`, builds the
/// machine's files, loads them into the memory of `world`, which holds the fill byte of the words at the beginning, writes its dump to `out`
/// and flushes it. `load` does the same with the files of a container, which it reads from `source`, and a top of memory from the words; with
/// `--install` also with its SMBIOS files that its script doesn't name. `place` gives the files their places, by the policy of the words. The
/// load takes the events that `plan` has for the seed of the words, one after the other: steps of the firmware and of its device, and writes of
/// other processors, which come between those. `build` writes the container of a machine's files, `decode` the description of the machine that
/// the memory shows of which it reads the dump, and `decode --list` the list of what that memory shows, each by the ACPI tables of an XSDT or,
/// with `--legacy`, by those of an RSDT, the list with `--smbios2` by the old SMBIOS anchor, and with `--any` by the first anchors of any form;
/// these leave `world`, `place` and `plan` as they were. `gen` reads nothing: it boots, as `boot` does by the lowest places and with no other
/// events, the machine that is generated of a number of processors, and writes how many files, bytes, commands and rows of a dump it has. All
/// memory comes from `alloc`, before the load, and before the list. Nothing is written to `out` before all but the writing is done.
///
/// Returns the fault for which the command wasn't carried out whole. `Usage` means that `words` are no command; nothing is then read.
/// `ReadFault` means that `source` failed, `InputTooLong` that it gave more than 67,108,864 bytes, `Description` that its bytes describe no
/// accepted machine, `ImageTooLarge` that the machine's files have more than 409,600 bytes, `Container` that its bytes are no container,
/// `Install` that its SMBIOS files aren't installed, `Load` how a load ended before its script did, `Dump` that its bytes are no dump, `Tables`
/// that the tables of the dump's memory have a fault, `NotProfile` that what they tell is of no machine that a description can have,
/// `OutOfMemory` that memory ran out, and `WriteFault` that `out` failed. With `Ok` `out` took the whole text, with `WriteFault` a part of it
/// from its front, perhaps all, and with any other fault nothing.
///
/// With `Ok` and `WriteFault` of `boot`, `gen` and `load` the files are loaded in `world`. With `Load` it holds what the commands before left.
/// After `OutOfMemory` it is as before, idle, or as it was begun. In any other case it is as before.
pub fn carry_out<S: Source, K: Sink, A: ZoneAlloc, C: Schedule>(
    alloc: Global,
    words: &[String],
    source: &mut S,
    out: &mut K,
    place: &mut A,
    plan: &mut C,
    world: &mut World,
) -> Result<(), Fault>
    // The command that the words are, or the want of one, did what it does: of the source it read so much, it left the world so, and out
    // took the text that it made or a part of it.
    ensures ran { Ran (Does (MayAnswer A.state A.gives) (command_of (map string_bytes words.now))
        (seen_by A.state C.plan world.old place.old plan.old)
        (seen_by A.state C.plan world.new place.new plan.new)) result
        (S.seen source.old) (S.seen source.new) (K.seen out.old) (K.seen out.new) }

    // When each fault comes that isn't the command's own, and what each says of the streams. Nothing is refused that the program builds itself.
    ensures usage { (result ≡ Err Fault.Usage) ↔ (command_of (map string_bytes words.now) ≡ None) }
    ensures unread { result ≡ Err Fault.Usage → S.seen source.new ≡ S.seen source.old }
    ensures streams { Streams (status_of result) (S.seen source.old) (S.seen source.new) (K.seen out.old) (K.seen out.new) }
    ensures kept { NothingIsRefused (command_of (map string_bytes words.now)) (status_of result) }
{
    match read_words(words) {
        Some(Command::Boot(setting)) => boot(alloc, &setting, source, out, place, plan, world),
        Some(Command::Load(options)) => { load(alloc, &options, source, out, place, plan, world) }
        Some(Command::Build) => build(alloc, source, out),
        Some(Command::Decode { legacy }) => decode(alloc, Search::of(legacy, false), source, out),
        Some(Command::List(sought)) => list(alloc, search_for(sought), source, out),
        Some(Command::Gen(processors)) => generate(alloc, processors, out, place, plan, world),
        None => Err(Fault::Usage),
    }
}
