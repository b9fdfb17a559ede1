ghost use Rattle.std.specs.Prelude.{◌≡◌, ◌≢◌, ◌<◌, ◌↔◌, map, string_bytes, None};
ghost use Rattle.std.specs.Prelude.{IfSome, IfErr, OnOk};
ghost use Rattle.vt_outside.specs.Stream.{IsFlushed, Rose};
ghost use Rattle.vt_words.specs.Command.{command_of};
ghost use Rattle.command_acts.specs.Allocators.{MayAnswer};
ghost use Rattle.vmtables.specs.Calls.{Said, Answered, seen_by};
ghost use Rattle.vmtables.specs.Does.{Does, NothingIsRefused};
ghost use Rattle.vmtables.specs.Outcome.{input_limit, given_count, status_of, line_of};

use crate::carrying_out::carry_out;
use crate::fault::Fault;
use crate::status::Status;
use firmware_load::{Schedule, World};
use std::alloc::Global;
use vt_outside::{Sink, Source, write_all};
use zone_alloc::ZoneAlloc;

/// Carries out the command that `words`, those after the program's name, ask for, as [`carry_out`] does, and returns how it ended: with
/// `Ok`, or with the status of the fault that `carry_out` answers. `ImageRefused` means that the bytes are no container, that its SMBIOS
/// files can't be installed, that its script is missing or has no script's length, or that a command is refused, `NoRoom` that `place` gave no
/// place for a file, `DumpRefused` that the bytes are no dump, and `TablesRefused` that the tables of the dump's memory have a fault or are no
/// machine's; each other status has the name of its fault, or of what `carry_out` says of it.
///
/// `say` takes the line of a status other than `Ok`. What becomes of that line changes nothing else.
pub fn top<S: Source, K: Sink, E: Sink, A: ZoneAlloc, C: Schedule>(
    alloc: Global,
    words: &[String],
    source: &mut S,
    out: &mut K,
    say: &mut E,
    place: &mut A,
    plan: &mut C,
    world: &mut World,
) -> Status
    // The command that the words are, or the want of one, did what it does: of the source it read so much, it left the world so,
    // out took the text that it made or a part of it, and the answer and what say took are those of how it ended.
    ensures does { Answered (Does (MayAnswer A.state A.gives) (command_of (map string_bytes words.now))
        (seen_by A.state C.plan world.old place.old plan.old)
        (seen_by A.state C.plan world.new place.new plan.new)) result
        (S.seen source.old) (S.seen source.new) (K.seen out.old) (K.seen out.new) (E.seen say.old) (E.seen say.new) }

    // When each status comes that isn't the command's own. Want of memory may come at any time. Nothing is refused that the program builds
    // itself.
    ensures usage { (result ≡ Status.Usage) ↔ (command_of (map string_bytes words.now) ≡ None) }
    ensures kept { NothingIsRefused (command_of (map string_bytes words.now)) result }
    ensures read_fault { result ≡ Status.ReadFault → Rose (S.seen source.old).faults (S.seen source.new).faults }
    ensures read_sound { result ≢ Status.ReadFault → (S.seen source.new).faults ≡ (S.seen source.old).faults }
    ensures too_long { IfSome (S.seen source.old).left (λ _.
        (result ≡ Status.InputTooLong) ↔ (input_limit < given_count (S.seen source.old).left (S.seen source.new).left)) }
    ensures write_fault { result ≡ Status.WriteFault → Rose (K.seen out.old).faults (K.seen out.new).faults }
    ensures write_sound { result ≢ Status.WriteFault → (K.seen out.new).faults ≡ (K.seen out.old).faults }

    // What each status says of the streams: out took nothing without a text, and flushed nothing or all. Where the words are no
    // command the source isn't read. With Ok nothing is said.
    ensures nothing { result ≢ Status.Ok → result ≢ Status.WriteFault → K.seen out.new ≡ K.seen out.old }
    ensures flushed { result ≡ Status.Ok → IsFlushed (K.seen out.new) }
    ensures unflushed { result ≢ Status.Ok → (K.seen out.new).flushed ≡ (K.seen out.old).flushed }
    ensures unread { result ≡ Status.Usage → S.seen source.new ≡ S.seen source.old }
    ensures silent { result ≡ Status.Ok → E.seen say.new ≡ E.seen say.old }
{
    let ended = carry_out(alloc, words, source, out, place, plan, world);
    tell(say, &ended)
}

// Says the line of the fault that ended a call, where one did, and returns the call's status. A fault of `say` has no place to be told.
fn tell<E: Sink>(say: &mut E, ended: &Result<(), Fault>) -> Status
    ensures status { result ≡ status_of ended.now }
    ensures said { IfErr ended.now (λ fault. Said (line_of fault) (E.seen say.old) (E.seen say.new)) }
    ensures silent { OnOk ended.now (E.seen say.new ≡ E.seen say.old) }
{
    match ended {
        Ok(()) => Status::Ok,
        Err(fault) => {
            let _ = write_all(say, fault.line().as_bytes());
            fault.status()
        }
    }
}
