ghost use Rattle.std.specs.Prelude.{◌≡◌, ◌≢◌, Err, IfErr, OnOk};
ghost use Rattle.command_acts.specs.Allocators.{MayAnswer};
ghost use Rattle.vmtables.specs.Boot.{IsBooted, BootMakes};
ghost use Rattle.vmtables.specs.Calls.{ReadsAll, Ran, Streams, seen_by};
ghost use Rattle.vmtables.specs.Outcome.{status_of};

use crate::describing::machine_of;
use crate::fault::Fault;
use crate::input::read_to_end;
use crate::machine_booting::boot_machine;
use crate::writing::write_dump;
use firmware_load::{Schedule, World};
use std::alloc::Global;
use vt_outside::{Sink, Source};
use vt_words::Setting;
use zone_alloc::ZoneAlloc;

/// Reads a description, loads its machine's files as `setting` says, by the places that `place` gives and over the events that `plan` has,
/// and writes the dump.
pub(crate) fn boot<S: Source, K: Sink, A: ZoneAlloc, C: Schedule>(
    alloc: Global,
    setting: &Setting,
    source: &mut S,
    out: &mut K,
    place: &mut A,
    plan: &mut C,
    world: &mut World,
) -> Result<(), Fault>
    ensures ran { Ran (ReadsAll (BootMakes (MayAnswer A.state A.gives) setting.now)
        (seen_by A.state C.plan world.old place.old plan.old)
        (seen_by A.state C.plan world.new place.new plan.new)) result
        (S.seen source.old) (S.seen source.new) (K.seen out.old) (K.seen out.new) }
    ensures known { result ≢ Err Fault.Usage }
    ensures streams { Streams (status_of result)
        (S.seen source.old) (S.seen source.new) (K.seen out.old) (K.seen out.new) }
{
    let bytes = read_to_end(alloc, source)?;
    boot_described(alloc, setting, bytes.as_slice(), place, plan, world)?;
    write_dump(world, out)
}

// Reads a machine's description, and boots the machine.
fn boot_described<A: ZoneAlloc, C: Schedule>(
    alloc: Global,
    setting: &Setting,
    description: &[u8],
    place: &mut A,
    plan: &mut C,
    world: &mut World,
) -> Result<(), Fault>
    ensures ok { OnOk result (IsBooted (MayAnswer A.state A.gives) setting.now description.now
        (seen_by A.state C.plan world.old place.old plan.old)
        (seen_by A.state C.plan world.new place.new plan.new)) }
    ensures err { IfErr result (λ fault. BootMakes (MayAnswer A.state A.gives) setting.now description.now
        (seen_by A.state C.plan world.old place.old plan.old)
        (seen_by A.state C.plan world.new place.new plan.new) (Err fault)) }
{
    let machine = machine_of(alloc, description)?;
    let booted = boot_machine(alloc, setting, &machine, place, plan, world);
    drop(machine);
    booted
}
