ghost use Rattle.std.specs.Prelude.{◌≡◌, ◌≢◌, ℕ, List, ◌≤◌, Ok, Err, IfErr, IfOk, OnErr, OnOk, IsSomeAnd};
ghost use Rattle.cfg_directory.specs.declared.item.Item.{Item};
ghost use Rattle.cfg_directory.specs.Fed.{judged};
ghost use Rattle.command_acts.specs.Allocators.{MayAnswer};
ghost use Rattle.memory_dump.specs.Dump.{dump};
ghost use Rattle.vmtables.specs.Calls.{ReadsAll, Ran, Streams, seen_by};
ghost use Rattle.vmtables.specs.Load.{LoadMakes, CannotBeRead, IsToLoad, mib};
ghost use Rattle.vmtables.specs.Loading.{IsImageLoaded};
ghost use Rattle.vmtables.specs.Outcome.{status_of};

use crate::fault::Fault;
use crate::input::read_container;
use crate::loading::load_items;
use crate::writing::write_dump;
use cfg_directory::{ImageReader, Items};
use firmware_load::{Schedule, World};
use smbios_install::install;
use std::alloc::Global;
use vt_bytes::BYTES_IN_MIB;
use vt_outside::{Sink, Source};
use vt_words::LoadOptions;
use zone_alloc::ZoneAlloc;

/// Reads a container, loads its files as `options` say, by the places that `place` gives and over the events that `plan` has, and writes the
/// dump. The top of memory is from 64 to 3072 MiB.
pub(crate) fn load<S: Source, K: Sink, A: ZoneAlloc, C: Schedule>(
    alloc: Global,
    options: &LoadOptions,
    source: &mut S,
    out: &mut K,
    place: &mut A,
    plan: &mut C,
    world: &mut World,
) -> Result<(), Fault>
    requires lawful { (64 ≤ options.now.top_mib) × (options.now.top_mib ≤ 3072) }
    ensures ran { Ran (ReadsAll (LoadMakes (MayAnswer A.state A.gives) options.now)
        (seen_by A.state C.plan world.old place.old plan.old)
        (seen_by A.state C.plan world.new place.new plan.new)) result
        (S.seen source.old) (S.seen source.new) (K.seen out.old) (K.seen out.new) }
    ensures known { result ≢ Err Fault.Usage }
    ensures streams { Streams (status_of result)
        (S.seen source.old) (S.seen source.new) (K.seen out.old) (K.seen out.new) }
{
    let reader = read_container(alloc, source)?;
    load_container(alloc, options, reader, place, plan, world)?;
    write_dump(world, out)
}

// Loads the files of the container that a reader was fed into the world's memory.
fn load_container<A: ZoneAlloc, C: Schedule>(
    alloc: Global,
    options: &LoadOptions,
    container: ImageReader,
    place: &mut A,
    plan: &mut C,
    world: &mut World,
) -> Result<(), Fault>
    requires lawful { (64 ≤ options.now.top_mib) × (options.now.top_mib ≤ 3072) }
    ensures ok { OnOk result ((bytes : List ℕ) → container ≡ judged bytes → (items : List Item) × IsToLoad options.now.install bytes items
        × IsImageLoaded (MayAnswer A.state A.gives) items (mib options.now.top_mib) options.now.setting (Ok tt)
        (seen_by A.state C.plan world.old place.old plan.old)
        (seen_by A.state C.plan world.new place.new plan.new)) }
    ensures err { IfErr result (λ fault. (bytes : List ℕ) → container ≡ judged bytes → LoadMakes (MayAnswer A.state A.gives) options.now bytes
        (seen_by A.state C.plan world.old place.old plan.old)
        (seen_by A.state C.plan world.new place.new plan.new) (Err fault)) }
{
    let items = items_of(alloc, options.install, container)?;
    load_items(
        alloc,
        items,
        options.top_mib * BYTES_IN_MIB as u32,
        &options.setting,
        place,
        plan,
        world,
    )
}

// The files to load of the container that a reader was fed: with its SMBIOS files installed where `installs` says so.
fn items_of(alloc: Global, installs: bool, container: ImageReader) -> Result<Items, Fault>
    ensures ok { IfOk result (λ items. (bytes : List ℕ) → container ≡ judged bytes → IsToLoad installs bytes items) }
    ensures err { IfErr result (λ fault. (bytes : List ℕ) → container ≡ judged bytes → CannotBeRead installs bytes fault) }
{
    let items = container.finish()?;
    if installs {
        Ok(install(alloc, items)?)
    } else {
        Ok(items)
    }
}
