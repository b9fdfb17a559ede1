//! The image of a machine, built and loaded.

ghost use Rattle.std.specs.Prelude.{◌≤◌, IfErr, OnOk};
ghost use Rattle.cfg_directory.specs.Items.{total_size};
ghost use Rattle.command_acts.specs.Allocators.{MayAnswer};
ghost use Rattle.image_files.specs.Items.{image_limit};
ghost use Rattle.machine_desc.specs.Rules.{IsAccepted};
ghost use Rattle.vm_image.specs.Built.{IsBuilt};
ghost use Rattle.vm_image.specs.Image.{image_items};
ghost use Rattle.vmtables.specs.Boot.{FailsToBoot, IsMachineBooted};
ghost use Rattle.vmtables.specs.Calls.{seen_by};

use crate::describing::machine_image;
use crate::fault::Fault;
use crate::loading::load_items;
use firmware_load::{Schedule, World};
use machine_desc::Machine;
use std::alloc::Global;
use vm_image::Image;
use vt_bytes::BYTES_IN_MIB;
use vt_words::Setting;
use zone_alloc::ZoneAlloc;

/// Builds the image of a machine, and loads it as `setting` says into the world's memory, by the places that `place` gives and over the events
/// that `plan` has.
pub(crate) fn boot_machine<A: ZoneAlloc, C: Schedule>(
    alloc: Global,
    setting: &Setting,
    machine: &Machine,
    place: &mut A,
    plan: &mut C,
    world: &mut World,
) -> Result<(), Fault>
    requires { IsAccepted machine.now }
    ensures ok { OnOk result (IsMachineBooted (MayAnswer A.state A.gives) setting.now machine.now
        (seen_by A.state C.plan world.old place.old plan.old)
        (seen_by A.state C.plan world.new place.new plan.new)) }
    ensures err { IfErr result (FailsToBoot (MayAnswer A.state A.gives) setting.now machine.now
        (seen_by A.state C.plan world.old place.old plan.old)
        (seen_by A.state C.plan world.new place.new plan.new)) }
{
    let image = machine_image(alloc, machine)?;
    load_image(alloc, setting, machine, image, place, plan, world)
}

/// Loads the image of a machine, as [`boot_machine`] does.
pub(crate) fn load_image<A: ZoneAlloc, C: Schedule>(
    alloc: Global,
    setting: &Setting,
    machine: &Machine,
    image: Image,
    place: &mut A,
    plan: &mut C,
    world: &mut World,
) -> Result<(), Fault>
    requires accepted { IsAccepted machine.now }
    requires built { IsBuilt machine.now image.items image.script }
    requires small { total_size (image_items machine.now) ≤ image_limit }
    ensures ok { OnOk result (IsMachineBooted (MayAnswer A.state A.gives) setting.now machine.now
        (seen_by A.state C.plan world.old place.old plan.old)
        (seen_by A.state C.plan world.new place.new plan.new)) }
    ensures err { IfErr result (FailsToBoot (MayAnswer A.state A.gives) setting.now machine.now
        (seen_by A.state C.plan world.old place.old plan.old)
        (seen_by A.state C.plan world.new place.new plan.new)) }
{
    let Image { items, script } = image;
    drop(script);
    let top = machine.top_mib * BYTES_IN_MIB as u32;
    load_items(alloc, items, top, setting, place, plan, world)?;
    // That memory holds bytes is said by a call of its own.
    world.memory().holds_bytes();
    Ok(())
}
