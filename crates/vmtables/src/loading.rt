ghost use Rattle.std.specs.Prelude.{Ok, Err, IfErr, OnOk};
ghost use Rattle.vt_bytes.specs.Memory.{IsTop};
ghost use Rattle.command_acts.specs.Allocators.{MayAnswer};
ghost use Rattle.vmtables.specs.Calls.{seen_by};
ghost use Rattle.vmtables.specs.Loading.{IsImageLoaded, FailsToLoad};

use crate::fault::Fault;
use cfg_directory::Items;
use firmware_load::{Schedule, World};
use std::alloc::Global;
use vt_words::Setting;
use zone_alloc::{ZoneAlloc, zones_of};

/// Begins `world` with `items` and memory below `top` that holds the fill byte of `setting`, begins `place` with the zones of that memory and
/// its policy, and `plan` with its seed, and loads the items by the places that `place` gives, over the events of `plan`. All memory comes
/// from `alloc` before the load.
pub(crate) fn load_items<A: ZoneAlloc, C: Schedule>(
    alloc: Global,
    items: Items,
    top: u32,
    setting: &Setting,
    place: &mut A,
    plan: &mut C,
    world: &mut World,
) -> Result<(), Fault>
    requires { IsTop top }
    ensures ok { OnOk result (IsImageLoaded (MayAnswer A.state A.gives) items top setting.now (Ok tt)
        (seen_by A.state C.plan world.old place.old plan.old)
        (seen_by A.state C.plan world.new place.new plan.new)) }
    ensures err { IfErr result (FailsToLoad (MayAnswer A.state A.gives) items top setting.now
        (seen_by A.state C.plan world.old place.old plan.old)
        (seen_by A.state C.plan world.new place.new plan.new)) }
{
    world.begin(alloc, items, top, setting.fill)?;
    place.begin(alloc, zones_of(top), setting.policy)?;
    plan.begin(setting.seed);
    world.load(place, plan)?;
    Ok(())
}
