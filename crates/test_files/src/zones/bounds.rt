//! What is said through the trait of what an allocator gives, and what follows of a shelf.

ghost use Rattle.std.specs.Prelude.{◌≡◌, ℕ, true, ◌<◌, length, IsOk};
ghost use Rattle.std.specs.Result.{result_ok};
ghost use Rattle.vt_outside.specs.Placement.{IsFree};
ghost use Rattle.zone_alloc.specs.declared.zone.Zone.TheVariants.{High};
ghost use Rattle.zone_alloc.specs.Places.{range_in};

use std::alloc::Global;
use std::test::Fail;
use vt_outside::OutOfMemory;
use zone_alloc::{NoRoom, Policy, ShelfAlloc, Zone, ZoneAlloc, zones_of};

#[test]
fn a_shelf_through_the_trait(rt: HostRuntime) -> Result<(), Fail> {
    let mut shelf = ShelfAlloc::new();
    let place = first_place_on(rt.alloc(), &mut shelf);
    drop(shelf);
    assert_eq!(rt; place?, Ok(0x300_0000));
    Ok(())
}

fn first_place_on(
    alloc: Global,
    shelf: &mut ShelfAlloc,
) -> Result<Result<u64, NoRoom>, OutOfMemory> {
    shelf.begin(alloc, zones_of(0x400_0000), Policy::Low)?;
    Ok(place_on(shelf))
}

// A shelf isn't refused a place where one is free.
fn place_on(shelf: &mut ShelfAlloc) -> Result<u64, NoRoom>
    requires begun { shelf.old.begun.ready ≡ true }
    requires room { length shelf.old.handed < 1024 }
    ensures { (place : ℕ) → IsFree (range_in shelf.old.begun.zones High) shelf.old.handed 16 16 place → IsOk result }
{
    place_by(shelf)
}

// A place for 16 bytes, by any allocator.
fn place_by<A: ZoneAlloc>(alloc: &mut A) -> Result<u64, NoRoom>
    requires begun { (A.state alloc.old).begun.ready ≡ true }
    requires room { length (A.state alloc.old).handed < 1024 }
    ensures { A.gives alloc.old (record { zone = High; size = 16; align = 16 }) (result_ok result) }
{
    alloc.place(Zone::High, 16, 16)
}
