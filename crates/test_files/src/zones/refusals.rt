//! What a refusal leaves: its count, and the request that was refused.

ghost use Rattle.std.specs.Prelude.{◌≡◌, true, ◌<◌, [], Some, None, length};
ghost use Rattle.std.specs.Int.{is_power_of_two};
ghost use Rattle.zone_alloc.specs.declared.zone.Zone.TheVariants.{Fseg};
ghost use Rattle.zone_alloc.specs.Allocators.{with_refusal};

use std::alloc::Global;
use std::process::Abort;
use std::test::Fail;
use vt_outside::OutOfMemory;
use zone_alloc::Zone::{Fseg, High};
use zone_alloc::{NoRoom, Policy, Request, ShelfAlloc, ZoneAlloc, zones_of};

#[test]
fn refusals(rt: HostRuntime) -> Result<(), Fail> {
    let mut shelf = ShelfAlloc::new();
    let done = refuses_and_begins_again(&rt, rt.alloc(), &mut shelf);
    drop(shelf);
    done?;
    Ok(())
}

fn refuses_and_begins_again(
    rt: &impl Abort,
    alloc: Global,
    shelf: &mut ShelfAlloc,
) -> Result<(), OutOfMemory>
    requires { shelf.old.refusals ≡ 0 }
{
    shelf.begin(alloc, zones_of(0x400_0000), Policy::Low)?;
    two_refusals(rt, shelf);
    is_reset(shelf);
    a_place(rt, shelf);
    shelf.begin(alloc, zones_of(0x400_0000), Policy::Low)?;
    a_place(rt, shelf);
    Ok(())
}

// Two requests for more than the F segment are refused and counted, and the last one is kept.
fn two_refusals(rt: &impl Abort, shelf: &mut ShelfAlloc)
    requires begun { shelf.old.begun.ready ≡ true }
    requires none { (shelf.old.handed ≡ []) × (shelf.old.refusals ≡ 0) }
    ensures count { shelf.new.refusals ≡ 2 }
    ensures asked { shelf.new.refused ≡ Some (record { zone = Fseg; size = 0x10002; align = 16 }) }
    ensures none { shelf.new.handed ≡ [] }
    ensures begun { shelf.new.begun.ready ≡ true }
{
    let first = Request {
        zone: Fseg,
        size: 0x1_0001,
        align: 1,
    };
    let second = Request {
        zone: Fseg,
        size: 0x1_0002,
        align: 16,
    };
    is_refused(rt, shelf, first);
    is_refused(rt, shelf, second);
}

// A reset leaves the count and what the shelf was begun with; no request that was refused is kept, and nothing is handed out.
fn is_reset(shelf: &mut ShelfAlloc)
    requires { shelf.old.begun.ready ≡ true }
    ensures count { shelf.new.refusals ≡ shelf.old.refusals }
    ensures begun { shelf.new.begun ≡ shelf.old.begun }
    ensures clear { shelf.new.refused ≡ None }
    ensures none { shelf.new.handed ≡ [] }
{
    shelf.reset();
}

// A request is refused: it is counted and kept, and all else is what it was.
fn is_refused(rt: &impl Abort, shelf: &mut ShelfAlloc, asked: Request)
    requires begun { shelf.old.begun.ready ≡ true }
    requires room { length shelf.old.handed < 1024 }
    requires size { 0 < asked.size }
    requires align { is_power_of_two asked.align ≡ true }
    ensures { shelf.new ≡ with_refusal asked shelf.old }
{
    let given = shelf.place(asked.zone, asked.size, asked.align);
    assert_eq!(rt; given, Err(NoRoom));
}

// A place is given, which leaves the count as it was, and no request that was refused.
fn a_place(rt: &impl Abort, shelf: &mut ShelfAlloc)
    requires begun { shelf.old.begun.ready ≡ true }
    requires none { shelf.old.handed ≡ [] }
    ensures count { shelf.new.refusals ≡ shelf.old.refusals }
    ensures clear { shelf.new.refused ≡ None }
{
    let given = shelf.place(High, 0x10, 0x10);
    assert_eq!(rt; given, Ok(0x300_0000));
}

#[test]
fn text_of_a_refusal(rt: HostRuntime) -> Result<(), Fail> {
    let text = NoRoom.to_string(rt.alloc())?;
    assert_eq!(rt; text.as_str(), "no room for the file");
    Ok(())
}
