//! The load of the minimal machine's files, stopped in its middle: what a reset there gives back.

ghost use Rattle.std.specs.Prelude.{◌≡◌, true, IfSome, IsSome};
ghost use Rattle.command_acts.specs.Allocators.{AreZonesOf};
ghost use Rattle.command_acts.specs.FilesInMemory.{placed_ranges};

use crate::files::{File, items_of};
use crate::rig::{Held, are_held, begin_filled, begin_zones, is_in};
use crate::scripts::Line::{self, AddChecksum, AddPointer, Allocate};
use crate::scripts::{FSEG, HIGH};
use crate::steps::{TURN, take_turns};
use firmware_load::{Event, State, World};
use std::alloc::Global;
use std::process::Abort;
use std::test::Fail;
use zone_alloc::{Policy, ShelfAlloc, ZoneAlloc};

// Its files, as docs/FORMATS.md has them: an anchor (DSP0134, 5.2.2) with zeros for its sum and for the address of the structures, and these.
static FILES: [File<'static>; 2] = [
    File {
        name: "etc/smbios/smbios-anchor",
        writable: false,
        bytes: b"_SM3_\0\x18\x03\0\0\x01\0\x2a\0\0\0\0\0\0\0\0\0\0\0",
    },
    File {
        name: "etc/smbios/smbios-tables",
        writable: false,
        bytes: STRUCTURES,
    },
];

const STRUCTURES: &[u8] =
    b"\x01\x1b\0\x01\x01\x02\0\0\x33\x22\x11\0\x55\x44\x77\x66\x88\x99\xaa\xbb\xcc\xdd\xee\xff\x06\0\0ACME\0VM\0\0\x7f\x04\0\x7f\0\0";

static SCRIPT: [Line; 4] = [
    Allocate("etc/smbios/smbios-tables", 16, HIGH),
    Allocate("etc/smbios/smbios-anchor", 16, FSEG),
    AddPointer(
        "etc/smbios/smbios-anchor",
        "etc/smbios/smbios-tables",
        16,
        8,
    ),
    AddChecksum("etc/smbios/smbios-anchor", 5, 0, 24),
];

// Behind eleven steps, each with a piece as long as any: both files are placed, and the address of the structures stands in the anchor, whose sum
// is still to come.
static POINTED: [Held<'static>; 2] = [
    Held(
        0xF_0000,
        b"_SM3_\0\x18\x03\0\0\x01\0\x2a\0\0\0\0\0\0\x03\0\0\0\0",
    ),
    Held(0x300_0000, STRUCTURES),
];

// Behind a reset the anchor is gone, and the structures stand where nothing leads.
static RESET: [Held<'static>; 2] = [Held(0xF_0000, &[0; 24]), Held(0x300_0000, STRUCTURES)];

#[test]
fn reset_behind_a_pointer(rt: HostRuntime) -> Result<(), Fail> {
    let mut shelf = ShelfAlloc::new();
    let mut world = World::idle();
    let done = is_reset_in(&rt, rt.alloc(), &mut world, &mut shelf);
    drop(world);
    drop(shelf);
    done
}

fn is_reset_in<A: ZoneAlloc>(
    rt: &impl Abort,
    alloc: Global,
    world: &mut World,
    place: &mut A,
) -> Result<(), Fail> {
    let items = items_of(alloc, &FILES, 0, &SCRIPT)?;
    begin_filled(alloc, world, items, 0)?;
    begin_zones(alloc, place, Policy::Low)?;
    leaves(rt, world, place, 11, TURN, &POINTED);
    leaves(rt, world, place, 1, &[Event::Reset], &RESET);
    Ok(())
}

// The events come so often in turn, and memory then holds these bytes; the load goes on.
fn leaves<A: ZoneAlloc>(
    rt: &impl Abort,
    world: &mut World,
    place: &mut A,
    count: u8,
    events: &[Event],
    held: &[Held],
)
    requires some { IsSome world.old.load }
    requires begun { (A.state place.old).begun.ready ≡ true }
    requires zones { AreZonesOf 0x4000000 (A.state place.old).begun.zones }
    requires handed { IfSome world.old.load (λ w. (A.state place.old).handed ≡ placed_ranges w.placed) }
    ensures some { IsSome world.new.load }
    ensures begun { (A.state place.new).begun.ready ≡ true }
    ensures zones { AreZonesOf 0x4000000 (A.state place.new).begun.zones }
    ensures handed { IfSome world.new.load (λ w. (A.state place.new).handed ≡ placed_ranges w.placed) }
{
    take_turns(rt, world, place, count, events);
    is_in(rt, world, State::Running);
    are_held(rt, world.memory(), held);
}
