//! Writes, in pieces, and those that are refused.

ghost use Rattle.std.specs.Prelude.{◌≡◌};
ghost use Rattle.cfg_dma.specs.Transfers.{room_of};

use crate::device::rig::{
    Asked, FIXED, READ, SELECT, SKIP, TARGET, WRITABLE, WRITE, finish, has_bytes, has_control,
    has_finished, has_target, new_rig, start, transfer,
};
use cfg_dma::{Device, Finished, Kind};
use guest_memory::GuestMemory;
use std::alloc::Global;
use std::process::Abort;
use std::test::Fail;

#[test]
fn a_write_in_pieces(rt: HostRuntime) -> Result<(), Fail> {
    for bytes in &[1, 3, u32::MAX] {
        is_written_in(&rt, rt.alloc(), *bytes)?;
    }
    Ok(())
}

// In pieces of so many bytes.
fn is_written_in(rt: &impl Abort, alloc: Global, bytes: u32) -> Result<(), Fail> {
    let mut rig = new_rig(alloc)?;
    is_written(rt, &mut rig.device, &mut rig.memory, bytes);
    drop(rig);
    Ok(())
}

// Five bytes over the end of a frame go into the file from its second byte on.
fn is_written(rt: &impl Abort, device: &mut Device, memory: &mut GuestMemory, bytes: u32)
    requires { room_of device.old ≡ 8 }
{
    memory.copy_in(0x8FFD, &[21, 22, 23, 24, 25]);
    let skip = Asked {
        control: SKIP | SELECT | WRITABLE,
        length: 1,
        address: 0,
    };
    transfer(rt, device, memory, skip);
    let write = Asked {
        control: WRITE | SKIP,
        length: 5,
        address: 0x8FFD,
    };
    start(rt, device, memory, write);
    has_control(rt, memory, WRITE | SKIP);
    has_bytes(rt, device, 0x21, &[1, 2, 3, 4, 5, 6]);
    finish(rt, device, memory, bytes);
    has_control(rt, memory, 0);
    has_bytes(rt, device, 0x21, &[1, 21, 22, 23, 24, 25]);
}

// Writes that are refused: what was done before, the write, and what is read behind it.
static REFUSED: [(u32, u32, u32, u32, [u8; 8]); 4] = [
    (
        READ | SELECT | FIXED,
        1,
        WRITE,
        1,
        [6, 7, 0, 0, 0, 0, 0xEE, 0xEE],
    ),
    (
        SKIP | SELECT | WRITABLE,
        5,
        WRITE,
        2,
        [6, 0, 0, 0, 0, 0, 0xEE, 0xEE],
    ),
    (
        SELECT | WRITABLE,
        0,
        WRITE,
        u32::MAX,
        [1, 2, 3, 4, 5, 6, 0xEE, 0xEE],
    ),
    (
        SELECT,
        0,
        WRITE,
        1,
        [0x51, 0x45, 0x4D, 0x55, 0, 0, 0xEE, 0xEE],
    ),
];

#[test]
fn refused_writes(rt: HostRuntime) -> Result<(), Fail> {
    for (before, count, control, length, behind) in &REFUSED {
        let first = Asked {
            control: *before,
            length: *count,
            address: TARGET,
        };
        let write = Asked {
            control: *control,
            length: *length,
            address: 0x6000,
        };
        is_refused_behind(&rt, rt.alloc(), first, write, behind)?;
    }
    Ok(())
}

fn is_refused_behind(
    rt: &impl Abort,
    alloc: Global,
    first: Asked,
    write: Asked,
    behind: &[u8; 8],
) -> Result<(), Fail> {
    let mut rig = new_rig(alloc)?;
    transfer(rt, &mut rig.device, &mut rig.memory, first);
    is_refused(rt, &mut rig.device, &mut rig.memory, write, behind);
    drop(rig);
    Ok(())
}

// The write has failed once it is started, nothing was moved, and the offset has stayed.
fn is_refused(
    rt: &impl Abort,
    device: &mut Device,
    memory: &mut GuestMemory,
    write: Asked,
    behind: &[u8; 8],
)
    requires { room_of device.old ≡ 8 }
    ensures { room_of device.new ≡ 8 }
{
    start(rt, device, memory, write);
    has_control(rt, memory, 1);
    assert!(rt; !device.busy());
    has_bytes(rt, device, 0x20, &[5, 6, 7]);
    has_bytes(rt, device, 0x21, &[1, 2, 3, 4, 5, 6]);
    let read = Asked {
        control: READ,
        length: 6,
        address: TARGET,
    };
    transfer(rt, device, memory, read);
    has_target(rt, memory, *behind);
}

#[test]
fn the_record_of_a_refusal(rt: HostRuntime) -> Result<(), Fail> {
    let mut rig = new_rig(rt.alloc())?;
    is_recorded(&rt, &mut rig.device, &mut rig.memory);
    drop(rig);
    Ok(())
}

fn is_recorded(rt: &impl Abort, device: &mut Device, memory: &mut GuestMemory)
    requires { room_of device.old ≡ 8 }
{
    let write = Asked {
        control: WRITE | SELECT | FIXED,
        length: 2,
        address: TARGET,
    };
    start(rt, device, memory, write);
    let last = Finished {
        kind: Kind::Write,
        select: 0x20,
        offset: 0,
        length: 2,
        address: TARGET,
        error: true,
    };
    has_finished(rt, device, 1, last);
}
