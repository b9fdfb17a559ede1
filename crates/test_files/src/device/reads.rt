//! Reads, skips, and descriptors that ask for nothing.

ghost use Rattle.std.specs.Prelude.{◌≡◌};
ghost use Rattle.cfg_dma.specs.Transfers.{room_of};

use crate::device::rig::{
    Asked, DIRECTORY, ERROR, FIXED, READ, SELECT, SKIP, TARGET, WRITABLE, WRITE, finish, has_begun,
    has_control, has_finished, has_target, new_rig, start, transfer,
};
use cfg_dma::{Device, Finished, Kind};
use guest_memory::GuestMemory;
use std::alloc::Global;
use std::process::Abort;
use std::test::Fail;

// A read of 8 bytes of item 0x0000.
const SIGNATURE: Asked = Asked {
    control: READ | SELECT,
    length: 8,
    address: TARGET,
};

#[test]
fn the_signature_in_pieces(rt: HostRuntime) -> Result<(), Fail> {
    for bytes in &[1, 3, u32::MAX] {
        is_signature_in(&rt, rt.alloc(), *bytes)?;
    }
    Ok(())
}

// In pieces of so many bytes.
fn is_signature_in(rt: &impl Abort, alloc: Global, bytes: u32) -> Result<(), Fail> {
    let mut rig = new_rig(alloc)?;
    is_signature(rt, &mut rig.device, &mut rig.memory, bytes);
    drop(rig);
    Ok(())
}

fn is_signature(rt: &impl Abort, device: &mut Device, memory: &mut GuestMemory, bytes: u32)
    requires { room_of device.old ≡ 8 }
{
    start(rt, device, memory, SIGNATURE);
    has_begun(rt, device, true, 0);
    has_control(rt, memory, READ | SELECT);
    finish(rt, device, memory, bytes);
    is_read(rt, device, memory);
}

fn is_read(rt: &impl Abort, device: &Device, memory: &GuestMemory) {
    has_target(rt, memory, [0x51, 0x45, 0x4D, 0x55, 0, 0, 0, 0]);
    has_control(rt, memory, 0);
    let last = Finished {
        kind: Kind::Read,
        select: 0,
        offset: 0,
        length: 8,
        address: TARGET,
        error: false,
    };
    has_finished(rt, device, 1, last);
}

// Transfers by their control words and lengths, one after the other, and what then stands where bytes are moved.
static IN_TURN: [(u32, u32, [u8; 8]); 8] = [
    (
        READ | SELECT | FIXED,
        1,
        [5, 0xEE, 0xEE, 0xEE, 0xEE, 0xEE, 0xEE, 0xEE],
    ),
    (READ, 4, [6, 7, 0, 0, 0xEE, 0xEE, 0xEE, 0xEE]),
    (READ, 1, [0, 7, 0, 0, 0xEE, 0xEE, 0xEE, 0xEE]),
    (
        SKIP | SELECT | WRITABLE,
        4,
        [0, 7, 0, 0, 0xEE, 0xEE, 0xEE, 0xEE],
    ),
    (
        READ | SKIP | WRITE | ERROR,
        3,
        [5, 6, 0, 0, 0xEE, 0xEE, 0xEE, 0xEE],
    ),
    (SELECT | WRITABLE, 9, [5, 6, 0, 0, 0xEE, 0xEE, 0xEE, 0xEE]),
    (READ, 2, [1, 2, 0, 0, 0xEE, 0xEE, 0xEE, 0xEE]),
    (READ | SELECT | DIRECTORY, 8, [0, 0, 0, 2, 0, 0, 0, 3]),
];

#[test]
fn one_after_the_other(rt: HostRuntime) -> Result<(), Fail> {
    let mut rig = new_rig(rt.alloc())?;
    are_in_turn(&rt, &mut rig.device, &mut rig.memory);
    drop(rig);
    Ok(())
}

fn are_in_turn(rt: &impl Abort, device: &mut Device, memory: &mut GuestMemory)
    requires { room_of device.old ≡ 8 }
{
    for (control, length, target) in &IN_TURN {
        leaves(rt, device, memory, *control, *length, target);
    }
}

// The transfer leaves these bytes where bytes are moved.
fn leaves(
    rt: &impl Abort,
    device: &mut Device,
    memory: &mut GuestMemory,
    control: u32,
    length: u32,
    target: &[u8; 8],
)
    requires { room_of device.old ≡ 8 }
    ensures { room_of device.new ≡ 8 }
{
    let asked = Asked {
        control,
        length,
        address: TARGET,
    };
    transfer(rt, device, memory, asked);
    has_control(rt, memory, 0);
    has_target(rt, memory, *target);
}

// The second read is of the same bytes as the first.
#[test]
fn a_select_resets_the_offset(rt: HostRuntime) -> Result<(), Fail> {
    let mut rig = new_rig(rt.alloc())?;
    read_two(&rt, &mut rig.device, &mut rig.memory);
    read_two(&rt, &mut rig.device, &mut rig.memory);
    drop(rig);
    Ok(())
}

fn read_two(rt: &impl Abort, device: &mut Device, memory: &mut GuestMemory)
    requires { room_of device.old ≡ 8 }
    ensures { room_of device.new ≡ 8 }
{
    let asked = Asked {
        control: READ | SELECT | FIXED,
        length: 2,
        address: TARGET,
    };
    start(rt, device, memory, asked);
    finish(rt, device, memory, 1);
    has_target(rt, memory, [5, 6, 0xEE, 0xEE, 0xEE, 0xEE, 0xEE, 0xEE]);
}

#[test]
fn a_skip_past_the_end(rt: HostRuntime) -> Result<(), Fail> {
    let mut rig = new_rig(rt.alloc())?;
    skip_all(&rt, &mut rig.device, &mut rig.memory);
    drop(rig);
    Ok(())
}

fn skip_all(rt: &impl Abort, device: &mut Device, memory: &mut GuestMemory)
    requires { room_of device.old ≡ 8 }
{
    let skip = Asked {
        control: SKIP | SELECT | FIXED,
        length: u32::MAX,
        address: u64::MAX,
    };
    start(rt, device, memory, skip);
    has_control(rt, memory, 0);
    has_target(rt, memory, [0xEE; 8]);
    let last = Finished {
        kind: Kind::Skip,
        select: 0x20,
        offset: 0,
        length: u32::MAX,
        address: u64::MAX,
        error: false,
    };
    has_finished(rt, device, 1, last);
    is_at_end(rt, device, memory);
}

// The offset is the item's size.
fn is_at_end(rt: &impl Abort, device: &mut Device, memory: &mut GuestMemory)
    requires { room_of device.old ≡ 8 }
{
    let nothing = Asked {
        control: 0,
        length: 7,
        address: 1,
    };
    start(rt, device, memory, nothing);
    let last = Finished {
        kind: Kind::Nothing,
        select: 0x20,
        offset: 3,
        length: 7,
        address: 1,
        error: false,
    };
    has_finished(rt, device, 2, last);
}

#[test]
fn many_zeros_over_frames(rt: HostRuntime) -> Result<(), Fail> {
    for bytes in &[700, u32::MAX] {
        are_zeros_in(&rt, rt.alloc(), *bytes)?;
    }
    Ok(())
}

// In pieces of so many bytes.
fn are_zeros_in(rt: &impl Abort, alloc: Global, bytes: u32) -> Result<(), Fail> {
    let mut rig = new_rig(alloc)?;
    are_zeros(rt, &mut rig.device, &mut rig.memory, bytes);
    drop(rig);
    Ok(())
}

fn are_zeros(rt: &impl Abort, device: &mut Device, memory: &mut GuestMemory, bytes: u32)
    requires { room_of device.old ≡ 8 }
{
    let asked = Asked {
        control: READ | SELECT,
        length: 9000,
        address: 0x8FFE,
    };
    start(rt, device, memory, asked);
    finish(rt, device, memory, bytes);
    have_sums_of_zeros(rt, memory);
}

fn have_sums_of_zeros(rt: &impl Abort, memory: &GuestMemory) {
    let sums = (
        memory.sum_range(0x8FFE, 9000),
        memory.sum_range(0x8FFD, 9002),
    );
    assert_eq!(rt; sums, (0x38, 0x14));
}

#[test]
fn a_read_over_its_own_descriptor(rt: HostRuntime) -> Result<(), Fail> {
    let mut rig = new_rig(rt.alloc())?;
    read_over_descriptor(&rt, &mut rig.device, &mut rig.memory);
    drop(rig);
    Ok(())
}

fn read_over_descriptor(rt: &impl Abort, device: &mut Device, memory: &mut GuestMemory)
    requires { room_of device.old ≡ 8 }
{
    let asked = Asked {
        control: READ | SELECT,
        length: 4,
        address: 0x7002,
    };
    start(rt, device, memory, asked);
    device.piece(memory, 1);
    has_control(rt, memory, 0x0000_510A);
    finish(rt, device, memory, 2);
    has_control(rt, memory, 0);
    assert_eq!(rt; memory.read(0x7004), 0x4D);
}
