//! Descriptors and ranges of memory that aren't RAM.

ghost use Rattle.std.specs.Prelude.{◌≡◌};
ghost use Rattle.cfg_dma.specs.Transfers.{room_of};

use crate::device::rig::{
    Asked, DESCRIPTOR, FIXED, READ, SELECT, TARGET, WRITABLE, WRITE, describe, device, finish,
    has_begun, has_bytes, has_control, has_target, memory, start, start_at, start_low,
};
use cfg_dma::Device;
use guest_memory::GuestMemory;
use std::alloc::Global;
use std::process::Abort;
use std::test::Fail;

// Halves of addresses at which no 16 bytes are RAM.
static NO_DESCRIPTORS: [(u32, u32); 6] = [
    (0, 0x9_FFF1),
    (0, 0xA_0000),
    (0, 0xF_FFF1),
    (0, 0x3FF_FFF1),
    (1, 0x7000),
    (u32::MAX, u32::MAX),
];

#[test]
fn descriptors_that_are_no_ram(rt: HostRuntime) -> Result<(), Fail> {
    let mut memory = memory(rt.alloc())?;
    are_passed_over(&rt, rt.alloc(), &mut memory)
}

fn are_passed_over(rt: &impl Abort, alloc: Global, memory: &mut GuestMemory) -> Result<(), Fail> {
    for (high, low) in &NO_DESCRIPTORS {
        is_passed_over_anew(rt, alloc, memory, *high, *low)?;
    }
    Ok(())
}

// By a device of its own.
fn is_passed_over_anew(
    rt: &impl Abort,
    alloc: Global,
    memory: &mut GuestMemory,
    high: u32,
    low: u32,
) -> Result<(), Fail> {
    let mut device = device(alloc)?;
    is_passed_over(rt, &mut device, memory, high, low);
    drop(device);
    Ok(())
}

// Nothing happens but that the register is zero: the next write of its lower half is the whole address.
fn is_passed_over(
    rt: &impl Abort,
    device: &mut Device,
    memory: &mut GuestMemory,
    high: u32,
    low: u32,
)
    requires { room_of device.old ≡ 8 }
{
    let asked = Asked {
        control: READ | SELECT | FIXED,
        length: 3,
        address: TARGET,
    };
    describe(memory, asked);
    start_at(rt, device, memory, high, low);
    has_begun(rt, device, false, 0);
    has_control(rt, memory, READ | SELECT | FIXED);
    start_low(rt, device, memory, DESCRIPTOR);
    finish(rt, device, memory, 2);
    has_target(rt, memory, [5, 6, 7, 0xEE, 0xEE, 0xEE, 0xEE, 0xEE]);
}

// Ranges of memory by their address and length, and the control word that a read and a write of them leave.
static RANGES: [(u64, u32, u32); 9] = [
    (0x9_FFFF, 2, 1),
    (0xA_0000, 1, 1),
    (0x400_0000, 1, 1),
    (TARGET, u32::MAX, 1),
    (u64::MAX, 1, 1),
    (u64::MAX, u32::MAX, 1),
    (u64::MAX - 1, 3, 1),
    (u64::MAX, 0, 0),
    (0xA_0000, 0, 0),
];

#[test]
fn ranges_that_are_no_ram(rt: HostRuntime) -> Result<(), Fail> {
    let mut memory = memory(rt.alloc())?;
    are_over_at_once(&rt, rt.alloc(), &mut memory)
}

fn are_over_at_once(rt: &impl Abort, alloc: Global, memory: &mut GuestMemory) -> Result<(), Fail> {
    for (address, length, left) in &RANGES {
        is_over_at_once_both_ways(rt, alloc, memory, *address, *length, *left)?;
    }
    Ok(())
}

// As a read and as a write.
fn is_over_at_once_both_ways(
    rt: &impl Abort,
    alloc: Global,
    memory: &mut GuestMemory,
    address: u64,
    length: u32,
    left: u32,
) -> Result<(), Fail> {
    for control in &[READ | SELECT | FIXED, WRITE | SELECT | WRITABLE] {
        let asked = Asked {
            control: *control,
            length,
            address,
        };
        is_over_at_once_anew(rt, alloc, memory, asked, left)?;
    }
    Ok(())
}

// By a device of its own.
fn is_over_at_once_anew(
    rt: &impl Abort,
    alloc: Global,
    memory: &mut GuestMemory,
    asked: Asked,
    left: u32,
) -> Result<(), Fail> {
    let mut device = device(alloc)?;
    is_over_at_once(rt, &mut device, memory, asked, left);
    drop(device);
    Ok(())
}

fn is_over_at_once(
    rt: &impl Abort,
    device: &mut Device,
    memory: &mut GuestMemory,
    asked: Asked,
    left: u32,
)
    requires { room_of device.old ≡ 8 }
{
    start(rt, device, memory, asked);
    has_begun(rt, device, false, 1);
    has_control(rt, memory, left);
    has_target(rt, memory, [0xEE; 8]);
    has_bytes(rt, device, 0x21, &[1, 2, 3, 4, 5, 6]);
}
