//! A device that is reset, whatever it does: it is what it was when it began.

ghost use Rattle.std.specs.Prelude.{◌≡◌, IfOk};
ghost use Rattle.cfg_dma.specs.Transfers.{room_of};

use crate::device::ports::is_new;
use crate::device::rig::{
    Asked, DESCRIPTOR, FIXED, READ, Rig, SELECT, SKIP, TARGET, WRITABLE, WRITE, describe, device,
    finish, has_begun, has_bytes, has_target, memory, move_pieces, new_rig, start, start_low,
    transfer,
};
use cfg_directory::read_image;
use cfg_dma::Device;
use guest_memory::GuestMemory;
use std::alloc::Global;
use std::process::Abort;
use std::test::Fail;

// The device is reset, and is as it was; a piece then moves nothing.
fn is_reset(rt: &impl Abort, device: &mut Device, memory: &mut GuestMemory, target: [u8; 8])
    requires { room_of device.old ≡ 8 }
    ensures { room_of device.new ≡ 8 }
{
    device.reset();
    has_begun(rt, device, false, 0);
    device.piece(memory, u32::MAX);
    has_begun(rt, device, false, 0);
    has_target(rt, memory, target);
    has_bytes(rt, device, 0x20, &[5, 6, 7]);
    has_bytes(rt, device, 0x21, &[1, 2, 3, 4, 5, 6]);
}

// Nothing was moved to where bytes are moved.
const UNMOVED: [u8; 8] = [0xEE; 8];

// Items that are selected before a reset; none has the last selector.
static SELECTORS: [u16; 6] = [0x0000, 0x0001, 0x0019, 0x0020, 0x0021, 0x0022];

#[test]
fn with_an_item_selected(rt: HostRuntime) -> Result<(), Fail> {
    for select in &SELECTORS {
        is_reset_with(&rt, rt.alloc(), *select)?;
    }
    Ok(())
}

fn is_reset_with(rt: &impl Abort, alloc: Global, select: u16) -> Result<(), Fail> {
    let mut device = device(alloc)?;
    selects_and_is_reset(rt, &mut device, select);
    drop(device);
    Ok(())
}

// One byte is read of the item before, and two resets come in a row.
fn selects_and_is_reset(rt: &impl Abort, device: &mut Device, select: u16) {
    assert!(rt; !device.busy());
    device.write_selector(select);
    device.read_byte();
    device.reset();
    is_new(rt, device);
    device.reset();
    device.reset();
    is_new(rt, device);
}

#[test]
fn with_half_an_address(rt: HostRuntime) -> Result<(), Fail> {
    let mut rig = new_rig(rt.alloc())?;
    forgets_half_an_address(&rt, &mut rig.device, &mut rig.memory);
    drop(rig);
    Ok(())
}

// The upper half is 0 behind the reset, so that the lower one leads to the descriptor.
fn forgets_half_an_address(rt: &impl Abort, device: &mut Device, memory: &mut GuestMemory)
    requires { room_of device.old ≡ 8 }
{
    device.write_address_high(0x1234_5678);
    device.reset();
    let read = Asked {
        control: READ | SELECT | FIXED,
        length: 3,
        address: TARGET,
    };
    describe(memory, read);
    start_low(rt, device, memory, DESCRIPTOR);
    finish(rt, device, memory, u32::MAX);
    has_target(rt, memory, [5, 6, 7, 0xEE, 0xEE, 0xEE, 0xEE, 0xEE]);
}

// What was moved of the three bytes of a read before the reset.
static READ_BEFORE: [(u8, [u8; 8]); 4] = [
    (0, UNMOVED),
    (1, [5, 0xEE, 0xEE, 0xEE, 0xEE, 0xEE, 0xEE, 0xEE]),
    (2, [5, 6, 0xEE, 0xEE, 0xEE, 0xEE, 0xEE, 0xEE]),
    (3, [5, 6, 7, 0xEE, 0xEE, 0xEE, 0xEE, 0xEE]),
];

#[test]
fn within_a_read(rt: HostRuntime) -> Result<(), Fail> {
    let read = Asked {
        control: READ | SELECT | FIXED,
        length: 3,
        address: TARGET,
    };
    for (moved, target) in &READ_BEFORE {
        is_reset_within(&rt, rt.alloc(), read, *moved, *target)?;
    }
    Ok(())
}

// Five bytes are written over the first ones of the file; what was moved of them is taken back.
#[test]
fn within_a_write(rt: HostRuntime) -> Result<(), Fail> {
    let write = Asked {
        control: WRITE | SELECT | WRITABLE,
        length: 5,
        address: 0x9000,
    };
    for moved in 0..=5 {
        is_reset_within(&rt, rt.alloc(), write, moved, UNMOVED)?;
    }
    Ok(())
}

fn is_reset_within(
    rt: &impl Abort,
    alloc: Global,
    asked: Asked,
    moved: u8,
    target: [u8; 8],
) -> Result<(), Fail> {
    let mut rig = new_rig(alloc)?;
    moves_and_is_reset(rt, &mut rig.device, &mut rig.memory, asked, moved, target);
    drop(rig);
    Ok(())
}

// So many of its bytes are moved, one by one. Behind the reset the same transfer goes on from its beginning to its end.
fn moves_and_is_reset(
    rt: &impl Abort,
    device: &mut Device,
    memory: &mut GuestMemory,
    asked: Asked,
    moved: u8,
    target: [u8; 8],
)
    requires { room_of device.old ≡ 8 }
{
    start(rt, device, memory, asked);
    move_pieces(device, memory, moved, 1);
    is_reset(rt, device, memory, target);
    transfer(rt, device, memory, asked);
    has_begun(rt, device, false, 1);
}

// Files that may be written, of 2 and of 3 bytes, and one of no bytes that may not.
fn three_files() -> [u8; 204] {
    let mut image = [0; 204];
    image[..13].copy_from_slice(b"\0\0\0\x03\0\0\0\x02\0\x20\0\0a");
    image[68..77].copy_from_slice(b"\0\0\0\x03\0\x21\0\0b");
    image[132..141].copy_from_slice(b"\0\0\0\0\0\x22\0\0c");
    image[196..].copy_from_slice(&[1, 1, 0, 1, 2, 3, 4, 5]);
    image
}

fn rig_of_three(alloc: Global) -> Result<Rig, Fail>
    ensures { IfOk result (λ rig. room_of rig.device ≡ 8) }
{
    let memory = memory(alloc)?;
    let items = read_image(alloc, &three_files())?;
    let device = Device::begin(alloc, items, 8)?;
    Ok(Rig { device, memory })
}

#[test]
fn with_one_file_written(rt: HostRuntime) -> Result<(), Fail> {
    let mut rig = rig_of_three(rt.alloc())?;
    takes_back_a_write(&rt, &mut rig.device, &mut rig.memory);
    drop(rig);
    Ok(())
}

// Two bytes behind the first one of the second file.
fn takes_back_a_write(rt: &impl Abort, device: &mut Device, memory: &mut GuestMemory)
    requires { room_of device.old ≡ 8 }
{
    let skip = Asked {
        control: SKIP | SELECT | WRITABLE,
        length: 1,
        address: 0,
    };
    transfer(rt, device, memory, skip);
    let write = Asked {
        control: WRITE,
        length: 2,
        address: TARGET,
    };
    transfer(rt, device, memory, write);
    hold(rt, device, &[3, 0xEE, 0xEE]);
    device.reset();
    hold(rt, device, &[3, 4, 5]);
    has_begun(rt, device, false, 0);
}

// What the three files hold, where the second one holds this.
fn hold(rt: &impl Abort, device: &Device, second: &[u8]) {
    has_bytes(rt, device, 0x20, &[1, 2]);
    has_bytes(rt, device, 0x21, second);
    has_bytes(rt, device, 0x22, &[]);
}
