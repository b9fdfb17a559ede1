//! A device with two files and the memory that it is attached to, and what a guest does with them.

ghost use Rattle.std.specs.Prelude.{◌≡◌, IfOk};
ghost use Rattle.cfg_dma.specs.Transfers.{attached, CanMove, room_of};

use cfg_directory::read_image;
use cfg_dma::{Device, Finished};
use guest_memory::GuestMemory;
use std::alloc::Global;
use std::process::Abort;
use std::test::Fail;
use vt_outside::OutOfMemory;

/// Where a descriptor stands, and where bytes are moved.
pub(crate) const DESCRIPTOR: u32 = 0x7000;

pub(crate) const TARGET: u64 = 0x8000;

/// Bits of a control word.
pub(crate) const ERROR: u32 = 0x01;

pub(crate) const READ: u32 = 0x02;

pub(crate) const SKIP: u32 = 0x04;

pub(crate) const SELECT: u32 = 0x08;

pub(crate) const WRITE: u32 = 0x10;

/// The files: 0x20 is only read and holds 5, 6 and 7; 0x21 may be written and holds 1 to 6.
pub(crate) const FIXED: u32 = 0x20_0000;

pub(crate) const WRITABLE: u32 = 0x21_0000;

/// Their directory.
pub(crate) const DIRECTORY: u32 = 0x19_0000;

/// What a descriptor asks for.
#[derive(Clone, Copy, Debug)]
pub(crate) struct Asked {
    pub(crate) control: u32,
    pub(crate) length: u32,
    pub(crate) address: u64,
}

/// A device and the memory that it is attached to. A test ends with a call that drops it: in its own proof each of its parts would be
/// dropped.
#[derive(Drop)]
pub(crate) struct Rig {
    pub(crate) device: Device,
    pub(crate) memory: GuestMemory,
}

/// Makes a device and its memory.
pub(crate) fn new_rig(alloc: Global) -> Result<Rig, Fail>
    ensures { IfOk result (λ rig. room_of rig.device ≡ 8) }
{
    let memory = memory(alloc)?;
    let device = device(alloc)?;
    Ok(Rig { device, memory })
}

/// Makes a device with room for 8 transfers.
pub(crate) fn device(alloc: Global) -> Result<Device, Fail>
    ensures { IfOk result (λ device. room_of device ≡ 8) }
{
    let items = read_image(alloc, &image())?;
    Ok(Device::begin(alloc, items, 8)?)
}

/// The container of the two files, which begins with their directory of 132 bytes.
pub(crate) fn image() -> [u8; 143] {
    let mut image = [0; 143];
    image[..13].copy_from_slice(b"\0\0\0\x02\0\0\0\x03\0\x20\0\0a");
    image[68..77].copy_from_slice(b"\0\0\0\x06\0\x21\0\0b");
    image[132..].copy_from_slice(&[0, 1, 5, 6, 7, 1, 2, 3, 4, 5, 6]);
    image
}

/// Makes memory of 64 MiB in which each byte is 0xEE.
pub(crate) fn memory(alloc: Global) -> Result<GuestMemory, OutOfMemory> {
    GuestMemory::begin(alloc, 0x400_0000, 0xEE)
}

/// Starts a transfer.
pub(crate) fn start(rt: &impl Abort, device: &mut Device, memory: &mut GuestMemory, asked: Asked)
    requires { room_of device.old ≡ 8 }
    ensures can_move { CanMove (attached device.new memory.new.memory) }
    ensures room { room_of device.new ≡ 8 }
{
    describe(memory, asked);
    start_at(rt, device, memory, 0, DESCRIPTOR);
}

/// Writes a descriptor.
pub(crate) fn describe(memory: &mut GuestMemory, asked: Asked) {
    memory.copy_in(0x7000, &asked.control.to_be_bytes());
    memory.copy_in(0x7004, &asked.length.to_be_bytes());
    memory.copy_in(0x7008, &asked.address.to_be_bytes());
}

/// Writes both halves of the address register.
pub(crate) fn start_at(
    rt: &impl Abort,
    device: &mut Device,
    memory: &mut GuestMemory,
    high: u32,
    low: u32,
)
    requires { room_of device.old ≡ 8 }
    ensures can_move { CanMove (attached device.new memory.new.memory) }
    ensures room { room_of device.new ≡ 8 }
{
    device.write_address_high(high);
    start_low(rt, device, memory, low);
}

/// Writes the lower half of the address register.
pub(crate) fn start_low(rt: &impl Abort, device: &mut Device, memory: &mut GuestMemory, low: u32)
    requires { room_of device.old ≡ 8 }
    ensures can_move { CanMove (attached device.new memory.new.memory) }
    ensures room { room_of device.new ≡ 8 }
{
    assert!(rt; !device.busy());
    assert!(rt; device.finished().len() < 8);
    device.write_address_low(memory, low);
}

/// Moves pieces of `bytes` bytes until the transfer is over.
pub(crate) fn finish(rt: &impl Abort, device: &mut Device, memory: &mut GuestMemory, bytes: u32)
    requires can_move { CanMove (attached device.old memory.old.memory) }
    requires room { room_of device.old ≡ 8 }
    ensures { room_of device.new ≡ 8 }
{
    move_pieces(device, memory, 16, bytes);
    assert!(rt; !device.busy());
}

/// Moves so many pieces of `bytes` bytes.
pub(crate) fn move_pieces(device: &mut Device, memory: &mut GuestMemory, count: u8, bytes: u32)
    requires can_move { CanMove (attached device.old memory.old.memory) }
    requires room { room_of device.old ≡ 8 }
    ensures { room_of device.new ≡ 8 }
{
    for _piece in 0..count {
        device.piece(memory, bytes);
    }
}

/// Starts a transfer and moves it as one piece.
pub(crate) fn transfer(rt: &impl Abort, device: &mut Device, memory: &mut GuestMemory, asked: Asked)
    requires { room_of device.old ≡ 8 }
    ensures { room_of device.new ≡ 8 }
{
    start(rt, device, memory, asked);
    finish(rt, device, memory, u32::MAX);
}

/// Compares the control word.
pub(crate) fn has_control(rt: &impl Abort, memory: &GuestMemory, control: u32) {
    let mut bytes = [0; 4];
    memory.copy_out(0x7000, &mut bytes);
    assert_eq!(rt; u32::from_be_bytes(bytes), control);
}

/// Compares the first 8 bytes where bytes are moved.
pub(crate) fn has_target(rt: &impl Abort, memory: &GuestMemory, target: [u8; 8]) {
    let mut bytes = [0; 8];
    memory.copy_out(TARGET, &mut bytes);
    assert_eq!(rt; bytes, target);
}

/// Compares whether a transfer is in flight, and how many are over.
pub(crate) fn has_begun(rt: &impl Abort, device: &Device, busy: bool, count: usize) {
    assert_eq!(rt; (device.busy(), device.finished().len()), (busy, count));
}

/// Compares how many transfers are over, and the last one.
pub(crate) fn has_finished(rt: &impl Abort, device: &Device, count: usize, last: Finished) {
    assert_eq!(rt; device.finished().len(), count);
    match device.finished().last() {
        Some(finished) => assert_eq!(rt; *finished, last),
        None => panic!(rt; "no transfer is over"),
    }
}

/// Compares what a file holds.
pub(crate) fn has_bytes(rt: &impl Abort, device: &Device, select: u16, bytes: &[u8]) {
    match device.item(select) {
        Some(item) => assert_eq!(rt; item.bytes.as_slice(), bytes),
        None => panic!(rt; "no file"),
    }
}
