//! The registers that a guest writes and reads byte by byte.

use crate::device::rig::{device, image};
use cfg_dma::Device;
use std::process::Abort;
use std::test::Fail;

// Items by their selectors, and the first six bytes that each is read as.
static ITEMS: [(u16, [u8; 6]); 6] = [
    (0x0000, [0x51, 0x45, 0x4D, 0x55, 0, 0]),
    (0x0001, [3, 0, 0, 0, 0, 0]),
    (0x0019, [0, 0, 0, 2, 0, 0]),
    (0x0020, [5, 6, 7, 0, 0, 0]),
    (0x0021, [1, 2, 3, 4, 5, 6]),
    (0x0022, [0, 0, 0, 0, 0, 0]),
];

#[test]
fn bytes_of_items(rt: HostRuntime) -> Result<(), Fail> {
    let mut device = device(rt.alloc())?;
    are_read_twice(&rt, &mut device);
    drop(device);
    Ok(())
}

fn are_read_twice(rt: &impl Abort, device: &mut Device) {
    for (select, bytes) in &ITEMS {
        is_read(rt, device, *select, bytes);
        is_read(rt, device, *select, bytes);
    }
}

// Selects an item, which sets the offset to 0, and reads its first bytes.
fn is_read(rt: &impl Abort, device: &mut Device, select: u16, bytes: &[u8; 6]) {
    assert!(rt; !device.busy());
    device.write_selector(select);
    for byte in bytes {
        next_is(rt, device, *byte);
    }
}

/// The next byte of the selected item is this one.
pub(crate) fn next_is(rt: &impl Abort, device: &mut Device, byte: u8) {
    assert!(rt; !device.busy());
    assert_eq!(rt; device.read_byte(), byte);
}

#[test]
fn the_directory(rt: HostRuntime) -> Result<(), Fail> {
    let mut device = device(rt.alloc())?;
    is_directory(&rt, &mut device, &image());
    drop(device);
    Ok(())
}

// The directory is what the container begins with, and then nothing.
fn is_directory(rt: &impl Abort, device: &mut Device, image: &[u8; 143]) {
    assert!(rt; !device.busy());
    device.write_selector(0x0019);
    for byte in &image[..132] {
        next_is(rt, device, *byte);
    }
    next_is(rt, device, 0);
}

#[test]
fn a_new_device(rt: HostRuntime) -> Result<(), Fail> {
    let mut device = device(rt.alloc())?;
    is_new(&rt, &mut device);
    drop(device);
    Ok(())
}

// Items by their selectors, and whether the host sees each. It sees files alone.
static SEEN: [(u16, bool); 6] = [
    (0x0000, false),
    (0x0001, false),
    (0x0019, false),
    (0x0020, true),
    (0x0021, true),
    (0x0022, false),
];

/// The device is as it is when it begins: item 0x0000 is selected at its start, the address register reads as it does while it is 0, and no
/// transfer is over.
pub(crate) fn is_new(rt: &impl Abort, device: &mut Device) {
    assert_eq!(rt; device.read_address(), 0x5145_4D55_2043_4647);
    next_is(rt, device, 0x51);
    are_seen(rt, device);
}

fn are_seen(rt: &impl Abort, device: &Device) {
    assert!(rt; device.finished().is_empty());
    for (select, is_seen) in &SEEN {
        assert_eq!(rt; device.item(*select).is_some(), *is_seen, "{select}");
    }
}
