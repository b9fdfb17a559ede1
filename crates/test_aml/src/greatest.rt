//! The terms of machines with as many windows and routes, and as many processors, as there may be. Their sizes were worked out by hand.

use crate::machines::written;
use std::alloc::Global;
use std::process::Abort;
use std::test::Fail;
use vt_outside::Bytes;

// A machine with a clock and a keyboard.
const POWER: &str = "version = 1
top_mib = 64
system = {}
acpi = {}
power = { event = 1, control = 1, timer = 1 }
";

#[test]
fn the_greatest_bridge(rt: HostRuntime) -> Result<(), Fail> {
    let description = greatest_bridge(rt.alloc())?;
    let bytes = written(rt.alloc(), description.as_slice())?;
    is_greatest_bridge(&rt, bytes.as_slice());
    Ok(())
}

// The bridge's items are 16 bytes of buses, 32 windows of 46 and the end tag, and its 128 routes have 10 to 13 bytes.
fn is_greatest_bridge(rt: &impl Abort, bytes: &[u8]) {
    assert_eq!(rt; bytes.len(), 3236);
    is_at(rt, bytes, 0, b"\x10\x43\xca\x5c_SB_\x5b\x82\x44\xc4PCI0");
    is_at(rt, bytes, 48, b"\x08_CRS\x11\x47\x5d\x0b\xd2\x05");
    is_at(rt, bytes, 1549, b"\x08_PRT\x12\x4b\x63\x80");
}

fn is_at(rt: &impl Abort, bytes: &[u8], place: usize, wanted: &[u8]) {
    match bytes.get(place..) {
        Some(rest) => assert!(rt; rest.starts_with(wanted), "{place}"),
        None => panic!(rt; "fewer than {place} bytes"),
    }
}

fn greatest_bridge(alloc: Global) -> Result<Bytes, Fail> {
    let mut text = Bytes::new(alloc);
    text.extend(POWER.as_bytes())?;
    text.extend(b"[bridge]\necam = 0xE0000000\n")?;
    put_windows(alloc, &mut text)?;
    put_routes(alloc, &mut text)?;
    Ok(text)
}

fn put_windows(alloc: Global, text: &mut Bytes) -> Result<(), Fail> {
    for place in 0..32_u64 {
        put_window(alloc, text, place << 32)?;
    }
    Ok(())
}

fn put_window(alloc: Global, text: &mut Bytes, base: u64) -> Result<(), Fail> {
    let window = format!(in alloc;
        "[[bridge.window]]\nkind = 'mem64'\nsize = 0x100000000\nbase = {base}\n"
    )?;
    text.extend(window.as_bytes())?;
    Ok(())
}

// Each pin of each device.
fn put_routes(alloc: Global, text: &mut Bytes) -> Result<(), Fail> {
    for place in 0..128_u32 {
        put_route(alloc, text, place / 4, place % 4)?;
    }
    Ok(())
}

fn put_route(alloc: Global, text: &mut Bytes, device: u32, pin: u32) -> Result<(), Fail> {
    let gsi = (device % 4).saturating_add(pin) % 4;
    let route = format!(in alloc;
        "[[bridge.route]]\ndevice = {device}\npin = {pin}\ngsi = 0x1{gsi}\n"
    )?;
    text.extend(route.as_bytes())?;
    Ok(())
}

#[test]
fn the_most_processors(rt: HostRuntime) -> Result<(), Fail> {
    let description = most_processors(rt.alloc())?;
    let bytes = written(rt.alloc(), description.as_slice())?;
    are_most_processors(&rt, bytes.as_slice());
    Ok(())
}

// Two of them have 28 bytes, 254 have 29, and the others 30.
fn are_most_processors(rt: &impl Abort, bytes: &[u8]) {
    assert_eq!(rt; bytes.len(), 122_717);
    is_at(rt, bytes, 0, b"\x10\x8c\xf5\x1d\x5c_SB_\x5b\x82");
    is_at(rt, bytes, 122_687, LAST_PROCESSOR);
}

const LAST_PROCESSOR: &[u8] = b"\x5b\x82\x1cCFFF\x08_HID\x0dACPI0007\x00\x08_UID\x0b\xff\x0f";

fn most_processors(alloc: Global) -> Result<Bytes, Fail> {
    let mut text = Bytes::new(alloc);
    text.extend(POWER.as_bytes())?;
    text.extend(b"apic = {}\n")?;
    for apic in 0..4096_u32 {
        put_cpu(alloc, &mut text, apic)?;
    }
    Ok(text)
}

fn put_cpu(alloc: Global, text: &mut Bytes, apic: u32) -> Result<(), Fail> {
    let cpu = format!(in alloc; "[[cpu]]\napic = {apic}\n")?;
    text.extend(cpu.as_bytes())?;
    Ok(())
}
