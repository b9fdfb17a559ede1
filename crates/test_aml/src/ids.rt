//! Where terms lead to the id of a machine's generation, and what is left of them without that address.

use crate::machines::written;
use crate::told::{are_words, is_told, read, told, told_terms};
use aml_generation::take_generation;
use std::alloc::Global;
use std::process::Abort;
use std::test::Fail;

// A machine with power management and an id, and no other device.
const MACHINE: &str = "version = 1
top_mib = 64
system = {}
acpi = {}
power = { event = 1, control = 1, timer = 1, rtc = false, keyboard = false }
generation = '8A6E9C4A-6E6B-4B0E-9C2E-1D0F5A3B7C91'
";

// Its terms, as they are written and as they are left.
static WRITTEN: &[u8] = b"\x10\x3f\x5c_SB_\
    \x5b\x82\x37VGEN\x08_HID\x0dQEMUVGID\x00\x08_CID\x0dVM_Gen_Counter\x00\
    \x08ADDR\x12\x08\x02\x0c\x28\x00\x00\x00\x00";

static LEFT: &[u8] = b"\x10\x3f\x5c_SB_\
    \x5b\x82\x37VGEN\x08_HID\x0dQEMUVGID\x00\x08_CID\x0dVM_Gen_Counter\x00\
    \x08ADDR\x12\x08\x02\x0c\x00\x00\x00\x00\x00";

// Bytes, the address that their terms tell, and bytes that spell what is left.
static TAKEN: [(&[u8], u64, &[u8]); 6] = [
    // two devices, the first of which tells no package
    (
        b"\x10\x26\x5c_SB_\x5b\x82\x0cVGEN\x08ADDR\x0a\x28\x5b\x82\x10VGEN\x08ADDR\x12\x05\x02\x0a\x28\x01",
        0x1_0000_0028,
        b"\x10\x26\x5c_SB_\x5b\x82\x0cVGEN\x08ADDR\x0a\x28\x5b\x82\x10VGEN\x08ADDR\x12\x05\x02\x0a\x00\x00",
    ),
    // a scope of the system bus in a device
    (
        b"\x5b\x82\x21PCI0\x10\x1b\x5c_SB_\x5b\x82\x13VGEN\x08ADDR\x12\x08\x02\x0c\x28\x00\x00\x00\x00",
        0x28,
        b"\x5b\x82\x21PCI0\x10\x1b\x5c_SB_\x5b\x82\x13VGEN\x08ADDR\x12\x08\x02\x0c\x00\x00\x00\x00\x00",
    ),
    // a device directly in a scope comes before one in a scope inside it, though it stands behind
    (
        b"\x10\x30\x5c_SB_\x10\x17\x5c_SB_\x5b\x82\x0fVGEN\x08ADDR\x12\x04\x02\x01\x01\x5b\x82\x10VGEN\x08ADDR\x12\x05\x02\x0a\x28\x00",
        0x28,
        b"\x10\x30\x5c_SB_\x10\x17\x5c_SB_\x5b\x82\x0fVGEN\x08ADDR\x12\x04\x02\x01\x01\x5b\x82\x10VGEN\x08ADDR\x12\x05\x02\x0a\x00\x00",
    ),
    // the first of two devices, and the greatest halves
    (
        b"\x10\x30\x5c_SB_\x5b\x82\x17VGEN\x08ADDR\x12\x0c\x02\x0c\xff\xff\xff\xff\x0c\xff\xff\xff\xff\x5b\x82\x0fVGEN\x08ADDR\x12\x04\x02\x01\x01",
        u64::MAX,
        b"\x10\x30\x5c_SB_\x5b\x82\x17VGEN\x08ADDR\x12\x0c\x02\x0c\x00\x00\x00\x00\x0c\x00\x00\x00\x00\x5b\x82\x0fVGEN\x08ADDR\x12\x04\x02\x01\x01",
    ),
    // a half below 2^32 in a qword
    (
        b"\x10\x1f\x5c_SB_\x5b\x82\x17VGEN\x08ADDR\x12\x0c\x02\x0e\x28\x00\x00\x00\x00\x00\x00\x00\x00",
        0x28,
        b"\x10\x1f\x5c_SB_\x5b\x82\x17VGEN\x08ADDR\x12\x0c\x02\x0e\x00\x00\x00\x00\x00\x00\x00\x00\x00",
    ),
    // the address 0
    (
        b"\x10\x17\x5c_SB_\x5b\x82\x0fVGEN\x08ADDR\x12\x04\x02\x00\x00",
        0,
        b"\x10\x17\x5c_SB_\x5b\x82\x0fVGEN\x08ADDR\x12\x04\x02\x00\x00",
    ),
];

// Bytes whose terms tell no address, and are left as they are.
static PASSED_OVER: [&[u8]; 10] = [
    b"",
    b"\x10\x06\x5c_SB_",
    // a device in a bridge, which has a scope of its own or stands on the system bus
    b"\x10\x20\x5c\x2e_SB_PCI0\x5b\x82\x13VGEN\x08ADDR\x12\x08\x02\x0c\x28\x00\x00\x00\x00",
    b"\x10\x22\x5c_SB_\x5b\x82\x1aPCI0\x5b\x82\x13VGEN\x08ADDR\x12\x08\x02\x0c\x28\x00\x00\x00\x00",
    // a half of 2^32, the low one and the high one
    b"\x10\x1f\x5c_SB_\x5b\x82\x17VGEN\x08ADDR\x12\x0c\x02\x0e\x00\x00\x00\x00\x01\x00\x00\x00\x00",
    b"\x10\x1f\x5c_SB_\x5b\x82\x17VGEN\x08ADDR\x12\x0c\x02\x00\x0e\x00\x00\x00\x00\x01\x00\x00\x00",
    // the first of two names of one device, which tells no package
    b"\x10\x1f\x5c_SB_\x5b\x82\x17VGEN\x08ADDR\x0a\x28\x08ADDR\x12\x05\x02\x0a\x28\x01",
    // a package of one half and of three
    b"\x10\x17\x5c_SB_\x5b\x82\x0fVGEN\x08ADDR\x12\x04\x01\x0a\x28",
    b"\x10\x18\x5c_SB_\x5b\x82\x10VGEN\x08ADDR\x12\x05\x03\x00\x00\x00",
    // a device in no scope
    b"\x5b\x82\x13VGEN\x08ADDR\x12\x08\x02\x0c\x28\x00\x00\x00\x00",
];

#[test]
fn the_id_of_a_machine(rt: HostRuntime) -> Result<(), Fail> {
    let bytes = written(rt.alloc(), MACHINE.as_bytes())?;
    assert_eq!(&rt; *bytes.as_slice(), *WRITTEN);
    is_told(&rt, rt.alloc(), WRITTEN, WRITTEN_TOLD)?;
    is_taken(&rt, rt.alloc(), WRITTEN, Some(40), LEFT)
}

static WRITTEN_TOLD: &str = "scope \\._SB_ [ device .VGEN [ name ._HID text 51454d5556474944 \
    name ._CID text 564d5f47656e5f436f756e746572 \
    name .ADDR package [ int 0000000000000028 int 0000000000000000 ] ] ] ";

#[test]
fn addresses_are_taken(rt: HostRuntime) -> Result<(), Fail> {
    let alloc = rt.alloc();
    for (bytes, address, left) in &TAKEN {
        is_taken(&rt, alloc, *bytes, Some(*address), *left)?;
    }
    Ok(())
}

#[test]
fn others_are_passed_over(rt: HostRuntime) -> Result<(), Fail> {
    let alloc = rt.alloc();
    for bytes in &PASSED_OVER {
        is_taken(&rt, alloc, *bytes, None, *bytes)?;
    }
    Ok(())
}

// Asserts which address the terms of bytes tell, and that those of other bytes are left.
fn is_taken(
    rt: &impl Abort,
    alloc: Global,
    bytes: &[u8],
    wanted: Option<u64>,
    left: &[u8],
) -> Result<(), Fail> {
    let mut terms = read(alloc, bytes)?;
    let address = take_generation(&mut terms);
    let told_left = told_terms(alloc, terms.as_slice());
    drop(terms);
    assert_eq!(rt; address, wanted, "{bytes:?}");
    are_words(
        rt,
        told_left?.as_slice(),
        told(alloc, left)?.as_slice(),
        bytes,
    );
    Ok(())
}
