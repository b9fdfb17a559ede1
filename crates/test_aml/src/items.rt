//! Resource templates. iasl makes the same bytes of the same resources.

use resource_items::{
    DwordSpace, FixedMemory, IoPort, IrqMask, QwordSpace, ResourceItem, WordSpace,
    resource_template,
};
use std::alloc::Global;
use std::process::Abort;
use std::test::Fail;

// A serial port.
#[test]
fn a_port_and_an_interrupt(rt: HostRuntime) -> Result<(), Fail> {
    let port = IoPort {
        min: 0x3F8,
        max: 0x3F8,
        length: 8,
    };
    let irq = IrqMask { mask: 0x0010 };
    is_template(
        &rt,
        rt.alloc(),
        &[ResourceItem::Port(port), ResourceItem::Irq(irq)],
        b"\x47\x01\xf8\x03\xf8\x03\x01\x08\x22\x10\x00\x79\x00",
    )
}

#[test]
fn buses(rt: HostRuntime) -> Result<(), Fail> {
    let buses = WordSpace {
        kind: 2,
        flags: 0,
        granularity: 0,
        first: 0,
        last: 255,
        translation: 0,
        length: 256,
    };
    is_template(
        &rt,
        rt.alloc(),
        &[ResourceItem::Word(buses)],
        b"\x88\x0d\x00\x02\x0c\x00\x00\x00\x00\x00\xff\x00\x00\x00\x00\x01\x79\x00",
    )
}

// The registers of a timer, and memory behind a bridge, below 4 GiB and above.
#[test]
fn memories(rt: HostRuntime) -> Result<(), Fail> {
    let timer = FixedMemory {
        base: 0xFED0_0000,
        length: 0x400,
    };
    let below = DwordSpace {
        kind: 0,
        flags: 1,
        granularity: 0,
        first: 0xC000_0000,
        last: 0xFEBF_FFFF,
        translation: 0,
        length: 0x3EC0_0000,
    };
    let above = QwordSpace {
        kind: 0,
        flags: 1,
        granularity: 0,
        first: 0x8_0000_0000,
        last: 0xF_FFFF_FFFF,
        translation: 0,
        length: 0x8_0000_0000,
    };
    is_template(
        &rt,
        rt.alloc(),
        &[
            ResourceItem::Memory(timer),
            ResourceItem::Dword(below),
            ResourceItem::Qword(above),
        ],
        b"\x86\x09\x00\x01\x00\x00\xd0\xfe\x00\x04\x00\x00\
          \x87\x17\x00\x00\x0c\x01\x00\x00\x00\x00\x00\x00\x00\xc0\xff\xff\xbf\xfe\x00\x00\x00\x00\x00\x00\xc0\x3e\
          \x8a\x2b\x00\x00\x0c\x01\x00\x00\x00\x00\x00\x00\x00\x00\x00\x00\x00\x00\x08\x00\x00\x00\
          \xff\xff\xff\xff\x0f\x00\x00\x00\x00\x00\x00\x00\x00\x00\x00\x00\x00\x00\x00\x00\x08\x00\x00\x00\x79\x00",
    )
}

#[test]
fn no_item(rt: HostRuntime) -> Result<(), Fail> {
    is_template(&rt, rt.alloc(), &[], b"\x79\x00")
}

fn is_template(
    rt: &impl Abort,
    alloc: Global,
    items: &[ResourceItem],
    wanted: &[u8],
) -> Result<(), Fail> {
    let bytes = resource_template(alloc, items)?;
    assert_eq!(rt; bytes.as_slice(), wanted);
    drop(bytes);
    Ok(())
}
