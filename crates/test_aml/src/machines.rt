//! The terms of machines' DSDTs, as bytes that were made by a program apart from this one, from ACPI 6.5, 6.1, 6.2, 6.4 and 20.2. iasl reads
//! them as the devices that are described, and makes the same bytes of these.

ghost use Rattle.std.specs.Prelude.{IfOk};
ghost use Rattle.machine_desc.specs.Rules.{IsAccepted};
ghost use Rattle.aml_terms.specs.Trees.{views};
ghost use Rattle.aml_terms.specs.WellFormed.{AreGood};

use aml_encode::encode_terms;
use aml_terms::Term;
use desc_toml::laws::read_machine_is_accepted;
use desc_toml::read_machine;
use dsdt_terms::dsdt_terms;
use dsdt_terms::laws::terms_of_a_machine_can_be_written;
use machine_desc::Machine;
use std::alloc::Global;
use std::process::Abort;
use std::test::Fail;
use vt_outside::{Bytes, List, OutOfMemory};

// A machine whose DSDT has no devices.
const BARE: &str = "version = 1
top_mib = 64
system = {}
acpi = {}
power = { event = 1, control = 1, timer = 1, rtc = false, keyboard = false }
";

// What stands above that of power management which is told of devices.
const POWER: &str = "version = 1
top_mib = 64
system = {}
acpi = {}
power = { event = 1, control = 1, timer = 1";

// What is described below that machine, and its terms.
static DEVICES: [(&str, &[u8]); 13] = [
    // no devices
    ("", b"\x10\x06\x5c_SB_"),
    // a bridge, without configuration space in memory and with it
    (
        "bridge = {}",
        b"\x10\x47\x04\x5c_SB_\
          \x5b\x82\x3ePCI0\x08_HID\x0c\x41\xd0\x0a\x03\x08_UID\x00\x08_BBN\x00\
          \x08_CRS\x11\x15\x0a\x12\
          \x88\x0d\x00\x02\x0c\x00\x00\x00\x00\x00\xff\x00\x00\x00\x00\x01\x79\x00\
          \x08_PRT\x12\x02\x00",
    ),
    (
        "bridge = { ecam = 0xE0000000, last_bus = 0 }",
        b"\x10\x42\x05\x5c_SB_\
          \x5b\x82\x49\x04PCI0\x08_HID\x0c\x41\xd0\x0a\x08\x08_CID\x0c\x41\xd0\x0a\x03\x08_UID\x00\x08_BBN\x00\
          \x08_CRS\x11\x15\x0a\x12\
          \x88\x0d\x00\x02\x0c\x00\x00\x00\x00\x00\x00\x00\x00\x00\x01\x00\x79\x00\
          \x08_PRT\x12\x02\x00",
    ),
    // its windows: ports, and memory in addresses of 32 bits and of 64, with the least and the most that there may be
    (
        "bridge.window = [{ kind = 'io', base = 0x1000, size = 0xF000 }, { kind = 'io', base = 1, size = 65535 }]",
        b"\x10\x48\x06\x5c_SB_\
          \x5b\x82\x4f\x05PCI0\x08_HID\x0c\x41\xd0\x0a\x03\x08_UID\x00\x08_BBN\x00\
          \x08_CRS\x11\x35\x0a\x32\
          \x88\x0d\x00\x02\x0c\x00\x00\x00\x00\x00\xff\x00\x00\x00\x00\x01\
          \x88\x0d\x00\x01\x0c\x03\x00\x00\x00\x10\xff\xff\x00\x00\x00\xf0\
          \x88\x0d\x00\x01\x0c\x03\x00\x00\x01\x00\xff\xff\x00\x00\xff\xff\x79\x00\
          \x08_PRT\x12\x02\x00",
    ),
    (
        "bridge.window = [{ kind = 'mem32', base = 0xC0000000, size = 1 }, { kind = 'mem32', base = 1, size = 4294967295, prefetch = true }]",
        b"\x10\x4d\x07\x5c_SB_\
          \x5b\x82\x44\x07PCI0\x08_HID\x0c\x41\xd0\x0a\x03\x08_UID\x00\x08_BBN\x00\
          \x08_CRS\x11\x4a\x04\x0a\x46\
          \x88\x0d\x00\x02\x0c\x00\x00\x00\x00\x00\xff\x00\x00\x00\x00\x01\
          \x87\x17\x00\x00\x0c\x01\x00\x00\x00\x00\x00\x00\x00\xc0\x00\x00\x00\xc0\x00\x00\x00\x00\x01\x00\x00\x00\
          \x87\x17\x00\x00\x0c\x07\x00\x00\x00\x00\x01\x00\x00\x00\xff\xff\xff\xff\x00\x00\x00\x00\xff\xff\xff\xff\x79\x00\
          \x08_PRT\x12\x02\x00",
    ),
    (
        "bridge.window = [{ kind = 'mem64', base = 0x8000000000, size = 1, prefetch = true }, { kind = 'mem64', base = 0, size = 4503599627370496 }]",
        b"\x10\x45\x0a\x5c_SB_\
          \x5b\x82\x4c\x09PCI0\x08_HID\x0c\x41\xd0\x0a\x03\x08_UID\x00\x08_BBN\x00\
          \x08_CRS\x11\x42\x07\x0a\x6e\
          \x88\x0d\x00\x02\x0c\x00\x00\x00\x00\x00\xff\x00\x00\x00\x00\x01\
          \x8a\x2b\x00\x00\x0c\x07\x00\x00\x00\x00\x00\x00\x00\x00\x00\x00\x00\x00\x80\x00\x00\x00\
          \x00\x00\x00\x00\x80\x00\x00\x00\x00\x00\x00\x00\x00\x00\x00\x00\x01\x00\x00\x00\x00\x00\x00\x00\
          \x8a\x2b\x00\x00\x0c\x01\x00\x00\x00\x00\x00\x00\x00\x00\x00\x00\x00\x00\x00\x00\x00\x00\
          \xff\xff\xff\xff\xff\xff\x0f\x00\x00\x00\x00\x00\x00\x00\x00\x00\x00\x00\x00\x00\x00\x00\x10\x00\x79\x00\
          \x08_PRT\x12\x02\x00",
    ),
    // its routes
    (
        "bridge.route = [{ device = 1, pin = 0, gsi = 16 }, { device = 0, pin = 0, gsi = 16 }]",
        b"\x10\x4e\x05\x5c_SB_\
          \x5b\x82\x45\x05PCI0\x08_HID\x0c\x41\xd0\x0a\x03\x08_UID\x00\x08_BBN\x00\
          \x08_CRS\x11\x15\x0a\x12\
          \x88\x0d\x00\x02\x0c\x00\x00\x00\x00\x00\xff\x00\x00\x00\x00\x01\x79\x00\
          \x08_PRT\x12\x18\x02\
          \x12\x0b\x04\x0c\xff\xff\x01\x00\x00\x00\x0a\x10\
          \x12\x09\x04\x0b\xff\xff\x00\x00\x0a\x10",
    ),
    (
        "bridge.route = [{ device = 31, pin = 1, gsi = 4294967295 }, { device = 1, pin = 3, gsi = 0 }, { device = 1, pin = 2, gsi = 256 }]",
        b"\x10\x41\x07\x5c_SB_\
          \x5b\x82\x48\x06PCI0\x08_HID\x0c\x41\xd0\x0a\x03\x08_UID\x00\x08_BBN\x00\
          \x08_CRS\x11\x15\x0a\x12\
          \x88\x0d\x00\x02\x0c\x00\x00\x00\x00\x00\xff\x00\x00\x00\x00\x01\x79\x00\
          \x08_PRT\x12\x2b\x03\
          \x12\x0e\x04\x0c\xff\xff\x1f\x00\x01\x00\x0c\xff\xff\xff\xff\
          \x12\x0b\x04\x0c\xff\xff\x01\x00\x0a\x03\x00\x00\
          \x12\x0d\x04\x0c\xff\xff\x01\x00\x0a\x02\x00\x0b\x00\x01",
    ),
    // serial ports
    (
        "uart = [{ port = 0x3F8, irq = 4 }, { port = 0x2F8, irq = 3 }, { port = 0xFFF8, irq = 15 }, { port = 0, irq = 0 }]",
        b"\x10\x4e\x0b\x5c_SB_\
          \x5b\x82\x2bCOM1\x08_HID\x0c\x41\xd0\x05\x01\x08_UID\x01\
          \x08_CRS\x11\x10\x0a\x0d\x47\x01\xf8\x03\xf8\x03\x01\x08\x22\x10\x00\x79\x00\
          \x5b\x82\x2cCOM2\x08_HID\x0c\x41\xd0\x05\x01\x08_UID\x0a\x02\
          \x08_CRS\x11\x10\x0a\x0d\x47\x01\xf8\x02\xf8\x02\x01\x08\x22\x08\x00\x79\x00\
          \x5b\x82\x2cCOM3\x08_HID\x0c\x41\xd0\x05\x01\x08_UID\x0a\x03\
          \x08_CRS\x11\x10\x0a\x0d\x47\x01\xf8\xff\xf8\xff\x01\x08\x22\x00\x80\x79\x00\
          \x5b\x82\x2cCOM4\x08_HID\x0c\x41\xd0\x05\x01\x08_UID\x0a\x04\
          \x08_CRS\x11\x10\x0a\x0d\x47\x01\x00\x00\x00\x00\x01\x08\x22\x01\x00\x79\x00",
    ),
    // a timer
    (
        "hpet = {}",
        b"\x10\x2e\x5c_SB_\
          \x5b\x82\x26HPET\x08_HID\x0c\x41\xd0\x01\x03\
          \x08_CRS\x11\x11\x0a\x0e\x86\x09\x00\x01\x00\x00\xd0\xfe\x00\x04\x00\x00\x79\x00",
    ),
    (
        "hpet.address = 0xFFFFFC00",
        b"\x10\x2e\x5c_SB_\
          \x5b\x82\x26HPET\x08_HID\x0c\x41\xd0\x01\x03\
          \x08_CRS\x11\x11\x0a\x0e\x86\x09\x00\x01\x00\xfc\xff\xff\x00\x04\x00\x00\x79\x00",
    ),
    // processors, whatever their ids are and whether they can be used
    (
        "apic = {}\ncpu = [{ apic = 7 }, { apic = 4294967294, enabled = false }, { apic = 0 }]",
        b"\x10\x4c\x05\x5c_SB_\
          \x5b\x82\x1aC000\x08_HID\x0dACPI0007\x00\x08_UID\x00\
          \x5b\x82\x1aC001\x08_HID\x0dACPI0007\x00\x08_UID\x01\
          \x5b\x82\x1bC002\x08_HID\x0dACPI0007\x00\x08_UID\x0a\x02",
    ),
    // an id of the generation, whatever it is
    (
        "generation = '00000000-0000-0000-0000-000000000001'",
        b"\x10\x3f\x5c_SB_\
          \x5b\x82\x37VGEN\x08_HID\x0dQEMUVGID\x00\x08_CID\x0dVM_Gen_Counter\x00\
          \x08ADDR\x12\x08\x02\x0c\x28\x00\x00\x00\x00",
    ),
];

// What is described behind that beginning, and the terms of the machine.
static POWERS: [(&str, &[u8]); 4] = [
    // a clock and a keyboard
    (
        " }\n",
        b"\x10\x4d\x05\x5c_SB_\
          \x5b\x82\x25RTC_\x08_HID\x0c\x41\xd0\x0b\x00\
          \x08_CRS\x11\x10\x0a\x0d\x47\x01\x70\x00\x70\x00\x01\x02\x22\x00\x01\x79\x00\
          \x5b\x82\x2dKBD_\x08_HID\x0c\x41\xd0\x03\x03\
          \x08_CRS\x11\x18\x0a\x15\x47\x01\x60\x00\x60\x00\x01\x01\x47\x01\x64\x00\x64\x00\x01\x01\x22\x02\x00\x79\x00",
    ),
    (
        ", rtc = false }\n",
        b"\x10\x35\x5c_SB_\
          \x5b\x82\x2dKBD_\x08_HID\x0c\x41\xd0\x03\x03\
          \x08_CRS\x11\x18\x0a\x15\x47\x01\x60\x00\x60\x00\x01\x01\x47\x01\x64\x00\x64\x00\x01\x01\x22\x02\x00\x79\x00",
    ),
    (
        ", keyboard = false }\n",
        b"\x10\x2d\x5c_SB_\
          \x5b\x82\x25RTC_\x08_HID\x0c\x41\xd0\x0b\x00\
          \x08_CRS\x11\x10\x0a\x0d\x47\x01\x70\x00\x70\x00\x01\x02\x22\x00\x01\x79\x00",
    ),
    // a device of each kind
    (
        " }\nbridge = {}\nuart = [{ port = 0x3F8, irq = 4 }]\nhpet = {}\napic = {}\ncpu = [{ apic = 0 }]\n\
         generation = '8A6E9C4A-6E6B-4B0E-9C2E-1D0F5A3B7C91'\n",
        b"\x10\x47\x14\x5c_SB_\
          \x5b\x82\x3ePCI0\x08_HID\x0c\x41\xd0\x0a\x03\x08_UID\x00\x08_BBN\x00\
          \x08_CRS\x11\x15\x0a\x12\
          \x88\x0d\x00\x02\x0c\x00\x00\x00\x00\x00\xff\x00\x00\x00\x00\x01\x79\x00\
          \x08_PRT\x12\x02\x00\
          \x5b\x82\x2bCOM1\x08_HID\x0c\x41\xd0\x05\x01\x08_UID\x01\
          \x08_CRS\x11\x10\x0a\x0d\x47\x01\xf8\x03\xf8\x03\x01\x08\x22\x10\x00\x79\x00\
          \x5b\x82\x25RTC_\x08_HID\x0c\x41\xd0\x0b\x00\
          \x08_CRS\x11\x10\x0a\x0d\x47\x01\x70\x00\x70\x00\x01\x02\x22\x00\x01\x79\x00\
          \x5b\x82\x2dKBD_\x08_HID\x0c\x41\xd0\x03\x03\
          \x08_CRS\x11\x18\x0a\x15\x47\x01\x60\x00\x60\x00\x01\x01\x47\x01\x64\x00\x64\x00\x01\x01\x22\x02\x00\x79\x00\
          \x5b\x82\x26HPET\x08_HID\x0c\x41\xd0\x01\x03\
          \x08_CRS\x11\x11\x0a\x0e\x86\x09\x00\x01\x00\x00\xd0\xfe\x00\x04\x00\x00\x79\x00\
          \x5b\x82\x1aC000\x08_HID\x0dACPI0007\x00\x08_UID\x00\
          \x5b\x82\x37VGEN\x08_HID\x0dQEMUVGID\x00\x08_CID\x0dVM_Gen_Counter\x00\
          \x08ADDR\x12\x08\x02\x0c\x28\x00\x00\x00\x00",
    ),
];

#[test]
fn devices(rt: HostRuntime) -> Result<(), Fail> {
    are_written(&rt, rt.alloc(), BARE, &DEVICES)?;
    are_written(&rt, rt.alloc(), POWER, &POWERS)
}

fn are_written(
    rt: &impl Abort,
    alloc: Global,
    front: &str,
    rows: &[(&str, &[u8])],
) -> Result<(), Fail> {
    for row in rows {
        let (rest, wanted) = row;
        is_written(rt, alloc, front, *rest, *wanted)?;
    }
    Ok(())
}

fn is_written(
    rt: &impl Abort,
    alloc: Global,
    front: &str,
    rest: &str,
    wanted: &[u8],
) -> Result<(), Fail> {
    let bytes = written_behind(alloc, front, rest)?;
    assert_eq!(rt; *bytes.as_slice(), *wanted, "{rest}");
    Ok(())
}

fn written_behind(alloc: Global, front: &str, rest: &str) -> Result<Bytes, Fail> {
    let mut description = Bytes::new(alloc);
    description.extend(front.as_bytes())?;
    description.extend(rest.as_bytes())?;
    written(alloc, description.as_slice())
}

/// Returns the terms of the machine that a text describes, as bytes.
pub fn written(alloc: Global, description: &[u8]) -> Result<Bytes, Fail> {
    let machine = machine_of(alloc, description)?;
    let written = written_of(alloc, &machine);
    // where it ends in place, each of its many parts is a step of this proof
    drop(machine);
    written
}

fn machine_of(alloc: Global, description: &[u8]) -> Result<Machine, Fail>
    ensures { IfOk result IsAccepted }
{
    read_machine_is_accepted();
    Ok(read_machine(alloc, description)?)
}

// The terms of a machine as bytes.
fn written_of(alloc: Global, machine: &Machine) -> Result<Bytes, Fail>
    requires { IsAccepted machine.now }
{
    let terms = terms_of(alloc, machine)?;
    let mut bytes = Bytes::new(alloc);
    let written = encode_terms(terms.as_slice(), &mut bytes);
    drop(terms);
    written?;
    Ok(bytes)
}

fn terms_of(alloc: Global, machine: &Machine) -> Result<List<Term>, OutOfMemory>
    requires { IsAccepted machine.now }
    ensures { IfOk result (λ terms. AreGood (views terms)) }
{
    terms_of_a_machine_can_be_written();
    dsdt_terms(alloc, machine)
}
