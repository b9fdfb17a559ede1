//! The images of machines. The commands are those of QEMU, hw/acpi/bios-linker-loader.c, with the offsets of ACPI 6.5, 5.2.5.3, 5.2.6,
//! 5.2.8 to 5.2.12, the PCI Firmware Specification 3.3, 4.1.2, and DSP0134, 5.2.2.

use crate::images::told::is_image;
use fixtures::{
    Controllers, Devices, EACH_CONTROLLER, EACH_DEVICE, HPET, MINIMAL_MACHINE, NO_DEVICES, Nodes,
    POWER, Sketch, THREE_NODES, machine_of, put_controllers, put_devices, put_nodes,
};
use image_files::Image;
use machine_desc::Machine;
use std::alloc::Global;
use std::test::Fail;
use vm_image::image_of;

// A static, since a constant is made anew in the proof of whoever lends it.
static MINIMAL: Sketch = MINIMAL_MACHINE;

static MINIMAL_ITEMS: [&str; 3] = [
    "20 etc/smbios/smbios-anchor read 24",
    "21 etc/smbios/smbios-tables read 42",
    "22 etc/table-loader read 512",
];

static MINIMAL_COMMANDS: [&str; 4] = [
    "place etc/smbios/smbios-tables 16 1",
    "place etc/smbios/smbios-anchor 16 2",
    "point etc/smbios/smbios-anchor 16 8 to etc/smbios/smbios-tables",
    "sum etc/smbios/smbios-anchor 5 0 24",
];

#[test]
fn the_image_of_the_minimal_machine(rt: HostRuntime) -> Result<(), Fail> {
    has_image(
        rt.alloc(),
        "the minimal machine",
        &MINIMAL,
        &MINIMAL_ITEMS,
        &MINIMAL_COMMANDS,
    )
}

// The minimal machine with ACPI tables and an HPET.
static HPET_MACHINE: Sketch = Sketch {
    acpi: Some(("BOCHS", "BXPC")),
    hpet: Some(HPET),
    ..MINIMAL_MACHINE
};

// An HPET table of 56 bytes stands at 0, and an XSDT of 44 at 64.
static HPET_ITEMS: [&str; 5] = [
    "20 etc/acpi/rsdp read 36",
    "21 etc/acpi/tables read 108",
    "22 etc/smbios/smbios-anchor read 24",
    "23 etc/smbios/smbios-tables read 42",
    "24 etc/table-loader read 1536",
];

static HPET_COMMANDS: [&str; 12] = [
    "place etc/acpi/tables 64 1",
    "place etc/acpi/rsdp 16 2",
    "place etc/smbios/smbios-tables 16 1",
    "place etc/smbios/smbios-anchor 16 2",
    "point etc/acpi/rsdp 24 8 to etc/acpi/tables",
    "point etc/acpi/tables 100 8 to etc/acpi/tables",
    "point etc/smbios/smbios-anchor 16 8 to etc/smbios/smbios-tables",
    "sum etc/acpi/tables 9 0 56",
    "sum etc/acpi/tables 73 64 44",
    "sum etc/acpi/rsdp 8 0 20",
    "sum etc/acpi/rsdp 32 0 36",
    "sum etc/smbios/smbios-anchor 5 0 24",
];

#[test]
fn the_image_of_a_machine_with_acpi_tables(rt: HostRuntime) -> Result<(), Fail> {
    has_image(
        rt.alloc(),
        "a machine with ACPI tables",
        &HPET_MACHINE,
        &HPET_ITEMS,
        &HPET_COMMANDS,
    )
}

// The same machine with power management.
static POWER_MACHINE: Sketch = Sketch {
    acpi: Some(("BOCHS", "BXPC")),
    power: Some(POWER),
    hpet: Some(HPET),
    ..MINIMAL_MACHINE
};

// A FACS of 64 bytes stands at 0, a DSDT of 170 at 64, an FADT of 276 at 240, an HPET table of 56 at 528, and an XSDT of 52 at 592.
static POWER_ITEMS: [&str; 5] = [
    "20 etc/acpi/rsdp read 36",
    "21 etc/acpi/tables read 644",
    "22 etc/smbios/smbios-anchor read 24",
    "23 etc/smbios/smbios-tables read 42",
    "24 etc/table-loader read 2304",
];

// The FADT leads to the FACS, which has no checksum, and by two pointers to the DSDT. The XSDT names neither.
static POWER_COMMANDS: [&str; 18] = [
    "place etc/acpi/tables 64 1",
    "place etc/acpi/rsdp 16 2",
    "place etc/smbios/smbios-tables 16 1",
    "place etc/smbios/smbios-anchor 16 2",
    "point etc/acpi/rsdp 24 8 to etc/acpi/tables",
    "point etc/acpi/tables 280 4 to etc/acpi/tables",
    "point etc/acpi/tables 372 8 to etc/acpi/tables",
    "point etc/acpi/tables 380 8 to etc/acpi/tables",
    "point etc/acpi/tables 628 8 to etc/acpi/tables",
    "point etc/acpi/tables 636 8 to etc/acpi/tables",
    "point etc/smbios/smbios-anchor 16 8 to etc/smbios/smbios-tables",
    "sum etc/acpi/tables 73 64 170",
    "sum etc/acpi/tables 249 240 276",
    "sum etc/acpi/tables 537 528 56",
    "sum etc/acpi/tables 601 592 52",
    "sum etc/acpi/rsdp 8 0 20",
    "sum etc/acpi/rsdp 32 0 36",
    "sum etc/smbios/smbios-anchor 5 0 24",
];

#[test]
fn the_image_of_a_machine_with_power_management(rt: HostRuntime) -> Result<(), Fail> {
    has_image(
        rt.alloc(),
        "a machine with power management",
        &POWER_MACHINE,
        &POWER_ITEMS,
        &POWER_COMMANDS,
    )
}

// Statics, since a constant is made anew in the proof of whoever lends it.
static EACH: Controllers = EACH_CONTROLLER;

// The same machine with interrupt controllers: the DSDT has 284 bytes, the FADT stands at 352, a MADT of 148 at 640, an HPET table of 56
// at 800, and an XSDT of 60 at 864.
static MADT_ITEMS: [&str; 5] = [
    "20 etc/acpi/rsdp read 36",
    "21 etc/acpi/tables read 924",
    "22 etc/smbios/smbios-anchor read 24",
    "23 etc/smbios/smbios-tables read 42",
    "24 etc/table-loader read 2560",
];

static MADT_COMMANDS: [&str; 20] = [
    "place etc/acpi/tables 64 1",
    "place etc/acpi/rsdp 16 2",
    "place etc/smbios/smbios-tables 16 1",
    "place etc/smbios/smbios-anchor 16 2",
    "point etc/acpi/rsdp 24 8 to etc/acpi/tables",
    "point etc/acpi/tables 392 4 to etc/acpi/tables",
    "point etc/acpi/tables 484 8 to etc/acpi/tables",
    "point etc/acpi/tables 492 8 to etc/acpi/tables",
    "point etc/acpi/tables 900 8 to etc/acpi/tables",
    "point etc/acpi/tables 908 8 to etc/acpi/tables",
    "point etc/acpi/tables 916 8 to etc/acpi/tables",
    "point etc/smbios/smbios-anchor 16 8 to etc/smbios/smbios-tables",
    "sum etc/acpi/tables 73 64 284",
    "sum etc/acpi/tables 361 352 276",
    "sum etc/acpi/tables 649 640 148",
    "sum etc/acpi/tables 809 800 56",
    "sum etc/acpi/tables 873 864 60",
    "sum etc/acpi/rsdp 8 0 20",
    "sum etc/acpi/rsdp 32 0 36",
    "sum etc/smbios/smbios-anchor 5 0 24",
];

#[test]
fn the_image_of_a_machine_with_interrupt_controllers(rt: HostRuntime) -> Result<(), Fail> {
    let image = image_with(rt.alloc(), &EACH, None, &NO_DEVICE)?;
    is_image(
        rt.alloc(),
        "a machine with interrupt controllers",
        image,
        &MADT_ITEMS,
        &MADT_COMMANDS,
    )
}

static THREE: Nodes = THREE_NODES;

// The same machine with nodes: behind the MADT an SRAT of 208 bytes stands at 800, a SLIT of 53 at 1008, an HPET table of 56 at 1072, and
// an XSDT of 76 at 1136. The nodes have memory, of which the structures tell, too.
static NODES_ITEMS: [&str; 5] = [
    "20 etc/acpi/rsdp read 36",
    "21 etc/acpi/tables read 1212",
    "22 etc/smbios/smbios-anchor read 24",
    "23 etc/smbios/smbios-tables read 175",
    "24 etc/table-loader read 3072",
];

static NODES_COMMANDS: [&str; 24] = [
    "place etc/acpi/tables 64 1",
    "place etc/acpi/rsdp 16 2",
    "place etc/smbios/smbios-tables 16 1",
    "place etc/smbios/smbios-anchor 16 2",
    "point etc/acpi/rsdp 24 8 to etc/acpi/tables",
    "point etc/acpi/tables 392 4 to etc/acpi/tables",
    "point etc/acpi/tables 484 8 to etc/acpi/tables",
    "point etc/acpi/tables 492 8 to etc/acpi/tables",
    "point etc/acpi/tables 1172 8 to etc/acpi/tables",
    "point etc/acpi/tables 1180 8 to etc/acpi/tables",
    "point etc/acpi/tables 1188 8 to etc/acpi/tables",
    "point etc/acpi/tables 1196 8 to etc/acpi/tables",
    "point etc/acpi/tables 1204 8 to etc/acpi/tables",
    "point etc/smbios/smbios-anchor 16 8 to etc/smbios/smbios-tables",
    "sum etc/acpi/tables 73 64 284",
    "sum etc/acpi/tables 361 352 276",
    "sum etc/acpi/tables 649 640 148",
    "sum etc/acpi/tables 809 800 208",
    "sum etc/acpi/tables 1017 1008 53",
    "sum etc/acpi/tables 1081 1072 56",
    "sum etc/acpi/tables 1145 1136 76",
    "sum etc/acpi/rsdp 8 0 20",
    "sum etc/acpi/rsdp 32 0 36",
    "sum etc/smbios/smbios-anchor 5 0 24",
];

#[test]
fn the_image_of_a_machine_with_nodes(rt: HostRuntime) -> Result<(), Fail> {
    let image = image_with(rt.alloc(), &EACH, Some(&THREE), &NO_DEVICE)?;
    is_image(
        rt.alloc(),
        "a machine with nodes",
        image,
        &NODES_ITEMS,
        &NODES_COMMANDS,
    )
}

static DEVICES: Devices = EACH_DEVICE;

static NO_DEVICE: Devices = NO_DEVICES;

// The same machine with a bridge and serial ports: the DSDT has 753 bytes, and an MCFG of 60 bytes stands behind the SLIT, at 1552.
static DEVICES_ITEMS: [&str; 5] = [
    "20 etc/acpi/rsdp read 36",
    "21 etc/acpi/tables read 1764",
    "22 etc/smbios/smbios-anchor read 24",
    "23 etc/smbios/smbios-tables read 175",
    "24 etc/table-loader read 3328",
];

static DEVICES_COMMANDS: [&str; 26] = [
    "place etc/acpi/tables 64 1",
    "place etc/acpi/rsdp 16 2",
    "place etc/smbios/smbios-tables 16 1",
    "place etc/smbios/smbios-anchor 16 2",
    "point etc/acpi/rsdp 24 8 to etc/acpi/tables",
    "point etc/acpi/tables 872 4 to etc/acpi/tables",
    "point etc/acpi/tables 964 8 to etc/acpi/tables",
    "point etc/acpi/tables 972 8 to etc/acpi/tables",
    "point etc/acpi/tables 1716 8 to etc/acpi/tables",
    "point etc/acpi/tables 1724 8 to etc/acpi/tables",
    "point etc/acpi/tables 1732 8 to etc/acpi/tables",
    "point etc/acpi/tables 1740 8 to etc/acpi/tables",
    "point etc/acpi/tables 1748 8 to etc/acpi/tables",
    "point etc/acpi/tables 1756 8 to etc/acpi/tables",
    "point etc/smbios/smbios-anchor 16 8 to etc/smbios/smbios-tables",
    "sum etc/acpi/tables 73 64 753",
    "sum etc/acpi/tables 841 832 276",
    "sum etc/acpi/tables 1129 1120 148",
    "sum etc/acpi/tables 1289 1280 208",
    "sum etc/acpi/tables 1497 1488 53",
    "sum etc/acpi/tables 1561 1552 60",
    "sum etc/acpi/tables 1625 1616 56",
    "sum etc/acpi/tables 1689 1680 84",
    "sum etc/acpi/rsdp 8 0 20",
    "sum etc/acpi/rsdp 32 0 36",
    "sum etc/smbios/smbios-anchor 5 0 24",
];

#[test]
fn the_image_of_a_machine_with_devices(rt: HostRuntime) -> Result<(), Fail> {
    let image = image_with(rt.alloc(), &EACH, Some(&THREE), &DEVICES)?;
    is_image(
        rt.alloc(),
        "a machine with devices",
        image,
        &DEVICES_ITEMS,
        &DEVICES_COMMANDS,
    )
}

// The image of the machine with power management, with these controllers, nodes and devices.
fn image_with(
    alloc: Global,
    controllers: &Controllers,
    nodes: Option<&Nodes>,
    devices: &Devices,
) -> Result<Image, Fail> {
    let mut machine = machine_of(alloc, &POWER_MACHINE)?;
    let image = image_of_parts(alloc, &mut machine, controllers, nodes, devices);
    drop(machine);
    image
}

fn image_of_parts(
    alloc: Global,
    machine: &mut Machine,
    controllers: &Controllers,
    nodes: Option<&Nodes>,
    devices: &Devices,
) -> Result<Image, Fail> {
    put_controllers(machine, controllers)?;
    put_devices(alloc, machine, devices)?;
    if let Some(nodes) = nodes {
        put_nodes(alloc, machine, nodes)?;
    }
    image_of_lawful(alloc, machine)
}

fn has_image(
    alloc: Global,
    case: &str,
    sketch: &Sketch,
    items: &[&str],
    commands: &[&str],
) -> Result<(), Fail> {
    let image = image(alloc, sketch)?;
    is_image(alloc, case, image, items, commands)
}

fn image(alloc: Global, sketch: &Sketch) -> Result<Image, Fail> {
    let machine = machine_of(alloc, sketch)?;
    let image = image_of_lawful(alloc, &machine);
    // where it ends in place, each of its many parts is a step of this proof
    drop(machine);
    image
}

fn image_of_lawful(alloc: Global, machine: &Machine) -> Result<Image, Fail> {
    if machine.check().is_err() {
        return Err(Fail::from("a machine that breaks a rule"));
    }
    match image_of(alloc, machine, 0) {
        Ok(image) => Ok(image),
        Err(_) => Err(Fail::from("a machine without an image")),
    }
}
