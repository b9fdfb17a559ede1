//! The parts of the machine, each made in one.

ghost use Rattle.std.specs.Prelude.{◌≡◌, ◌<◌, ◌≤◌, ◌++◌, IfOk, codes, decimal};
ghost use Rattle.generated_machine.specs.Generated.{node_count, cpu_at, cpus, socket_at, sockets, dimm, dimms, ranges, distance_at, distances, numa};
ghost use Rattle.generated_machine.specs.Generated.{route_at, routes, windows, bridge, system, acpi, power, hpet, io_apics, uarts};

use machine_desc::{
    Acpi, Bridge, Cpu, Dimm, Hpet, IoApic, MemRange, Numa, Power, Route, Socket, System, Uart,
    Window, WindowKind,
};
use std::alloc::Global;
use vt_outside::{List, OutOfMemory, Text};

// Each processor has a node of its own, until there are four.
fn node_count(processors: u32) -> u8
    ensures { result ≡ node_count processors }
{
    processors.min(4) as u8
}

// The processor at a position. The nodes are dealt out in turn.
fn cpu_at(nodes: u8, position: u32) -> Cpu
    requires { 1 ≤ nodes }
    ensures { result ≡ cpu_at nodes position }
{
    Cpu {
        apic: position,
        node: (position % nodes as u32) as u8,
        enabled: true,
    }
}

// The processors, by their positions.
#[tactic(auto, using(crate::proofs::Pushed::one_more))]
pub(crate) fn cpus(alloc: Global, processors: u32) -> Result<List<Cpu>, OutOfMemory>
    ensures { IfOk result (λ list. list ≡ cpus processors) }
{
    let nodes = node_count(processors);
    let mut list = List::new(alloc);
    for position in 0..processors {
        list.push(cpu_at(nodes, position))?;
    }
    Ok(list)
}

// What is printed at the socket of a position.
fn designation(alloc: Global, position: u32) -> Result<Text, OutOfMemory>
    ensures { IfOk result (λ text. text ≡ codes "CPU" ++ decimal position) }
{
    let mut digits = itoa::Buffer::new();
    let mut text = Text::new(alloc);
    text.extend(b"CPU")?;
    text.extend(digits.format(position).as_bytes())?;
    Ok(text)
}

// The socket at a position, with 64 processors where so many are left.
fn socket_at(alloc: Global, processors: u32, position: u32) -> Result<Socket, OutOfMemory>
    requires { position < 64 }
    ensures { IfOk result (λ socket. socket ≡ socket_at processors position) }
{
    let cores = processors.saturating_sub(64 * position).min(64) as u16;
    Ok(Socket {
        designation: designation(alloc, position)?,
        manufacturer: Text::new(alloc),
        version: Text::new(alloc),
        serial: Text::new(alloc),
        asset: Text::new(alloc),
        part: Text::new(alloc),
        cores,
        threads: cores,
        mhz: 0,
    })
}

// The sockets, by their positions: as few as hold the processors.
#[tactic(auto, using(crate::proofs::Pushed::one_more))]
pub(crate) fn sockets(alloc: Global, processors: u32) -> Result<List<Socket>, OutOfMemory>
    requires { processors ≤ 4096 }
    ensures { IfOk result (λ list. list ≡ sockets processors) }
{
    let mut list = List::new(alloc);
    for position in 0..(processors + 63) / 64 {
        list.push(socket_at(alloc, processors, position)?)?;
    }
    Ok(list)
}

// A node's module, of 1 GiB for each processor.
fn dimm(alloc: Global, processors: u32) -> Dimm
    requires { processors ≤ 4096 }
    ensures { result ≡ dimm processors }
{
    Dimm {
        locator: Text::new(alloc),
        bank: Text::new(alloc),
        manufacturer: Text::new(alloc),
        serial: Text::new(alloc),
        asset: Text::new(alloc),
        part: Text::new(alloc),
        size_mib: 1024 * processors,
        speed: 0,
    }
}

// The modules, one for each node.
pub(crate) fn dimms(alloc: Global, processors: u32) -> Result<List<Dimm>, OutOfMemory>
    requires { processors ≤ 4096 }
    ensures { IfOk result (λ list. list ≡ dimms processors) }
{
    let mut list = List::new(alloc);
    for _node in 0..node_count(processors) {
        list.push(dimm(alloc, processors))?;
    }
    Ok(list)
}

// The ranges of memory: below the top on the first node, and from 4 GiB on, of 1 GiB for each processor, on the last one.
pub(crate) fn ranges(alloc: Global, processors: u32) -> Result<List<MemRange>, OutOfMemory>
    requires some { 1 ≤ processors }
    requires few { processors ≤ 4096 }
    ensures { IfOk result (λ list. list ≡ ranges processors) }
{
    let mut list = List::new(alloc);
    list.push(MemRange {
        base_mib: 0,
        size_mib: 2048,
        node: 0,
    })?;
    list.push(MemRange {
        base_mib: 4096,
        size_mib: 1024 * processors,
        node: node_count(processors) - 1,
    })?;
    Ok(list)
}

// The distance at a place, row by row: 10 from a node to itself, and 20 to another.
fn distance_at(nodes: u8, place: u8) -> u8
    requires { 1 ≤ nodes }
    ensures { result ≡ distance_at nodes place }
{
    if place / nodes == place % nodes {
        10
    } else {
        20
    }
}

// The distances of all places of so many rows.
#[tactic(auto, using(crate::proofs::Pushed::one_more))]
fn distances(alloc: Global, nodes: u8) -> Result<List<u8>, OutOfMemory>
    requires { nodes ≤ 4 }
    ensures { IfOk result (λ list. list ≡ distances nodes) }
{
    let mut list = List::new(alloc);
    for place in 0..nodes * nodes {
        list.push(distance_at(nodes, place))?;
    }
    Ok(list)
}

// The nodes.
pub(crate) fn numa(alloc: Global, processors: u32) -> Result<Numa, OutOfMemory>
    ensures { IfOk result (λ part. part ≡ numa (node_count processors)) }
{
    let nodes = node_count(processors);
    Ok(Numa {
        nodes,
        distance: distances(alloc, nodes)?,
    })
}

// The route at a place: that of each pin of a device, device by device, to four interrupts in turn.
fn route_at(place: u8) -> Route
    requires { place < 128 }
    ensures { result ≡ route_at place }
{
    let device = place / 4;
    let pin = place % 4;
    Route {
        device,
        pin,
        gsi: 16 + (device as u32 + pin as u32) % 4,
    }
}

// The routes of all pins of the 32 devices.
#[tactic(auto, using(crate::proofs::Pushed::one_more))]
fn routes(alloc: Global) -> Result<List<Route>, OutOfMemory>
    ensures { IfOk result (λ list. list ≡ routes) }
{
    let mut list = List::new(alloc);
    for place in 0..128 {
        list.push(route_at(place))?;
    }
    Ok(list)
}

// A window of ports, and one of memory below 4 GiB.
fn windows(alloc: Global) -> Result<List<Window>, OutOfMemory>
    ensures { IfOk result (λ list. list ≡ windows) }
{
    let mut list = List::new(alloc);
    list.push(Window {
        kind: WindowKind::Io,
        base: 0x1000,
        size: 0xF000,
        prefetch: false,
    })?;
    list.push(Window {
        kind: WindowKind::Mem32,
        base: 0xC000_0000,
        size: 0x1000_0000,
        prefetch: false,
    })?;
    Ok(list)
}

// The bridge, with its configuration space of 256 buses.
pub(crate) fn bridge(alloc: Global) -> Result<Bridge, OutOfMemory>
    ensures { IfOk result (λ part. part ≡ bridge) }
{
    let windows = windows(alloc)?;
    Ok(Bridge {
        ecam: 0xE000_0000,
        last_bus: 255,
        windows,
        routes: routes(alloc)?,
    })
}

// The text of these bytes.
fn text_of(alloc: Global, bytes: &[u8]) -> Result<Text, OutOfMemory>
    ensures { IfOk result (λ text. text ≡ bytes.now) }
{
    let mut text = Text::new(alloc);
    text.extend(bytes)?;
    Ok(text)
}

// What identifies the machine.
pub(crate) fn system(alloc: Global) -> Result<System, OutOfMemory>
    ensures { IfOk result (λ part. part ≡ system) }
{
    let manufacturer = text_of(alloc, b"VMTABLES")?;
    Ok(System {
        manufacturer,
        product: text_of(alloc, b"GEN")?,
        version: Text::new(alloc),
        serial: Text::new(alloc),
        sku: Text::new(alloc),
        family: Text::new(alloc),
        uuid: None,
    })
}

// The texts of the ACPI tables' maker, those of a description that names none.
pub(crate) fn acpi(alloc: Global) -> Result<Acpi, OutOfMemory>
    ensures { IfOk result (λ part. part ≡ acpi) }
{
    let oem_id = text_of(alloc, b"BOCHS")?;
    Ok(Acpi {
        oem_id,
        oem_table_id: text_of(alloc, b"BXPC")?,
    })
}

// Power management, of which a description needs no more than the interrupt and three ports.
pub(crate) fn power() -> Power
    ensures { result ≡ power }
{
    Power {
        sci: 9,
        profile: 0,
        event: 0x600,
        control: 0x604,
        timer: 0x608,
        gpe: 0,
        gpe_len: 0,
        reset: 0,
        reset_value: 0,
        century: 0,
        rtc: true,
        keyboard: true,
    }
}

// The HPET.
pub(crate) fn hpet() -> Hpet
    ensures { result ≡ hpet }
{
    Hpet {
        address: 0xFED0_0000,
        block_id: 0x8086_A201,
        number: 0,
        min_tick: 100,
    }
}

// One I/O APIC.
pub(crate) fn io_apics(alloc: Global) -> Result<List<IoApic>, OutOfMemory>
    ensures { IfOk result (λ list. list ≡ io_apics) }
{
    let mut list = List::new(alloc);
    list.push(IoApic {
        id: 0,
        address: 0xFEC0_0000,
        gsi: 0,
    })?;
    Ok(list)
}

// One serial port.
pub(crate) fn uarts(alloc: Global) -> Result<List<Uart>, OutOfMemory>
    ensures { IfOk result (λ list. list ≡ uarts) }
{
    let mut list = List::new(alloc);
    list.push(Uart {
        port: 0x3F8,
        irq: 4,
    })?;
    Ok(list)
}
