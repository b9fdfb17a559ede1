use vt_outside::List;

/// The bridge from the processors to PCI, as a guest finds it (PCI host bridge, ACPI 6.5, 6.1.5 and 6.2).
#[derive(Debug, Drop)]
pub struct Bridge {
    /// The guest address of its configuration space in memory (ECAM, PCI Firmware Specification 3.3, 4.1.2), or 0 where it has none: a
    /// multiple of 1 MiB and below 2^52 in an accepted machine.
    pub ecam: u64,
    /// The number of its last bus; the first one is 0.
    pub last_bus: u8,
    /// The windows through which it hands addresses on to its buses, at most 32 in an accepted machine.
    pub windows: List<Window>,
    /// The interrupts of the devices on its first bus, at most 128 in an accepted machine.
    pub routes: List<Route>,
}

/// Addresses that a bridge hands on to its buses (ACPI 6.5, 6.4.3.5). In an accepted machine there is at least one. Ports are fewer than
/// 64 Ki and end within 64 Ki, addresses of 32 bits are fewer than 2^32 and end within 2^32, and those of 64 bits end within 2^52.
#[derive(Clone, Copy, Debug, PartialEq, Eq)]
pub struct Window {
    /// What they are addresses of.
    pub kind: WindowKind,
    /// The first address.
    pub base: u64,
    /// How many there are.
    pub size: u64,
    /// Whether memory there may be read ahead: never so for ports in an accepted machine.
    pub prefetch: bool,
}

/// What a window's addresses are addresses of.
#[derive(Clone, Copy, Debug, PartialEq, Eq)]
pub enum WindowKind {
    /// I/O ports.
    Io,
    /// Memory, in addresses of 32 bits.
    Mem32,
    /// Memory, in addresses of 64 bits.
    Mem64,
}

/// Where the interrupt of a pin of a PCI device comes in (PCI Routing Table, ACPI 6.5, 6.2.13).
#[derive(Clone, Copy, Debug, PartialEq, Eq)]
pub struct Route {
    /// The number of the device on the bridge's first bus: at most 31 in an accepted machine.
    pub device: u8,
    /// The pin, 0 for INTA to 3 for INTD: at most 3 in an accepted machine, where each pin of a device has one route.
    pub pin: u8,
    /// The global system interrupt that it is.
    pub gsi: u32,
}

/// A serial port, compatible with a 16550 and on an ISA bus.
#[derive(Clone, Copy, Debug, PartialEq, Eq)]
pub struct Uart {
    /// The first of its 8 I/O ports: at most 0xFFF8 in an accepted machine.
    pub port: u16,
    /// Its ISA interrupt: at most 15 in an accepted machine.
    pub irq: u8,
}
