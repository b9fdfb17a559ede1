use vt_outside::Text;

/// The machine's firmware (BIOS Information, DSP0134 7.1). An empty text stands for none.
#[derive(Debug, Drop)]
pub struct Firmware {
    /// Who made it.
    pub vendor: Text,
    /// Its version.
    pub version: Text,
    /// When it was released, as in `01/02/2024`.
    pub date: Text,
    /// The major number of its release.
    pub major: u8,
    /// The minor number of its release.
    pub minor: u8,
}

/// What the machine is housed in (System Enclosure, DSP0134 7.4). An empty text stands for none.
#[derive(Debug, Drop)]
pub struct Chassis {
    /// Who made it.
    pub manufacturer: Text,
    /// Its version.
    pub version: Text,
    /// Its serial number.
    pub serial: Text,
    /// Its asset tag.
    pub asset: Text,
    /// The stock keeping unit.
    pub sku: Text,
    /// Its type (7.4.1): 1 to 127 in an accepted machine.
    pub kind: u8,
}

/// A socket with its processor (Processor Information, DSP0134 7.5). An empty text stands for none.
#[derive(Debug, Drop)]
pub struct Socket {
    /// What is printed at the socket.
    pub designation: Text,
    /// Who made the processor.
    pub manufacturer: Text,
    /// Its version.
    pub version: Text,
    /// Its serial number.
    pub serial: Text,
    /// Its asset tag.
    pub asset: Text,
    /// Its part number.
    pub part: Text,
    /// How many cores it has, all of them enabled: at least 1, and at most `threads`, in an accepted machine.
    pub cores: u16,
    /// How many threads it has: at most 65,534 in an accepted machine.
    pub threads: u16,
    /// Its speed in MHz; 0 is unknown.
    pub mhz: u16,
}

/// A memory module (Memory Device, DSP0134 7.18). An empty text stands for none.
#[derive(Debug, Drop)]
pub struct Dimm {
    /// What is printed at its socket.
    pub locator: Text,
    /// What is printed at its bank.
    pub bank: Text,
    /// Who made it.
    pub manufacturer: Text,
    /// Its serial number.
    pub serial: Text,
    /// Its asset tag.
    pub asset: Text,
    /// Its part number.
    pub part: Text,
    /// Its size in MiB: 1 to 16,777,216 in an accepted machine.
    pub size_mib: u32,
    /// Its speed in MT/s: at most 65,534 in an accepted machine; 0 is unknown.
    pub speed: u16,
}

/// A range of guest addresses in which memory stands (Memory Array Mapped Address, DSP0134 7.20).
#[derive(Clone, Copy, Debug, PartialEq, Eq)]
pub struct MemRange {
    /// Its first address in MiB.
    pub base_mib: u32,
    /// Its size in MiB: at least 1 in an accepted machine.
    pub size_mib: u32,
    /// The NUMA node that the memory belongs to: in an accepted machine one of `numa`, or 0 where that isn't given.
    pub node: u8,
}

/// A slot for a card (System Slots, DSP0134 7.10). An empty text stands for none.
#[derive(Debug, Drop)]
pub struct Slot {
    /// What is printed at the slot.
    pub designation: Text,
    /// Its type (7.10.1): at least 1 in an accepted machine.
    pub kind: u8,
    /// Its data bus width (7.10.2): at least 1 in an accepted machine.
    pub width: u8,
    /// Whether a card is in it.
    pub used: bool,
    /// Its id (7.10.5).
    pub id: u16,
    /// The number of its PCI bus.
    pub bus: u8,
    /// The device number on that bus: at most 31 in an accepted machine.
    pub device: u8,
    /// The function number of that device: at most 7 in an accepted machine.
    pub function: u8,
}
