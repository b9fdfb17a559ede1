use vt_outside::List;

/// The fixed hardware of power management (FADT, ACPI 6.5, 5.2.9). Ports are those of its register blocks.
#[derive(Clone, Copy, Debug, PartialEq, Eq)]
pub struct Power {
    /// The interrupt of power management, the SCI.
    pub sci: u16,
    /// The preferred power management profile.
    pub profile: u8,
    /// The port of the PM1a event block: not 0 in an accepted machine.
    pub event: u16,
    /// The port of the PM1a control block: not 0 in an accepted machine.
    pub control: u16,
    /// The port of the power management timer: not 0 in an accepted machine.
    pub timer: u16,
    /// The port of the block of general-purpose events; 0 where there is none.
    pub gpe: u16,
    /// The size of that block in bytes: in an accepted machine even, at most 30, and 0 exactly where there is no block.
    pub gpe_len: u8,
    /// The port of the reset register; 0 where there is none.
    pub reset: u16,
    /// What is written there to reset the machine: 0 in an accepted machine that has no reset register.
    pub reset_value: u8,
    /// The index of the century in the memory of the real-time clock; 0 where it isn't kept there.
    pub century: u8,
    /// Whether the machine has a real-time clock at ports 0x70 and 0x71.
    pub rtc: bool,
    /// Whether the machine has a keyboard controller at ports 0x60 and 0x64, and devices on an LPC or ISA bus.
    pub keyboard: bool,
}

/// The interrupt controllers of the machine as a whole (MADT, ACPI 6.5, 5.2.12).
#[derive(Clone, Copy, Debug, PartialEq, Eq)]
pub struct Apic {
    /// The guest address of each processor's local APIC.
    pub local: u32,
    /// Whether the machine also has a pair of 8259 interrupt controllers.
    pub legacy: bool,
}

/// A processor with its local APIC (ACPI 6.5, 5.2.12.2 and 5.2.12.12). Its UID is its position.
#[derive(Clone, Copy, Debug, PartialEq, Eq)]
pub struct Cpu {
    /// The id of its local APIC: in an accepted machine no other processor's, and not 0xFFFFFFFF, which names all of them.
    pub apic: u32,
    /// The NUMA node that it belongs to: in an accepted machine one of `numa`, or 0 where that isn't given.
    pub node: u8,
    /// Whether it can be used.
    pub enabled: bool,
}

/// An I/O APIC (ACPI 6.5, 5.2.12.3).
#[derive(Clone, Copy, Debug, PartialEq, Eq)]
pub struct IoApic {
    /// Its id: in an accepted machine no other I/O APIC's.
    pub id: u8,
    /// The guest address of its registers.
    pub address: u32,
    /// The first global system interrupt that it takes.
    pub gsi: u32,
}

/// An ISA interrupt that isn't the global system interrupt of its number (Interrupt Source Override, ACPI 6.5, 5.2.12.5).
#[derive(Clone, Copy, Debug, PartialEq, Eq)]
pub struct Override {
    /// The ISA interrupt: in an accepted machine at most 15, and no other override's.
    pub irq: u8,
    /// The global system interrupt that it is.
    pub gsi: u32,
    /// Its polarity and trigger mode, the MPS INTI flags: at most 15 in an accepted machine.
    pub flags: u16,
}

/// An input of local APICs at which a non-maskable interrupt comes in (ACPI 6.5, 5.2.12.7 and 5.2.12.13).
#[derive(Clone, Copy, Debug, PartialEq, Eq)]
pub struct Nmi {
    /// The position of the processor whose local APIC it is, one of the processors in an accepted machine; none where it is each one's.
    pub cpu: Option<u32>,
    /// Its polarity and trigger mode, the MPS INTI flags: at most 15 in an accepted machine.
    pub flags: u16,
    /// The number of the input, LINT0 or LINT1: at most 1 in an accepted machine.
    pub lint: u8,
}

/// The NUMA nodes of the machine (SRAT and SLIT, ACPI 6.5, 5.2.16 and 5.2.17).
#[derive(Debug, Drop)]
pub struct Numa {
    /// How many nodes there are: 1 to 64 in an accepted machine.
    pub nodes: u8,
    /// How far a node is from a node, row by row: first from node 0 to each node in turn, then from node 1, and so on. In an accepted
    /// machine there is one for each two nodes: 10 from a node to itself, and at least 10 to another.
    pub distance: List<u8>,
}
