ghost use Rattle.std.specs.Prelude.{◌≡◌, ◌⊎◌};
ghost use Rattle.zone_alloc.specs.Zones.{zone_numbered, number_of_zone};

/// A zone of memory, in which a loader script asks for a place for a file (QEMU, hw/acpi/bios-linker-loader.c).
#[derive(Clone, Copy, Debug, PartialEq, Eq)]
pub enum Zone {
    /// High memory: the 16 MiB that end at the top.
    High,
    /// The F segment, 0xF0000 to 0xFFFFF, where a guest looks for an RSDP and an anchor.
    Fseg,
}

impl Zone {
    /// Returns the zone of `number`, that of a zone in an Allocate: `High` for 1, and `Fseg` for 2. `number` must be one of them, so
    /// a number from outside must be tested before.
    pub fn numbered(number: u8) -> Zone
        requires { (number ≡ 1) ⊎ (number ≡ 2) }
        ensures { result ≡ zone_numbered number }
    {
        match number {
            1 => Zone::High,
            _ => Zone::Fseg,
        }
    }

    /// Returns the number of this zone in an Allocate.
    pub fn number(self) -> u8
        ensures { result ≡ number_of_zone self }
    {
        match self {
            Zone::High => 1,
            Zone::Fseg => 2,
        }
    }
}
