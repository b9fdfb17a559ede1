ghost use Rattle.std.specs.Prelude.{◌≡◌};
ghost use Rattle.vt_bytes.specs.Memory.{is_in};

/// Where a PC's BIOS area begins: the 128 KiB below 1 MiB, which are RAM here.
pub const BIOS_START: u64 = 0xE_0000;

/// Where a PC's BIOS area ends.
pub const BIOS_END: u64 = 0x10_0000;

/// A range of addresses: those from `start` to before `end`.
#[derive(Clone, Copy, Debug, PartialEq, Eq)]
pub struct AddressRange {
    /// The first address.
    pub start: u64,
    /// The address past the last one.
    pub end: u64,
}

impl AddressRange {
    /// Tells whether `address` is in the range.
    pub fn contains(&self, address: u64) -> bool
        ensures { result ≡ is_in self.now address }
    {
        self.start <= address && address < self.end
    }
}
