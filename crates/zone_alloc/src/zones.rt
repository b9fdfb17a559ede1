ghost use Rattle.std.specs.Prelude.{◌≡◌, ◌≤◌};
ghost use Rattle.vt_outside.specs.Placement.{high_zone, f_segment};
ghost use Rattle.zone_alloc.specs.Places.{range_in};

use crate::zone::Zone;

/// The addresses of the zones of a memory. An end isn't in its zone.
#[derive(Clone, Copy, Debug, PartialEq, Eq)]
pub struct Zones {
    /// The first address of [`Zone::High`].
    pub high_start: u64,
    /// The address past the last one of [`Zone::High`].
    pub high_end: u64,
    /// The first address of [`Zone::Fseg`].
    pub fseg_start: u64,
    /// The address past the last one of [`Zone::Fseg`].
    pub fseg_end: u64,
}

/// Returns the zones of memory below the address `top`, which must be at least 16 MiB.
pub fn zones_of(top: u32) -> Zones
    requires { 0x1000000 ≤ top }
    ensures high_start { result.high_start ≡ (high_zone top).start }
    ensures high_end { result.high_end ≡ (high_zone top).end }
    ensures fseg_start { result.fseg_start ≡ f_segment.start }
    ensures fseg_end { result.fseg_end ≡ f_segment.end }
{
    Zones {
        high_start: u64::from(top) - 0x100_0000,
        high_end: u64::from(top),
        fseg_start: 0xF_0000,
        fseg_end: 0x10_0000,
    }
}

impl Zones {
    /// Returns the first address of `zone`.
    pub fn start_of(&self, zone: Zone) -> u64
        ensures { result ≡ (range_in self.now zone).start }
    {
        match zone {
            Zone::High => self.high_start,
            Zone::Fseg => self.fseg_start,
        }
    }

    /// Returns the address past the last one of `zone`.
    pub fn end_of(&self, zone: Zone) -> u64
        ensures { result ≡ (range_in self.now zone).end }
    {
        match zone {
            Zone::High => self.high_end,
            Zone::Fseg => self.fseg_end,
        }
    }
}
