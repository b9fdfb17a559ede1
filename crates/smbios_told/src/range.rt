ghost use Rattle.std.specs.Prelude.{◌≡◌, ◌<◌};
ghost use Rattle.machine_desc.specs.Fields.{fitted};
ghost use Rattle.smbios_model.specs.MappedAddress.{told_in, range_in};
ghost use Rattle.smbios_model.specs.ToldParts.{range_told};

use crate::told::Told;
use machine_desc::MemRange;
use smbios_model::{Body, MappedInfo};
use std::alloc::Global;
use vt_bytes::{BYTES_IN_MIB, KIB_IN_MIB};
use vt_outside::OutOfMemory;

// What the first field of a range holds where the extended fields tell it (DSP0134 7.20).
const EXTENDED_ADDRESS: u32 = 0xFFFF_FFFF;

impl Told for MemRange {
    ghost told = { range_told };

    fn from_body(_alloc: Global, body: &Body) -> Result<Option<MemRange>, OutOfMemory> {
        match body {
            Body::Mapped(info) => Ok(Some(range_in(info))),
            _ => Ok(None),
        }
    }
}

// The range that a mapped address tells (DSP0134 7.20): in KiB, or in bytes in the extended fields.
fn range_in(info: &MappedInfo) -> MemRange
    ensures { result ≡ range_in info.now }
{
    if info.start == EXTENDED_ADDRESS {
        told_in(BYTES_IN_MIB, info.ext_start, info.ext_end)
    } else {
        told_in(KIB_IN_MIB, u64::from(info.start), u64::from(info.end))
    }
}

// The range from the `first` of a unit to the `last` one, of which `unit` make a MiB. Both of its numbers are rounded down.
fn told_in(unit: u64, first: u64, last: u64) -> MemRange
    requires { 0 < unit }
    ensures { result ≡ told_in unit first last }
{
    // In 128 bits, since from the first 64-bit address to the last there are 2^64.
    let units = u128::from(last.saturating_sub(first)) + 1;
    MemRange {
        base_mib: fitted(u128::from(first / unit)),
        size_mib: fitted(units / u128::from(unit)),
        node: 0,
    }
}

// A number of 32 bits as it is, and 0 for a larger one.
fn fitted(number: u128) -> u32
    ensures { result ≡ fitted 32 number }
{
    if number < 0x1_0000_0000 {
        number as u32
    } else {
        0
    }
}
