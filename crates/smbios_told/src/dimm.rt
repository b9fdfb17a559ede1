ghost use Rattle.std.specs.Prelude.{◌≡◌, IfOk};
ghost use Rattle.smbios_model.specs.MemoryDevice.{mib_in, dimm_in};
ghost use Rattle.smbios_model.specs.ToldParts.{dimm_told};

use crate::told::Told;
use machine_desc::Dimm;
use smbios_model::{Body, DeviceInfo, three_copies_of};
use std::alloc::Global;
use vt_outside::OutOfMemory;

// What the first field of a size holds where the second field tells it (DSP0134 7.18.4).
const EXTENDED_SIZE: u16 = 0x7FFF;

impl Told for Dimm {
    ghost told = { dimm_told };

    fn from_body(_alloc: Global, body: &Body) -> Result<Option<Dimm>, OutOfMemory> {
        match body {
            Body::Device(info) => Ok(Some(dimm_in(info)?)),
            _ => Ok(None),
        }
    }
}

// The module that a Memory Device tells (DSP0134 7.18).
fn dimm_in(info: &DeviceInfo) -> Result<Dimm, OutOfMemory>
    ensures { IfOk result (λ dimm. dimm ≡ dimm_in info.now) }
{
    let (locator, bank, manufacturer) = three_copies_of(
        &info.locator,
        &info.bank,
        &info.manufacturer,
    )?;
    let (serial, asset, part) = three_copies_of(&info.serial, &info.asset, &info.part)?;
    Ok(Dimm {
        locator,
        bank,
        manufacturer,
        serial,
        asset,
        part,
        size_mib: mib_in(info.size, info.extended),
        speed: info.speed,
    })
}

// The size in MiB, from both fields.
fn mib_in(size: u16, extended: u32) -> u32
    ensures { result ≡ mib_in size extended }
{
    if size == EXTENDED_SIZE {
        extended
    } else {
        u32::from(size)
    }
}
