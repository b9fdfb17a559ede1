ghost use Rattle.std.specs.Prelude.{◌≡◌, IfOk};
ghost use Rattle.smbios_model.specs.BiosInformation.{firmware_in};
ghost use Rattle.smbios_model.specs.ToldParts.{firmware_told};

use crate::told::Told;
use machine_desc::Firmware;
use smbios_model::{BiosInfo, Body, three_copies_of};
use std::alloc::Global;
use vt_outside::OutOfMemory;

impl Told for Firmware {
    ghost told = { firmware_told };

    fn from_body(_alloc: Global, body: &Body) -> Result<Option<Firmware>, OutOfMemory> {
        match body {
            Body::Bios(info) => Ok(Some(firmware_in(info)?)),
            _ => Ok(None),
        }
    }
}

// The firmware that BIOS Information tells (DSP0134 7.1).
fn firmware_in(info: &BiosInfo) -> Result<Firmware, OutOfMemory>
    ensures { IfOk result (λ firmware. firmware ≡ firmware_in info.now) }
{
    let (vendor, version, date) = three_copies_of(&info.vendor, &info.version, &info.date)?;
    Ok(Firmware {
        vendor,
        version,
        date,
        major: info.major,
        minor: info.minor,
    })
}
