ghost use Rattle.std.specs.Prelude.{◌≡◌, IfOk};
ghost use Rattle.smbios_model.specs.ChassisInformation.{chassis_part_in};
ghost use Rattle.smbios_model.specs.ToldParts.{chassis_told};

use crate::told::Told;
use machine_desc::Chassis;
use smbios_model::{Body, ChassisInfo, three_copies_of, two_copies_of};
use std::alloc::Global;
use vt_outside::OutOfMemory;

impl Told for Chassis {
    ghost told = { chassis_told };

    fn from_body(_alloc: Global, body: &Body) -> Result<Option<Chassis>, OutOfMemory> {
        match body {
            Body::Chassis(info) => Ok(Some(chassis_in(info)?)),
            _ => Ok(None),
        }
    }
}

// The chassis that an enclosure tells (DSP0134 7.4).
fn chassis_in(info: &ChassisInfo) -> Result<Chassis, OutOfMemory>
    ensures { IfOk result (λ chassis. chassis ≡ chassis_part_in info.now) }
{
    let (manufacturer, version, serial) = three_copies_of(
        &info.manufacturer,
        &info.version,
        &info.serial,
    )?;
    let (asset, sku) = two_copies_of(&info.asset, &info.sku)?;
    Ok(Chassis {
        manufacturer,
        version,
        serial,
        asset,
        sku,
        kind: info.kind,
    })
}
