ghost use Rattle.std.specs.Prelude.{◌≡◌, IfOk};
ghost use Rattle.smbios_model.specs.SystemInformation.{uuid_in, system_part_in};
ghost use Rattle.smbios_model.specs.ToldParts.{system_told, unknown_system, the_system_in};

use crate::told::{Told, first_told};
use machine_desc::System;
use smbios_model::{Body, Structure, SystemInfo, three_copies_of};
use std::alloc::Global;
use uuid::Uuid;
use vt_outside::{OutOfMemory, Text};

impl Told for System {
    ghost told = { system_told };

    fn from_body(_alloc: Global, body: &Body) -> Result<Option<System>, OutOfMemory> {
        match body {
            Body::System(info) => Ok(Some(system_in(info)?)),
            _ => Ok(None),
        }
    }
}

// The system that System Information tells (DSP0134 7.2).
fn system_in(info: &SystemInfo) -> Result<System, OutOfMemory>
    ensures { IfOk result (λ system. system ≡ system_part_in info.now) }
{
    let (manufacturer, product, version) = three_copies_of(
        &info.manufacturer,
        &info.product,
        &info.version,
    )?;
    let (serial, sku, family) = three_copies_of(&info.serial, &info.sku, &info.family)?;
    Ok(System {
        manufacturer,
        product,
        version,
        serial,
        sku,
        family,
        uuid: uuid_in(&info.uuid),
    })
}

// The UUID of sixteen bytes, whose first three fields are little-endian. Sixteen zeros mean none (7.2.1).
fn uuid_in(field: &[u8; 16]) -> Option<u128>
    ensures { result ≡ uuid_in field.now }
{
    let uuid = Uuid::from_bytes_le(*field).as_u128();
    if uuid == 0 { None } else { Some(uuid) }
}

// The first system that `structures` tell, or one with empty texts, which keep `alloc`, where they tell none.
pub(crate) fn the_system_in(alloc: Global, structures: &[Structure]) -> Result<System, OutOfMemory>
    ensures { IfOk result (λ system. system ≡ the_system_in structures.now) }
{
    match first_told(alloc, structures)? {
        Some(system) => Ok(system),
        None => Ok(unknown_system(alloc)),
    }
}

fn unknown_system(alloc: Global) -> System
    ensures { result ≡ unknown_system }
{
    System {
        manufacturer: Text::new(alloc),
        product: Text::new(alloc),
        version: Text::new(alloc),
        serial: Text::new(alloc),
        sku: Text::new(alloc),
        family: Text::new(alloc),
        uuid: None,
    }
}
