ghost use Rattle.std.specs.Prelude.{◌≡◌, IfOk};
ghost use Rattle.smbios_model.specs.ProcessorInformation.{socket_in};
ghost use Rattle.smbios_model.specs.ToldParts.{socket_told};

use crate::told::Told;
use machine_desc::Socket;
use smbios_model::{Body, ProcessorInfo, three_copies_of};
use std::alloc::Global;
use vt_outside::OutOfMemory;

impl Told for Socket {
    ghost told = { socket_told };

    fn from_body(_alloc: Global, body: &Body) -> Result<Option<Socket>, OutOfMemory> {
        match body {
            Body::Processor(info) => Ok(Some(socket_in(info)?)),
            _ => Ok(None),
        }
    }
}

// The socket that Processor Information tells (DSP0134 7.5). The counts are taken from the words, which tell them whole.
fn socket_in(info: &ProcessorInfo) -> Result<Socket, OutOfMemory>
    ensures { IfOk result (λ socket. socket ≡ socket_in info.now) }
{
    let (designation, manufacturer, version) = three_copies_of(
        &info.designation,
        &info.manufacturer,
        &info.version,
    )?;
    let (serial, asset, part) = three_copies_of(&info.serial, &info.asset, &info.part)?;
    Ok(Socket {
        designation,
        manufacturer,
        version,
        serial,
        asset,
        part,
        cores: info.cores2,
        threads: info.threads2,
        mhz: info.max_speed,
    })
}
