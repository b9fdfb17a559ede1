ghost use Rattle.std.specs.Prelude.{◌≡◌, ◌≢◌, ◌⊎◌, Ok, Err, IfOk, IfErr};
ghost use Rattle.vt_layout.specs.declared.record_reader.RecordFault.TheVariants.{OutOfMemory as NoMemory};
ghost use Rattle.smbios_decode.specs.declared.kind.Kind.TheVariants.{OemStrings};
ghost use Rattle.smbios_decode.specs.Kinds.{counted_in, body_in, IsBodyOr};

use crate::kind::{Kind, known_kind};
use smbios_model::Body;
use std::alloc::Global;
use vt_layout::{RecordFault, read};
use vt_outside::{Bytes, List, Text};

/// Reads what a structure of the type `number` says by its `area` behind the header and its `strings`. What is read takes its
/// memory from `alloc`. Returns `NoSuchString` when a record names a string that isn't there, and `OutOfMemory` when memory runs
/// out.
pub(crate) fn read_body(
    alloc: Global,
    number: u8,
    area: &[u8],
    strings: List<Text>,
) -> Result<Body, RecordFault>
    ensures { IsBodyOr number area.now strings result }
{
    match known_kind(number, area.len()) {
        None => {
            let mut copy = Bytes::new(alloc);
            copy.extend(area)?;
            Ok(Body::Raw {
                kind: number,
                area: copy,
                strings,
            })
        }
        Some(Kind::OemStrings) => oem_strings(area[0], strings),
        Some(kind) => record(alloc, kind, area, strings.as_slice()),
    }
}

// OEM Strings (7.12): the first `count` strings.
fn oem_strings(count: u8, strings: List<Text>) -> Result<Body, RecordFault>
    ensures ok { IfOk result (λ body. counted_in count strings ≡ Ok body) }
    ensures err { IfErr result (λ fault. counted_in count strings ≡ Err fault) }
{
    let mut strings = strings;
    let count = usize::from(count);
    if strings.len() < count {
        return Err(RecordFault::NoSuchString(strings.len() as u8 + 1));
    }
    strings.cut(count);
    Ok(Body::OemStrings(strings))
}

// Any other record.
fn record(alloc: Global, kind: Kind, area: &[u8], strings: &[Text]) -> Result<Body, RecordFault>
    requires other { kind ≢ OemStrings }
    ensures ok { IfOk result (λ body. body_in kind area.now strings.now ≡ Ok body) }
    ensures err { IfErr result (λ fault. (fault ≡ NoMemory) ⊎ (body_in kind area.now strings.now ≡ Err fault)) }
{
    Ok(match kind {
        Kind::Bios => Body::Bios(read(alloc, area, strings)?),
        Kind::System => Body::System(read(alloc, area, strings)?),
        Kind::Chassis => Body::Chassis(read(alloc, area, strings)?),
        Kind::Processor => Body::Processor(read(alloc, area, strings)?),
        Kind::Slot => Body::Slot(read(alloc, area, strings)?),
        Kind::OemStrings => unreachable!(),
        Kind::Array => Body::Array(read(alloc, area, strings)?),
        Kind::Device => Body::Device(read(alloc, area, strings)?),
        Kind::Mapped => Body::Mapped(read(alloc, area, strings)?),
        Kind::Boot => Body::Boot(read(alloc, area, strings)?),
        Kind::End => Body::End,
    })
}
