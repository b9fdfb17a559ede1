ghost use Rattle.std.specs.Prelude.{◌≡◌, ◌^◌, ◌<◌, ◌≤◌, ◌⊎◌, ◌∷◌, length, take, Err, IfOk, IfErr};
ghost use Rattle.vt_bytes.specs.Numbers.{le_bytes};
ghost use Rattle.smbios_decode.specs.declared.fault.SmbiosFault.TheVariants.{OutOfMemory as NoMemory};
ghost use Rattle.smbios_decode.specs.Faults.{IsFault, BeginsWhole};
ghost use Rattle.smbios_decode.specs.Found.{IsFound};

use crate::body::read_body;
use crate::fault::SmbiosFault;
use crate::strings::read_strings;
use smbios_model::{END_TYPE, Structure};
use std::alloc::Global;
use vt_layout::RecordFault;

// The bytes of a structure's header (6.1.2).
const HEADER_SIZE: usize = 4;

/// A structure that was found at the front of bytes.
#[derive(Drop)]
pub(crate) struct Found {
    /// What it says.
    pub(crate) structure: Structure,
    /// How many bytes it has, with its strings.
    pub(crate) size: usize,
    /// Whether it ends the table.
    pub(crate) is_last: bool,
}

/// A structure's header (6.1.2).
#[derive(Clone, Copy)]
struct Header {
    number: u8,
    length: u8,
    handle: u16,
}

/// Reads the structure that `bytes`, of which there are some, begin with. `place` is where it begins in the table. The errors
/// are those of [`decode_table`](crate::decode_table).
pub(crate) fn read_structure(alloc: Global, bytes: &[u8], place: u32) -> Result<Found, SmbiosFault>
    requires { 0 < length bytes.now }
    ensures found { IfOk result (λ found. IsFound bytes.now found) }
    ensures fault { IfErr result (λ fault. (fault ≡ NoMemory) ⊎ IsFault place bytes.now fault) }
    ensures no_memory { result ≡ Err NoMemory → BeginsWhole bytes.now }
{
    let header = read_header(bytes, place)?;
    let length = usize::from(header.length);
    if bytes.len() < length {
        return Err(SmbiosFault::Truncated(place));
    }
    let Some(strings) = read_strings(alloc, &bytes[length..])? else {
        return Err(SmbiosFault::Truncated(place));
    };
    let size = length + strings.size;
    match read_body(
        alloc,
        header.number,
        &bytes[HEADER_SIZE..length],
        strings.texts,
    ) {
        Ok(body) => Ok(Found {
            structure: Structure {
                handle: header.handle,
                body,
            },
            size,
            is_last: header.number == END_TYPE,
        }),
        Err(RecordFault::NoSuchString(number)) => Err(SmbiosFault::NoSuchString { place, number }),
        Err(RecordFault::OutOfMemory) => Err(SmbiosFault::OutOfMemory),
        // The area of a known kind is as long as its record.
        Err(RecordFault::TooShort) => unreachable!(),
    }
}

// Reads the header that bytes begin with.
fn read_header(bytes: &[u8], place: u32) -> Result<Header, SmbiosFault>
    requires { 0 < length bytes.now }
    ensures begins { IfOk result (λ h. (4 ≤ length bytes.now) × (4 ≤ h.length)
        × (take 4 bytes.now ≡ h.number ∷ h.length ∷ le_bytes 2 h.handle)) }
    ensures fits { IfOk result (λ h. h.handle < 2 ^ 16) }
    ensures fault { IfErr result (λ fault. IsFault place bytes.now fault) }
{
    if bytes.len() < HEADER_SIZE {
        return Err(SmbiosFault::Truncated(place));
    }
    let header = Header {
        number: bytes[0],
        length: bytes[1],
        handle: u16::from_le_bytes([bytes[2], bytes[3]]),
    };
    if usize::from(header.length) < HEADER_SIZE {
        return Err(SmbiosFault::ShortStructure(place));
    }
    Ok(header)
}
