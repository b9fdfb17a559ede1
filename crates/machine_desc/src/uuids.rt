ghost use Rattle.std.specs.Prelude.{◌≡◌};
ghost use Rattle.machine_desc.specs.Uuids.{uuid_bytes};

use uuid::Uuid;

/// Returns the sixteen bytes of `uuid`, a UUID as one number with the first byte of its text highest, as a guest finds them: the first
/// three fields, of 4, 2 and 2 bytes, are little-endian (DSP0134 7.2.1).
pub fn uuid_bytes(uuid: u128) -> [u8; 16]
    ensures { result ≡ uuid_bytes uuid }
{
    Uuid::from_u128(uuid).to_bytes_le()
}
