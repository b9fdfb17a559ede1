//! The RSDP, from which a memory is walked.

ghost use Rattle.std.specs.Prelude.{◌≡◌, IsTrue, take, codes};
ghost use Rattle.acpi_model.specs.Rsdp.{HasRsdp};
ghost use Rattle.test_scan.specs.RsdpBytes.{HasRevisionAndSums};

use acpi_decode::MemView;
use vt_bytes::{byte_sum, get_le};

// What it begins with.
const SIGNATURE: &[u8] = b"RSD PTR ";

// How many bytes it has (ACPI 6.5, 5.2.5.3).
const RSDP_SIZE: usize = 36;

// How many of them sum to zero by themselves.
const FIRST_SIZE: usize = 20;

// Where its two sums stand, and its revision.
const FIRST_SUM: usize = 8;

const SUM: usize = 32;

const REVISION: usize = 15;

/// Returns an RSDP of revision 2 that leads to the XSDT at `xsdt`, with the maker's id `ABCDEF`.
pub fn rsdp_of(xsdt: u64) -> [u8; RSDP_SIZE] {
    let mut bytes = *b"RSD PTR \0ABCDEF\x02\0\0\0\0\x24\0\0\0\0\0\0\0\0\0\0\0\0\0\0\0";
    bytes[24..32].copy_from_slice(&xsdt.to_le_bytes());
    mend_rsdp(&mut bytes);
    bytes
}

// Sets both sums of an RSDP.
fn mend_rsdp(bytes: &mut [u8; RSDP_SIZE]) {
    bytes[FIRST_SUM] = 0;
    bytes[SUM] = 0;
    bytes[FIRST_SUM] = byte_sum(&bytes[..FIRST_SIZE]).wrapping_neg();
    bytes[SUM] = byte_sum(bytes).wrapping_neg();
}

/// Tells whether a valid RSDP stands at `rsdp`: where one may stand, with its signature, revision 2 or a later one, and both sums.
pub fn has_rsdp<V: MemView>(view: &V, rsdp: u64) -> bool
    ensures { IsTrue result → HasRsdp (V.seen view.now) rsdp }
{
    if rsdp < 0xE_0000 || rsdp > 0x10_0000 - 36 || rsdp % 16 != 0 {
        return false;
    }
    if !view.is_ram_range(rsdp, RSDP_SIZE as u32) {
        return false;
    }
    let mut bytes = [0; RSDP_SIZE];
    view.copy_out(rsdp, &mut bytes);
    is_signed(&bytes) && has_revision_and_sums(&bytes)
}

// Whether bytes begin with the signature of an RSDP.
fn is_signed(bytes: &[u8; RSDP_SIZE]) -> bool
    ensures { IsTrue result → take 8 bytes.now ≡ codes "RSD PTR " }
{
    &bytes[..8] == SIGNATURE
}

// Whether bytes are those of an RSDP by their revision and their two sums.
fn has_revision_and_sums(bytes: &[u8; RSDP_SIZE]) -> bool
    ensures { IsTrue result → HasRevisionAndSums bytes.now }
{
    get_le(bytes, REVISION, 1) >= 2 && byte_sum(&bytes[..FIRST_SIZE]) == 0 && byte_sum(bytes) == 0
}
