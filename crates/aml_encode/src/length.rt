ghost use Rattle.std.specs.Prelude.{◌≡◌, ◌+◌, ◌/◌, ◌^◌, ◌<◌, ◌≤◌, length, take};
ghost use Rattle.aml_terms.specs.Written.{length_with, more_for, most_enclosed, package_length};

use vt_bytes::put_le;

/// The most bytes that a package length encloses.
pub(crate) const MOST_ENCLOSED: u32 = 268_435_451;

/// A package length (ACPI 6.5, 20.2.4): the first `len` of `bytes`.
#[derive(Clone, Copy, Debug, PartialEq, Eq)]
pub struct PkgLength {
    /// Its bytes, and zeros behind them.
    pub bytes: [u8; 4],
    /// How many there are, 1 to 4.
    pub len: u8,
}

/// Returns the shortest package length of `body` enclosed bytes, at most 268,435,451. It counts its own bytes too. It takes no memory.
#[tactic(auto, unfolding(aml_terms::specs::Written::package_length))]
pub fn pkg_length(body: u32) -> PkgLength
    requires { body ≤ most_enclosed }
    ensures bytes { take result.len result.bytes ≡ package_length body }
    ensures some { 1 ≤ result.len }
    ensures few { result.len ≤ 4 }
    ensures len { length (package_length body) ≡ result.len }
{
    let more = more_for(body);
    PkgLength {
        bytes: length_bytes(more, body + (more + 1)),
        len: more as u8 + 1,
    }
}

/// Returns how many bytes follow the lead byte of the shortest package length of `body` enclosed bytes.
#[tactic(auto, unfolding(aml_terms::specs::Written::more_for))]
pub(crate) fn more_for(body: u32) -> u32
    ensures more { result ≡ more_for body }
    ensures few { result ≤ 3 }
    ensures low { result ≡ 0 → body < 0x3F }
    ensures fits { body ≤ most_enclosed → 1 ≤ result → (body + (result + 1)) / 16 < 256 ^ result }
{
    if body < 0x3F {
        0
    } else if body < 0xFFE {
        1
    } else if body < 0xF_FFFD {
        2
    } else {
        3
    }
}

// A package length of `total` bytes, with so many bytes behind its lead byte, and zeros.
fn length_bytes(more: u32, total: u32) -> [u8; 4]
    requires few { more ≤ 3 }
    requires low { more ≡ 0 → total < 0x40 }
    requires fits { 1 ≤ more → total / 16 < 256 ^ more }
    ensures { take (more + 1) result ≡ length_with more total }
{
    if more == 0 {
        return [total as u8, 0, 0, 0];
    }
    let mut bytes = [(64 * more + total % 16) as u8, 0, 0, 0];
    put_le(&mut bytes, 1, more as usize, u64::from(total / 16));
    bytes
}
