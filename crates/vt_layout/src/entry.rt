ghost use Rattle.std.specs.Prelude.{◌≡◌, ◌+◌, ◌≤◌};
ghost use Rattle.std.specs.List.{AllByRecursion};
ghost use Rattle.vt_layout.specs.Rows.{IsRow, size};
ghost use Rattle.vt_layout.specs.Entries.{entry_head};

use crate::row::{Row, size_of};

/// Returns the two rows that an entry of type `kind` begins with, as in the MADT and the SRAT (ACPI 6.5, 5.2.12 and 5.2.16): its
/// type, and its length in bytes, which counts both. `body` are the rows that follow them, at most 253 bytes.
pub fn entry_head(kind: u8, body: &[Row]) -> [Row; 2]
    requires { size body.now ≤ 253 }
    ensures rows { result ≡ entry_head kind (2 + size body.now) }
    ensures fit { AllByRecursion IsRow result }
{
    [
        Row::Number(1, u64::from(kind)),
        Row::Number(1, 2 + u64::from(size_of(body))),
    ]
}
