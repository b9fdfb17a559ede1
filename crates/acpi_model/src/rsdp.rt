ghost use Rattle.std.specs.Prelude.{◌≡◌};
ghost use Rattle.std.specs.List.{AllByRecursion};
ghost use Rattle.vt_layout.specs.Rows.{IsRow};
ghost use Rattle.acpi_model.specs.Rsdp.{rsdp_rows};

use vt_layout::{Row, ShortBytes};

/// Returns the rows of the RSDP (ACPI 6.5, 5.2.5.3) with the maker's id `oem_id`. `xsdt` is the row of the XSDT's address, with
/// 8 bytes and a value that fits them.
pub fn rsdp_rows(oem_id: &[u8; 6], xsdt: Row) -> [Row; 9]
    requires { IsRow xsdt }
    ensures rows { result ≡ rsdp_rows oem_id.now xsdt }
    ensures fit { AllByRecursion IsRow result }
{
    [
        Row::Bytes(8, ShortBytes::of(b"RSD PTR ")),
        Row::Sum(20),
        Row::Bytes(6, ShortBytes::of(oem_id)),
        Row::Number(1, 2),
        Row::Ignored(4, 0),
        Row::Ignored(4, 36),
        xsdt,
        Row::Sum(36),
        Row::Reserved(3),
    ]
}
