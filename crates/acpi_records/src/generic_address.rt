ghost use Rattle.std.specs.Prelude.{refl};
ghost use Rattle.acpi_records.specs.GenericAddress.{address_fields, address_made};

use vt_layout::{Laid, RowList, Values};

/// A register's address (Generic Address Structure, ACPI 6.5, 5.2.3.2).
#[derive(Clone, Copy, Debug, PartialEq, Eq)]
pub struct GenericAddress {
    /// The address space: 0 is memory, 1 is I/O. Offset 0, byte.
    pub space: u8,
    /// The register's width in bits. Offset 1, byte.
    pub width: u8,
    /// The offset of its first bit. Offset 2, byte.
    pub offset: u8,
    /// The size of an access: 1 to 4 are 1, 2, 4 and 8 bytes, and 0 leaves it open. Offset 3, byte.
    pub access: u8,
    /// Where it is. Offset 4, qword.
    pub address: u64,
}

impl Laid for GenericAddress {
    const ROWS: u8 = 5;

    ghost ROWS = { 5 };

    ghost fields = { address_fields };

    ghost made = { address_made };

    ghost lawful = { λ t u. record { back = refl; shaped = refl; counted = refl; readable = refl } };

    fn put<'a>(&'a self, rows: &mut RowList<'a>) {
        rows.byte(self.space);
        rows.byte(self.width);
        rows.byte(self.offset);
        rows.byte(self.access);
        rows.qword(self.address);
    }

    fn take(values: &mut Values) -> GenericAddress {
        GenericAddress {
            space: values.take_byte(),
            width: values.take_byte(),
            offset: values.take_byte(),
            access: values.take_byte(),
            address: values.take_qword(),
        }
    }
}
