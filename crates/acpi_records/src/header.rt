ghost use Rattle.std.specs.Prelude.{◌≡◌, ◌≤◌, ◌+◌, ◌++◌, length, drop, refl};
ghost use Rattle.acpi_records.specs.Header.{head_fields, head_made, head_of, FitsHead};

use machine_desc::Acpi;
use vt_layout::{Laid, RowList, Values};

/// How many bytes the header of an ACPI table has (ACPI 6.5, 5.2.6).
pub const HEADER_SIZE: u32 = 36;

/// The header of a table without its signature, length and checksum (ACPI 6.5, 5.2.6).
#[derive(Clone, Copy, Debug, PartialEq, Eq)]
pub struct Head {
    /// The table's revision. Offset 8, byte.
    pub revision: u8,
    /// The maker's id. Offset 10, 6 bytes.
    pub oem_id: [u8; 6],
    /// The maker's id of the table. Offset 16, 8 bytes.
    pub oem_table_id: [u8; 8],
    /// The maker's revision. Offset 24, dword.
    pub oem_revision: u32,
    /// The id of the program that made the table. Offset 28, 4 bytes.
    pub creator_id: [u8; 4],
    /// That program's revision. Offset 32, dword.
    pub creator_revision: u32,
}

impl Laid for Head {
    const ROWS: u8 = 9;

    ghost ROWS = { 9 };

    ghost fields = { head_fields };

    ghost made = { head_made };

    ghost lawful = { λ t u. record { back = refl; shaped = refl; counted = refl; readable = refl } };

    fn put<'a>(&'a self, rows: &mut RowList<'a>) {
        rows.four(&[0; 4]);
        rows.dword(0);
        rows.byte(self.revision);
        rows.reserved(1);
        rows.six(&self.oem_id);
        rows.eight(&self.oem_table_id);
        rows.dword(self.oem_revision);
        rows.four(&self.creator_id);
        rows.dword(self.creator_revision);
    }

    fn take(values: &mut Values) -> Head {
        values.pass();
        values.pass();
        let revision = values.take_byte();
        values.pass();
        Head {
            revision,
            oem_id: values.take_six(),
            oem_table_id: values.take_eight(),
            oem_revision: values.take_dword(),
            creator_id: values.take_four(),
            creator_revision: values.take_dword(),
        }
    }
}

/// Returns the header of a table of revision `revision`, with the maker's ids of `acpi`, of which `oem_id` has at most 6 bytes
/// and `oem_table_id` at most 8. Both are padded with spaces. The creator is VMTB, and the maker's and the creator's revision
/// are 1.
pub fn head_of(acpi: &Acpi, revision: u8) -> Head
    requires { FitsHead acpi.now }
    ensures { result ≡ head_of acpi.now revision }
{
    let mut oem_id = [b' '; 6];
    put_front(&mut oem_id, acpi.oem_id.as_slice());
    let mut oem_table_id = [b' '; 8];
    put_front(&mut oem_table_id, acpi.oem_table_id.as_slice());
    Head {
        revision,
        oem_id,
        oem_table_id,
        oem_revision: 1,
        creator_id: *b"VMTB",
        creator_revision: 1,
    }
}

// Puts a text over the front of a field.
fn put_front(field: &mut [u8], text: &[u8])
    requires { length text.now ≤ length field.old }
    ensures { field.new ≡ text.now ++ drop (length text.now) field.old }
{
    field[..text.len()].copy_from_slice(text);
}
