ghost use Rattle.std.specs.Prelude.{refl};
ghost use Rattle.resource_items.specs.FixedMemory.{fixed_memory_fields, fixed_memory_made};

use vt_layout::{Laid, RowList, Values};

/// Memory of a device, to be read and written, that stays where it is (32-Bit Fixed Memory Range Descriptor, ACPI 6.5, 6.4.3.4).
#[derive(Clone, Copy, Debug, PartialEq, Eq)]
pub struct FixedMemory {
    /// Its address.
    pub base: u32,
    /// How many bytes it has.
    pub length: u32,
}

impl Laid for FixedMemory {
    const ROWS: u8 = 5;

    ghost ROWS = { 5 };

    ghost fields = { fixed_memory_fields };

    ghost made = { fixed_memory_made };

    ghost lawful = { λ t u. record { back = refl; shaped = refl; counted = refl; readable = refl } };

    fn put<'a>(&'a self, rows: &mut RowList<'a>) {
        rows.byte(0x86);
        rows.word(9);
        rows.byte(1);
        rows.dword(self.base);
        rows.dword(self.length);
    }

    fn take(values: &mut Values) -> FixedMemory {
        values.pass();
        values.pass();
        values.pass();
        FixedMemory {
            base: values.take_dword(),
            length: values.take_dword(),
        }
    }
}
