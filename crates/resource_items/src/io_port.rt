ghost use Rattle.std.specs.Prelude.{refl};
ghost use Rattle.resource_items.specs.IoPort.{io_port_fields, io_port_made};

use vt_layout::{Laid, RowList, Values};

/// Ports of a device, which decodes all 16 bits of their addresses (I/O Port Descriptor, ACPI 6.5, 6.4.2.5).
#[derive(Clone, Copy, Debug, PartialEq, Eq)]
pub struct IoPort {
    /// The lowest address that the first port may have.
    pub min: u16,
    /// The highest one, which is `min` for ports that stay where they are.
    pub max: u16,
    /// How many ports there are.
    pub length: u8,
}

impl Laid for IoPort {
    const ROWS: u8 = 6;

    ghost ROWS = { 6 };

    ghost fields = { io_port_fields };

    ghost made = { io_port_made };

    ghost lawful = { λ t u. record { back = refl; shaped = refl; counted = refl; readable = refl } };

    fn put<'a>(&'a self, rows: &mut RowList<'a>) {
        rows.byte(0x47);
        rows.byte(1);
        rows.word(self.min);
        rows.word(self.max);
        rows.byte(1);
        rows.byte(self.length);
    }

    fn take(values: &mut Values) -> IoPort {
        values.pass();
        values.pass();
        let min = values.take_word();
        let max = values.take_word();
        values.pass();
        IoPort {
            min,
            max,
            length: values.take_byte(),
        }
    }
}
