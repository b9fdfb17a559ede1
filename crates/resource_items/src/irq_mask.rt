ghost use Rattle.std.specs.Prelude.{refl};
ghost use Rattle.resource_items.specs.IrqMask.{irq_mask_fields, irq_mask_made};

use vt_layout::{Laid, RowList, Values};

/// Interrupts of a device, edge-triggered, active high and not shared (IRQ Descriptor without its byte of flags, ACPI 6.5, 6.4.2.1).
#[derive(Clone, Copy, Debug, PartialEq, Eq)]
pub struct IrqMask {
    /// Which ones: bit n is IRQ n.
    pub mask: u16,
}

impl Laid for IrqMask {
    const ROWS: u8 = 2;

    ghost ROWS = { 2 };

    ghost fields = { irq_mask_fields };

    ghost made = { irq_mask_made };

    ghost lawful = { λ t u. record { back = refl; shaped = refl; counted = refl; readable = refl } };

    fn put<'a>(&'a self, rows: &mut RowList<'a>) {
        rows.byte(0x22);
        rows.word(self.mask);
    }

    fn take(values: &mut Values) -> IrqMask {
        values.pass();
        IrqMask {
            mask: values.take_word(),
        }
    }
}
