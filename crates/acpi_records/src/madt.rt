ghost use Rattle.std.specs.Prelude.{◌≡◌, refl};
ghost use Rattle.acpi_records.specs.Madt.{madt_front_fields, madt_front_made, madt_front_of, madt_of};

use crate::header::Head;
use crate::madt_entry::MadtEntry;
use vt_layout::{Laid, RowList, Values};
use vt_outside::List;

/// The Multiple APIC Description Table (ACPI 6.5, 5.2.12), with signature APIC: how interrupts reach the processors.
#[derive(Debug, Drop)]
pub struct Madt {
    /// The table's header.
    pub head: Head,
    /// The address of each processor's local APIC. Offset 36, dword.
    pub address: u32,
    /// Bit 0: the machine also has two 8259 interrupt controllers. Offset 40, dword.
    pub flags: u32,
    /// The entries, in order.
    pub entries: List<MadtEntry>,
}

/// The MADT in front of its entries.
#[derive(Clone, Copy, Debug, PartialEq, Eq)]
pub struct MadtFront {
    /// The table's header.
    pub head: Head,
    /// The address of each processor's local APIC. Offset 36, dword.
    pub address: u32,
    /// Bit 0: the machine also has two 8259 interrupt controllers. Offset 40, dword.
    pub flags: u32,
}

impl Madt {
    /// Makes the table of `front` and of `entries` behind it.
    pub fn of(front: MadtFront, entries: List<MadtEntry>) -> Madt
        ensures { result ≡ madt_of front entries }
    {
        Madt {
            head: front.head,
            address: front.address,
            flags: front.flags,
            entries,
        }
    }

    /// Returns the table in front of its entries.
    pub fn front(&self) -> MadtFront
        ensures { result ≡ madt_front_of self.now }
    {
        MadtFront {
            head: self.head,
            address: self.address,
            flags: self.flags,
        }
    }
}

impl Laid for MadtFront {
    const ROWS: u8 = 11;

    ghost ROWS = { 11 };

    ghost fields = { madt_front_fields };

    ghost made = { madt_front_made };

    ghost lawful = { λ t u. record { back = refl; shaped = refl; counted = refl; readable = refl } };

    fn put<'a>(&'a self, rows: &mut RowList<'a>) {
        self.head.put(rows);
        rows.dword(self.address);
        rows.dword(self.flags);
    }

    fn take(values: &mut Values) -> MadtFront {
        MadtFront {
            head: Head::take(values),
            address: values.take_dword(),
            flags: values.take_dword(),
        }
    }
}
