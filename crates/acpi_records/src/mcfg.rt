ghost use Rattle.std.specs.Prelude.{◌≡◌, refl};
ghost use Rattle.acpi_records.specs.Mcfg.{mcfg_front_fields, mcfg_front_made, allocation_fields, allocation_made, mcfg_front_of, mcfg_of};

use crate::header::Head;
use vt_layout::{Laid, RowList, Values};
use vt_outside::List;

/// The table of memory-mapped configuration space (PCI Firmware Specification 3.3, 4.1.2), with signature MCFG.
#[derive(Debug, Drop)]
pub struct Mcfg {
    /// The table's header.
    pub head: Head,
    /// Where the configuration space of each group of buses is, in order.
    pub allocations: List<McfgAllocation>,
}

/// The MCFG in front of its allocations.
#[derive(Clone, Copy, Debug, PartialEq, Eq)]
pub struct McfgFront {
    /// The table's header.
    pub head: Head,
}

/// Where the configuration space of a group of buses is in memory (PCI Firmware Specification 3.3, table 4-3).
#[derive(Clone, Copy, Debug, PartialEq, Eq)]
pub struct McfgAllocation {
    /// The guest address of that of bus 0. Offset 0, qword.
    pub base: u64,
    /// The number of the buses' PCI segment group. Offset 8, word.
    pub segment: u16,
    /// The number of the last bus. Offset 11, byte.
    pub last_bus: u8,
}

impl Mcfg {
    /// Makes the table of `front` and of `allocations` behind it.
    pub fn of(front: McfgFront, allocations: List<McfgAllocation>) -> Mcfg
        ensures { result ≡ mcfg_of front allocations }
    {
        Mcfg {
            head: front.head,
            allocations,
        }
    }

    /// Returns the table in front of its allocations.
    pub fn front(&self) -> McfgFront
        ensures { result ≡ mcfg_front_of self.now }
    {
        McfgFront { head: self.head }
    }
}

impl Laid for McfgFront {
    const ROWS: u8 = 10;

    ghost ROWS = { 10 };

    ghost fields = { mcfg_front_fields };

    ghost made = { mcfg_front_made };

    ghost lawful = { λ t u. record { back = refl; shaped = refl; counted = refl; readable = refl } };

    fn put<'a>(&'a self, rows: &mut RowList<'a>) {
        self.head.put(rows);
        rows.reserved(8);
    }

    fn take(values: &mut Values) -> McfgFront {
        let head = Head::take(values);
        values.pass();
        McfgFront { head }
    }
}

impl Laid for McfgAllocation {
    const ROWS: u8 = 5;

    ghost ROWS = { 5 };

    ghost fields = { allocation_fields };

    ghost made = { allocation_made };

    ghost lawful = { λ t u. record { back = refl; shaped = refl; counted = refl; readable = refl } };

    fn put<'a>(&'a self, rows: &mut RowList<'a>) {
        rows.qword(self.base);
        rows.word(self.segment);
        rows.reserved(1);
        rows.byte(self.last_bus);
        rows.reserved(4);
    }

    fn take(values: &mut Values) -> McfgAllocation {
        let base = values.take_qword();
        let segment = values.take_word();
        values.pass();
        let last_bus = values.take_byte();
        values.pass();
        McfgAllocation {
            base,
            segment,
            last_bus,
        }
    }
}
