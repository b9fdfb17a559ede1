ghost use Rattle.std.specs.Prelude.{◌≡◌, refl};
ghost use Rattle.acpi_records.specs.Srat.{srat_front_fields, srat_front_made, srat_front_of, srat_of};

use crate::header::Head;
use crate::srat_entry::SratEntry;
use vt_layout::{Laid, Row, RowList, Values};
use vt_outside::List;

/// The System Resource Affinity Table (ACPI 6.5, 5.2.16), with signature SRAT: which node each processor and each range of memory is of.
#[derive(Debug, Drop)]
pub struct Srat {
    /// The table's header.
    pub head: Head,
    /// The entries, in order.
    pub entries: List<SratEntry>,
}

/// The SRAT in front of its entries.
#[derive(Clone, Copy, Debug, PartialEq, Eq)]
pub struct SratFront {
    /// The table's header.
    pub head: Head,
}

impl Srat {
    /// Makes the table of `front` and of `entries` behind it.
    pub fn of(front: SratFront, entries: List<SratEntry>) -> Srat
        ensures { result ≡ srat_of front entries }
    {
        Srat {
            head: front.head,
            entries,
        }
    }

    /// Returns the table in front of its entries.
    pub fn front(&self) -> SratFront
        ensures { result ≡ srat_front_of self.now }
    {
        SratFront { head: self.head }
    }
}

impl Laid for SratFront {
    const ROWS: u8 = 11;

    ghost ROWS = { 11 };

    ghost fields = { srat_front_fields };

    ghost made = { srat_front_made };

    ghost lawful = { λ t u. record { back = refl; shaped = refl; counted = refl; readable = refl } };

    fn put<'a>(&'a self, rows: &mut RowList<'a>) {
        self.head.put(rows);
        rows.row(Row::Ignored(4, 1));
        rows.reserved(8);
    }

    fn take(values: &mut Values) -> SratFront {
        let head = Head::take(values);
        values.pass();
        values.pass();
        SratFront { head }
    }
}
