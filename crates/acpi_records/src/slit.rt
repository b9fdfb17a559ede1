ghost use Rattle.std.specs.Prelude.{◌≡◌, refl};
ghost use Rattle.acpi_records.specs.Slit.{slit_front_fields, slit_front_made, slit_front_of, slit_of};

use crate::header::Head;
use vt_layout::{Laid, RowList, Values};
use vt_outside::Bytes;

/// The System Locality Information Table (ACPI 6.5, 5.2.17), with signature SLIT: how far nodes are from one another.
#[derive(Debug, Drop)]
pub struct Slit {
    /// The table's header.
    pub head: Head,
    /// How many nodes there are. Offset 36, qword.
    pub count: u64,
    /// For each node its distances to all of them, in order: `count` times `count` bytes. 10 is a node's distance to itself, and 255
    /// tells that there is no way.
    pub distances: Bytes,
}

/// The SLIT in front of its distances.
#[derive(Clone, Copy, Debug, PartialEq, Eq)]
pub struct SlitFront {
    /// The table's header.
    pub head: Head,
    /// How many nodes there are. Offset 36, qword.
    pub count: u64,
}

impl Slit {
    /// Makes the table of `front` and of `distances` behind it.
    pub fn of(front: SlitFront, distances: Bytes) -> Slit
        ensures { result ≡ slit_of front distances }
    {
        Slit {
            head: front.head,
            count: front.count,
            distances,
        }
    }

    /// Returns the table in front of its distances.
    pub fn front(&self) -> SlitFront
        ensures { result ≡ slit_front_of self.now }
    {
        SlitFront {
            head: self.head,
            count: self.count,
        }
    }
}

impl Laid for SlitFront {
    const ROWS: u8 = 10;

    ghost ROWS = { 10 };

    ghost fields = { slit_front_fields };

    ghost made = { slit_front_made };

    ghost lawful = { λ t u. record { back = refl; shaped = refl; counted = refl; readable = refl } };

    fn put<'a>(&'a self, rows: &mut RowList<'a>) {
        self.head.put(rows);
        rows.qword(self.count);
    }

    fn take(values: &mut Values) -> SlitFront {
        SlitFront {
            head: Head::take(values),
            count: values.take_qword(),
        }
    }
}
