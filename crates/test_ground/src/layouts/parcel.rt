//! A made-up record, with a row of each kind that a record can have, with texts and with a part.

ghost use Rattle.std.specs.Prelude.{refl};
ghost use Rattle.test_ground.specs.Parcel.{extent_fields, extent_in, parcel_fields, parcel_in};

use vt_layout::{Laid, Row, RowList, Values};
use vt_outside::Text;

/// What a carrier knows of a parcel.
#[derive(Drop)]
pub struct Parcel {
    pub sender: Text,
    pub kind: u8,
    pub weight: u16,
    pub extent: Extent,
    pub receiver: Text,
    pub carrier: [u8; 4],
    pub depot: [u8; 6],
    pub route: [u8; 8],
    pub label: [u8; 16],
    pub number: u64,
    pub customs: u16,
    pub postcode: u32,
    pub tracking: u64,
    pub note: Text,
}

/// How large it is.
#[derive(Clone, Copy, Debug, PartialEq, Eq)]
pub struct Extent {
    pub unit: u8,
    pub volume: u32,
}

impl Laid for Extent {
    const ROWS: u8 = 3;

    ghost ROWS = { 3 };

    ghost fields = { extent_fields };

    ghost made = { extent_in };

    ghost lawful = { λ t u. record { back = refl; shaped = refl; counted = refl; readable = refl } };

    fn put<'a>(&'a self, rows: &mut RowList<'a>) {
        rows.byte(self.unit);
        rows.reserved(1);
        rows.dword(self.volume);
    }

    fn take(values: &mut Values) -> Extent {
        let unit = values.take_byte();
        values.pass();
        Extent {
            unit,
            volume: values.take_dword(),
        }
    }
}

impl Laid for Parcel {
    const ROWS: u8 = 17;

    ghost ROWS = { 17 };

    ghost fields = { parcel_fields };

    ghost made = { parcel_in };

    ghost lawful = { λ t u. record { back = refl; shaped = refl; counted = refl; readable = refl } };

    fn put<'a>(&'a self, rows: &mut RowList<'a>) {
        rows.text(&self.sender);
        rows.byte(self.kind);
        rows.word(self.weight);
        self.extent.put(rows);
        rows.text(&self.receiver);
        rows.four(&self.carrier);
        rows.six(&self.depot);
        rows.eight(&self.route);
        rows.sixteen(&self.label);
        rows.qword(self.number);
        rows.big_word(self.customs);
        rows.big_dword(self.postcode);
        rows.big_qword(self.tracking);
        rows.row(Row::Ignored(1, 7));
        rows.text(&self.note);
    }

    fn take(values: &mut Values) -> Parcel {
        Parcel {
            sender: values.take_text(),
            kind: values.take_byte(),
            weight: values.take_word(),
            extent: Extent::take(values),
            receiver: values.take_text(),
            carrier: values.take_four(),
            depot: values.take_six(),
            route: values.take_eight(),
            label: values.take_sixteen(),
            number: values.take_qword(),
            customs: values.take_word(),
            postcode: values.take_dword(),
            tracking: values.take_qword(),
            note: {
                values.pass();
                values.take_text()
            },
        }
    }
}
