ghost use Rattle.std.specs.Prelude.{◌≡◌, refl};
ghost use Rattle.vt_layout.specs.Values.{skip, value_at, byte_of};
ghost use Rattle.vt_layout.specs.Fields.{all_added};
ghost use Rattle.resource_items.specs.AddressSpaces.{front_fields, word_space_fields, word_space_made};
ghost use Rattle.resource_items.specs.AddressSpaces.{dword_space_fields, dword_space_made, qword_space_fields, qword_space_made};

use vt_layout::{Laid, RowList, Values};

/// Addresses in numbers of two bytes (Word Address Space Descriptor, ACPI 6.5, 6.4.3.5.3).
#[derive(Clone, Copy, Debug, PartialEq, Eq)]
pub struct WordSpace {
    /// What they are addresses of: 0 is memory, 1 is I/O ports, 2 is bus numbers.
    pub kind: u8,
    /// The flags of the kind (6.4.3.5.5), which are 0 for bus numbers.
    pub flags: u8,
    /// One less than a power of two, at whose multiples addresses may begin.
    pub granularity: u16,
    /// The first address.
    pub first: u16,
    /// The last address.
    pub last: u16,
    /// What a bridge adds to an address on its secondary side to get that on its primary side.
    pub translation: u16,
    /// How many addresses there are.
    pub length: u16,
}

/// Addresses in numbers of four bytes (DWord Address Space Descriptor, ACPI 6.5, 6.4.3.5.2).
#[derive(Clone, Copy, Debug, PartialEq, Eq)]
pub struct DwordSpace {
    /// What they are addresses of: 0 is memory, 1 is I/O ports, 2 is bus numbers.
    pub kind: u8,
    /// The flags of the kind (6.4.3.5.5), which are 0 for bus numbers.
    pub flags: u8,
    /// One less than a power of two, at whose multiples addresses may begin.
    pub granularity: u32,
    /// The first address.
    pub first: u32,
    /// The last address.
    pub last: u32,
    /// What a bridge adds to an address on its secondary side to get that on its primary side.
    pub translation: u32,
    /// How many addresses there are.
    pub length: u32,
}

/// Addresses in numbers of eight bytes (QWord Address Space Descriptor, ACPI 6.5, 6.4.3.5.1).
#[derive(Clone, Copy, Debug, PartialEq, Eq)]
pub struct QwordSpace {
    /// What they are addresses of: 0 is memory, 1 is I/O ports, 2 is bus numbers.
    pub kind: u8,
    /// The flags of the kind (6.4.3.5.5), which are 0 for bus numbers.
    pub flags: u8,
    /// One less than a power of two, at whose multiples addresses may begin.
    pub granularity: u64,
    /// The first address.
    pub first: u64,
    /// The last address.
    pub last: u64,
    /// What a bridge adds to an address on its secondary side to get that on its primary side.
    pub translation: u64,
    /// How many addresses there are.
    pub length: u64,
}

impl Laid for WordSpace {
    const ROWS: u8 = 10;

    ghost ROWS = { 10 };

    ghost fields = { word_space_fields };

    ghost made = { word_space_made };

    ghost lawful = { λ t u. record { back = refl; shaped = refl; counted = refl; readable = refl } };

    fn put<'a>(&'a self, rows: &mut RowList<'a>) {
        put_front(rows, 0x88, 13, self.kind, self.flags);
        rows.word(self.granularity);
        rows.word(self.first);
        rows.word(self.last);
        rows.word(self.translation);
        rows.word(self.length);
    }

    fn take(values: &mut Values) -> WordSpace {
        let (kind, flags) = take_front(values);
        WordSpace {
            kind,
            flags,
            granularity: values.take_word(),
            first: values.take_word(),
            last: values.take_word(),
            translation: values.take_word(),
            length: values.take_word(),
        }
    }
}

impl Laid for DwordSpace {
    const ROWS: u8 = 10;

    ghost ROWS = { 10 };

    ghost fields = { dword_space_fields };

    ghost made = { dword_space_made };

    ghost lawful = { λ t u. record { back = refl; shaped = refl; counted = refl; readable = refl } };

    fn put<'a>(&'a self, rows: &mut RowList<'a>) {
        put_front(rows, 0x87, 23, self.kind, self.flags);
        rows.dword(self.granularity);
        rows.dword(self.first);
        rows.dword(self.last);
        rows.dword(self.translation);
        rows.dword(self.length);
    }

    fn take(values: &mut Values) -> DwordSpace {
        let (kind, flags) = take_front(values);
        DwordSpace {
            kind,
            flags,
            granularity: values.take_dword(),
            first: values.take_dword(),
            last: values.take_dword(),
            translation: values.take_dword(),
            length: values.take_dword(),
        }
    }
}

impl Laid for QwordSpace {
    const ROWS: u8 = 10;

    ghost ROWS = { 10 };

    ghost fields = { qword_space_fields };

    ghost made = { qword_space_made };

    ghost lawful = { λ t u. record { back = refl; shaped = refl; counted = refl; readable = refl } };

    fn put<'a>(&'a self, rows: &mut RowList<'a>) {
        put_front(rows, 0x8A, 43, self.kind, self.flags);
        rows.qword(self.granularity);
        rows.qword(self.first);
        rows.qword(self.last);
        rows.qword(self.translation);
        rows.qword(self.length);
    }

    fn take(values: &mut Values) -> QwordSpace {
        let (kind, flags) = take_front(values);
        QwordSpace {
            kind,
            flags,
            granularity: values.take_qword(),
            first: values.take_qword(),
            last: values.take_qword(),
            translation: values.take_qword(),
            length: values.take_qword(),
        }
    }
}

// Adds the rows in front of the numbers: `tag`, the item's first byte, and `length`, how many bytes stand behind it.
fn put_front(rows: &mut RowList<'_>, tag: u8, length: u16, kind: u8, flags: u8)
    ensures { rows.new ≡ all_added (front_fields tag length kind flags) rows.old }
{
    rows.byte(tag);
    rows.word(length);
    rows.byte(kind);
    rows.byte(0x0C);
    rows.byte(flags);
}

// Takes the kind and its flags from the front of the values of these rows.
fn take_front(values: &mut Values) -> (u8, u8)
    ensures taken { result ≡ (byte_of (value_at 2 values.old), byte_of (value_at 4 values.old)) }
    ensures left { values.new ≡ skip 5 values.old }
{
    values.pass();
    values.pass();
    let kind = values.take_byte();
    values.pass();
    (kind, values.take_byte())
}
