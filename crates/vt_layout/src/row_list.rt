ghost use Rattle.std.specs.Prelude.{◌≡◌, ◌<◌, ◌+◌, ◌≤◌, ◌==◌, [], ◌∷◌, ◌++◌, IfOk, map, length, vec_len, vec_capacity, if◌then◌else◌};
ghost use Rattle.std.specs.List.{AllByRecursion};
ghost use Rattle.vt_layout.specs.Rows.{IsRow};
ghost use Rattle.vt_layout.specs.Fields.{Plain, Text as TextField, added, with_row};
ghost use Rattle.vt_layout.specs.Fields.{byte, word, dword, qword, big_word, big_dword, big_qword, four, six, eight, sixteen, reserved};

use crate::record_size::RecordSize;
use crate::row::Row;
use crate::short_bytes::ShortBytes;
use std::alloc::Global;
use std::marker::Model;
use vt_outside::{OutOfMemory, Text};

/// The rows of a record, and its texts, which are numbered in their order: each that isn't empty gets the next number, from 1 on.
/// Contracts see both, how many more rows there is room for, and how many bytes all have.
///
/// The room is taken at once, so adding can't fail. Where there is no room, what is added is left out, and only its bytes are counted.
#[derive(Drop)]
pub struct RowList<'a> {
    room: u8,
    // How many of the texts aren't empty.
    strings: u8,
    size: RecordSize,
    rows: Vec<Row>,
    texts: Vec<&'a Text>,
}

impl<'a> Model for RowList<'a> {
    ghost use Rattle.std.specs.Prelude.{◌≡◌, ◌+◌, ◌≤◌, length, map, vec_capacity, vec_len};
    ghost use Rattle.std.specs.List.{AllByRecursion};
    ghost use Rattle.vt_layout.specs.Rows.{IsRow};
    ghost use Rattle.vt_layout.specs.Strings.{strings_of};
    ghost use Rattle.vt_layout.specs.Fields.{Gathered};

    ghost Value = { Gathered };

    ghost view = { λ l. record { room = l.room; size = l.size; rows = l.rows.items; texts = map (λ text. text.now) l.texts.items } };

    ghost invariant = { λ l. record {
      rows_room : vec_len l.rows + l.room ≤ vec_capacity l.rows;
      texts_room : vec_len l.texts + l.room ≤ vec_capacity l.texts;
      few : vec_len l.texts + l.room ≤ 255;
      counted : l.strings ≡ length (strings_of (map (λ text. text.now) l.texts.items));
      fit : AllByRecursion IsRow l.rows.items;
    } };
}

impl<'a> RowList<'a> {
    /// Makes an empty list with room for `room` rows, in memory from `alloc`. Returns `OutOfMemory` when memory runs out.
    pub fn with_room(alloc: Global, room: u8) -> Result<RowList<'a>, OutOfMemory>
        ensures { IfOk result (λ list. list ≡ record { room = room; size = record { area = 0; strings = 0 }; rows = []; texts = [] }) }
    {
        let rows = Vec::with_capacity(alloc, usize::from(room))?;
        let texts = Vec::with_capacity(alloc, usize::from(room))?;
        Ok(RowList {
            room,
            strings: 0,
            size: RecordSize {
                area: 0,
                strings: 0,
            },
            rows,
            texts,
        })
    }

    /// Makes an empty list without room, which takes no memory and only counts the bytes of what is added.
    pub fn without_room(alloc: Global) -> RowList<'a>
        ensures { result ≡ record { room = 0; size = record { area = 0; strings = 0 }; rows = []; texts = [] } }
    {
        RowList {
            room: 0,
            strings: 0,
            size: RecordSize {
                area: 0,
                strings: 0,
            },
            rows: Vec::new(alloc),
            texts: Vec::new(alloc),
        }
    }

    /// Returns how many bytes all has that was added, with what there was no room for.
    pub fn size(&self) -> RecordSize
        ensures { result ≡ self.now.size }
    {
        self.size
    }

    /// Returns the rows, in order. Each value fits its row.
    pub fn rows(&self) -> &[Row]
        ensures rows { result.now ≡ self.now.rows }
        ensures fit { AllByRecursion IsRow self.now.rows }
    {
        self.rows.as_slice()
    }

    /// Returns the texts, in the order of the rows of their numbers.
    pub fn texts(&self) -> &[&'a Text]
        ensures { map (λ text. text.now) result.now ≡ self.now.texts }
    {
        self.texts.as_slice()
    }

    /// Returns the rows, and drops what else there is.
    pub(crate) fn into_rows(self) -> Vec<Row>
        ensures { result.items ≡ self.entry.rows }
    {
        self.rows
    }

    /// Adds `row`, whose value must fit it.
    pub fn row(&mut self, row: Row)
        requires { IsRow row }
        ensures { self.new ≡ added (Plain row) self.old }
    {
        self.size = self.size.with_row(&row);
        if self.room > 0 {
            self.room -= 1;
            add_last(&mut self.rows, row);
        }
    }

    /// Adds `text`, and the row of its number.
    pub fn text(&mut self, text: &'a Text)
        ensures { self.new ≡ added (TextField text.now) self.old }
    {
        self.size = self.size.with_text(text);
        if self.room > 0 {
            self.room -= 1;
            let number = number_behind(self.strings, text);
            self.strings = self.strings.max(number);
            add_last(&mut self.rows, Row::StringNumber(number));
            add_last(&mut self.texts, text);
        }
    }

    /// Adds a number of one byte.
    pub fn byte(&mut self, value: u8)
        ensures { self.new ≡ added (byte value) self.old }
    {
        self.row(Row::Number(1, u64::from(value)));
    }

    /// Adds a number of two bytes, low byte first.
    pub fn word(&mut self, value: u16)
        ensures { self.new ≡ added (word value) self.old }
    {
        self.row(Row::Number(2, u64::from(value)));
    }

    /// Adds a number of four bytes, low byte first.
    pub fn dword(&mut self, value: u32)
        ensures { self.new ≡ added (dword value) self.old }
    {
        self.row(Row::Number(4, u64::from(value)));
    }

    /// Adds a number of eight bytes, low byte first.
    pub fn qword(&mut self, value: u64)
        ensures { self.new ≡ added (qword value) self.old }
    {
        self.row(Row::Number(8, value));
    }

    /// Adds a number of two bytes, high byte first.
    pub fn big_word(&mut self, value: u16)
        ensures { self.new ≡ added (big_word value) self.old }
    {
        self.row(Row::BigEndian(2, u64::from(value)));
    }

    /// Adds a number of four bytes, high byte first.
    pub fn big_dword(&mut self, value: u32)
        ensures { self.new ≡ added (big_dword value) self.old }
    {
        self.row(Row::BigEndian(4, u64::from(value)));
    }

    /// Adds a number of eight bytes, high byte first.
    pub fn big_qword(&mut self, value: u64)
        ensures { self.new ≡ added (big_qword value) self.old }
    {
        self.row(Row::BigEndian(8, value));
    }

    /// Adds four bytes as they stand.
    pub fn four(&mut self, bytes: &[u8; 4])
        ensures { self.new ≡ added (four bytes.now) self.old }
    {
        self.row(Row::Bytes(4, ShortBytes::of(bytes)));
    }

    /// Adds six bytes as they stand.
    pub fn six(&mut self, bytes: &[u8; 6])
        ensures { self.new ≡ added (six bytes.now) self.old }
    {
        self.row(Row::Bytes(6, ShortBytes::of(bytes)));
    }

    /// Adds eight bytes as they stand.
    pub fn eight(&mut self, bytes: &[u8; 8])
        ensures { self.new ≡ added (eight bytes.now) self.old }
    {
        self.row(Row::Bytes(8, ShortBytes::of(bytes)));
    }

    /// Adds sixteen bytes as they stand.
    pub fn sixteen(&mut self, bytes: &[u8; 16])
        ensures { self.new ≡ added (sixteen bytes.now) self.old }
    {
        self.row(Row::Bytes(16, ShortBytes::of(bytes)));
    }

    /// Adds `width` bytes that no reader looks at, and that are written as zeros.
    pub fn reserved(&mut self, width: u8)
        ensures { self.new ≡ added (reserved width) self.old }
    {
        self.row(Row::Reserved(width));
    }

    /// Puts `row`, whose value must fit it, in place of the row with the index `place`, of which there must be one. So a record's
    /// list gets what the record doesn't keep, as a table's length, its checksum and its pointers.
    pub fn set(&mut self, place: usize, row: Row)
        requires there { place < length self.old.rows }
        requires fits { IsRow row }
        ensures { self.new ≡ with_row place row self.old }
    {
        self.rows[place] = row;
    }
}

// The number of a text behind so many strings. An empty text is no string.
fn number_behind(strings: u8, text: &Text) -> u8
    requires { strings < 255 }
    ensures { result ≡ (if length text.now == 0 then 0 else strings + 1) }
{
    if text.len() == 0 { 0 } else { strings + 1 }
}

// Adds an item at the end, for which there is room.
fn add_last<T: Drop>(items: &mut Vec<T>, item: T)
    requires { vec_len items.old < vec_capacity items.old }
    ensures items { items.new.items ≡ items.old.items ++ item ∷ [] }
    ensures len { vec_len items.new ≡ vec_len items.old + 1 }
    ensures capacity { vec_capacity items.old ≤ vec_capacity items.new }
{
    let _added = items.push(item);
}
