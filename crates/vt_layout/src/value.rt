ghost use Rattle.std.specs.Prelude.{◌≡◌, [], ◌∷◌, ◌++◌, OnOk, OnErr};
ghost use Rattle.vt_layout.specs.Values.{first, rest, byte_of, word_of, dword_of, qword_of, four_of, six_of, eight_of, sixteen_of, text_of};

use std::alloc::Global;
use std::collections::VecDeque;
use std::marker::Model;
use vt_outside::{OutOfMemory, Text};

/// What a reader takes of a row, by the row's width.
#[derive(Drop)]
pub enum Value {
    /// A number of one byte.
    Byte(u8),
    /// A number of two bytes.
    Word(u16),
    /// A number of four bytes.
    Dword(u32),
    /// A number of eight bytes.
    Qword(u64),
    /// Four bytes as they stand, as a signature.
    Four([u8; 4]),
    /// Six bytes as they stand.
    Six([u8; 6]),
    /// Eight bytes as they stand.
    Eight([u8; 8]),
    /// Sixteen bytes as they stand, as a UUID.
    Sixteen([u8; 16]),
    /// The text of a string's number.
    Text(Text),
    /// Of a row that no record keeps, or of one of any other width.
    Nothing,
}

/// The values that a reader has taken of rows, in order, which a record takes from the front. Contracts see the list of them.
///
/// Each call gives what the record wants. Of a value of another kind it gives 0, zeros or the empty text, so a record tests nothing
/// and has no fault of its own: that it asks for the kinds of its own rows is its law (`Laid::lawful`).
#[derive(Drop)]
pub struct Values {
    alloc: Global,
    values: VecDeque<Value>,
}

impl Model for Values {
    ghost use Rattle.std.specs.Prelude.{List};
    ghost use Rattle.vt_layout.specs.declared.value.Value.{Value as AValue};

    ghost Value = { List AValue };

    ghost view = { λ v. v.values.items };
}

impl Values {
    /// Makes an empty list, which will take its memory from `alloc`. It takes none yet, so it can't fail.
    pub(crate) fn new(alloc: Global) -> Values
        ensures { result ≡ [] }
    {
        Values {
            alloc,
            values: VecDeque::new(alloc),
        }
    }

    /// Adds `value` at the end. On `OutOfMemory` it isn't added, and the list is what it was.
    pub(crate) fn push(&mut self, value: Value) -> Result<(), OutOfMemory>
        ensures ok { OnOk result (self.new ≡ self.old ++ value ∷ []) }
        ensures err { OnErr result (self.new ≡ self.old) }
    {
        self.values.push_back(value)?;
        Ok(())
    }

    /// Drops all that are left, and keeps the memory for others.
    pub(crate) fn clear(&mut self)
        ensures { self.new ≡ [] }
    {
        self.values.clear();
    }

    // Takes the first value, or Nothing where none is left.
    fn take_first(&mut self) -> Value
        ensures first { result ≡ first self.old }
        ensures rest { self.new ≡ rest self.old }
    {
        self.values.pop_front().unwrap_or(Value::Nothing)
    }

    /// Passes over the value of a row that the record doesn't keep.
    pub fn pass(&mut self)
        ensures { self.new ≡ rest self.old }
    {
        let _value = self.take_first();
    }

    /// Takes a number of one byte.
    pub fn take_byte(&mut self) -> u8
        ensures value { result ≡ byte_of (first self.old) }
        ensures rest { self.new ≡ rest self.old }
    {
        match self.take_first() {
            Value::Byte(number) => number,
            _ => 0,
        }
    }

    /// Takes a number of two bytes.
    pub fn take_word(&mut self) -> u16
        ensures value { result ≡ word_of (first self.old) }
        ensures rest { self.new ≡ rest self.old }
    {
        match self.take_first() {
            Value::Word(number) => number,
            _ => 0,
        }
    }

    /// Takes a number of four bytes.
    pub fn take_dword(&mut self) -> u32
        ensures value { result ≡ dword_of (first self.old) }
        ensures rest { self.new ≡ rest self.old }
    {
        match self.take_first() {
            Value::Dword(number) => number,
            _ => 0,
        }
    }

    /// Takes a number of eight bytes.
    pub fn take_qword(&mut self) -> u64
        ensures value { result ≡ qword_of (first self.old) }
        ensures rest { self.new ≡ rest self.old }
    {
        match self.take_first() {
            Value::Qword(number) => number,
            _ => 0,
        }
    }

    /// Takes four bytes.
    pub fn take_four(&mut self) -> [u8; 4]
        ensures value { result ≡ four_of (first self.old) }
        ensures rest { self.new ≡ rest self.old }
    {
        match self.take_first() {
            Value::Four(bytes) => bytes,
            _ => [0; 4],
        }
    }

    /// Takes six bytes.
    pub fn take_six(&mut self) -> [u8; 6]
        ensures value { result ≡ six_of (first self.old) }
        ensures rest { self.new ≡ rest self.old }
    {
        match self.take_first() {
            Value::Six(bytes) => bytes,
            _ => [0; 6],
        }
    }

    /// Takes eight bytes.
    pub fn take_eight(&mut self) -> [u8; 8]
        ensures value { result ≡ eight_of (first self.old) }
        ensures rest { self.new ≡ rest self.old }
    {
        match self.take_first() {
            Value::Eight(bytes) => bytes,
            _ => [0; 8],
        }
    }

    /// Takes sixteen bytes.
    pub fn take_sixteen(&mut self) -> [u8; 16]
        ensures value { result ≡ sixteen_of (first self.old) }
        ensures rest { self.new ≡ rest self.old }
    {
        match self.take_first() {
            Value::Sixteen(bytes) => bytes,
            _ => [0; 16],
        }
    }

    /// Takes a text.
    pub fn take_text(&mut self) -> Text
        ensures value { result ≡ text_of (first self.old) }
        ensures rest { self.new ≡ rest self.old }
    {
        match self.take_first() {
            Value::Text(text) => text,
            _ => Text::new(self.alloc),
        }
    }
}
