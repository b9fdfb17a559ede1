//! Values taken out as what a record wants. A value of another kind than is wanted is the empty text, 0, false or none: a walk gives
//! none where the record's positions are the schema's, so that a record tests nothing and has no fault of its own.

ghost use Rattle.std.specs.Prelude.{◌≡◌, ◌≤◌, IfSome};
ghost use Rattle.desc_schema.specs.Taken.{first, rest, text_of, number_to, number_if, flag_of, uuid_if, word_of, count_of};

use crate::value::{Value, Values};
use std::alloc::Global;
use vt_outside::Text;

impl Values {
    /// Takes the first value out as a text. `alloc` is kept by an empty text, which takes no memory.
    pub fn take_text(&mut self, alloc: Global) -> Text
        ensures value { result ≡ text_of (first self.old) }
        ensures rest { self.new ≡ rest self.old }
    {
        match self.take_first() {
            Value::Text(text) => text,
            _ => Text::new(alloc),
        }
    }

    /// Takes the first value out as a number of at most `most`; a greater one is taken as 0.
    pub fn take_number(&mut self, most: u64) -> u64
        ensures value { result ≡ number_to most (first self.old) }
        ensures within { result ≤ most }
        ensures rest { self.new ≡ rest self.old }
    {
        match self.take_first() {
            Value::Number(number) if number <= most => number,
            _ => 0,
        }
    }

    /// Takes the first value out as a number of at most `most`, or as none: of a key that is optional. A greater one is taken as
    /// none.
    pub fn take_optional_number(&mut self, most: u64) -> Option<u64>
        ensures value { result ≡ number_if most (first self.old) }
        ensures within { IfSome result (λ number. number ≤ most) }
        ensures rest { self.new ≡ rest self.old }
    {
        match self.take_first() {
            Value::Number(number) if number <= most => Some(number),
            _ => None,
        }
    }

    /// Takes the first value out as a boolean.
    pub fn take_flag(&mut self) -> bool
        ensures value { result ≡ flag_of (first self.old) }
        ensures rest { self.new ≡ rest self.old }
    {
        match self.take_first() {
            Value::Flag(flag) => flag,
            _ => false,
        }
    }

    /// Takes the first value out as a UUID, or as none: of a key that is optional.
    pub fn take_uuid(&mut self) -> Option<u128>
        ensures value { result ≡ uuid_if (first self.old) }
        ensures rest { self.new ≡ rest self.old }
    {
        match self.take_first() {
            Value::Uuid(uuid) => Some(uuid),
            _ => None,
        }
    }

    /// Takes the first value out as a word's place among its key's words.
    pub fn take_word(&mut self) -> usize
        ensures value { result ≡ word_of (first self.old) }
        ensures rest { self.new ≡ rest self.old }
    {
        match self.take_first() {
            Value::Word(place) => place,
            _ => 0,
        }
    }

    /// Takes the first value out as how many tables, or single values, follow.
    pub fn take_count(&mut self) -> usize
        ensures value { result ≡ count_of (first self.old) }
        ensures rest { self.new ≡ rest self.old }
    {
        match self.take_first() {
            Value::Count(count) => count,
            _ => 0,
        }
    }
}
