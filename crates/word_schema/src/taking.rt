//! Values taken out as what a record wants. A value of another kind than is wanted is false or 0: a walk gives none where the record's
//! positions are the schema's, so that a record tests nothing.

ghost use Rattle.std.specs.Prelude.{◌≡◌, ◌≤◌};
ghost use Rattle.word_schema.specs.Taken.{first, rest, flag_of, number_to, place_in};

use crate::value::{Value, Values};

impl Values {
    /// Takes the first value out as whether a flag is given.
    pub fn take_flag(&mut self) -> bool
        ensures value { result ≡ flag_of (first self.old) }
        ensures rest { self.new ≡ rest self.old }
    {
        match self.take_first() {
            Value::Flag(flag) => flag,
            _ => false,
        }
    }

    /// Takes the first value out as a number of at most `most`; a greater one is taken as 0.
    pub fn take_number(&mut self, most: u64) -> u64
        ensures value { result ≡ number_to most (first self.old) }
        ensures within { result ≤ most }
        ensures rest { self.new ≡ rest self.old }
    {
        match self.take_first() {
            Value::Number(number) if number <= most => number,
            _ => 0,
        }
    }

    /// Takes the first value out as a word's place among the words of its set.
    pub fn take_word(&mut self) -> usize
        ensures value { result ≡ place_in (first self.old) }
        ensures rest { self.new ≡ rest self.old }
    {
        match self.take_first() {
            Value::Word(place) => place,
            _ => 0,
        }
    }
}
