//! A case: the run of the top call, and how its streams are to end.

use crate::fault::Fault;
use crate::numbers::{address_of, byte_of, count_of, numbers_of};
use hex::decode;
use std::alloc::Global;
use std::{mem, str};
use vt_outside::{Bytes, List};

/// How many bytes a stream has room for, where a case doesn't tell.
const ROOM: usize = 65_536;

/// Which stream of a run it is.
#[derive(Clone, Copy, PartialEq, Eq)]
pub(crate) enum Place {
    Input,
    Output,
    Says,
}

/// How many bytes are written, and their hash.
#[derive(Clone, Copy, PartialEq, Eq)]
pub(crate) struct Hashed {
    pub(crate) count: usize,
    pub(crate) hash: u64,
}

/// A stream of a case: what an input has, or what an output is to take.
#[derive(Drop)]
pub(crate) struct Stream {
    place: Place,
    pub(crate) bytes: Bytes,
    /// How many bytes a read gives at most, or for how many there is room.
    pub(crate) room: usize,
    /// The calls that fail, from 0 on.
    pub(crate) fails: List<u32>,
    /// The byte that comes without end behind all others.
    pub(crate) endless: Option<u8>,
    /// How many bytes aren't read.
    pub(crate) left: Option<usize>,
    pub(crate) flush_fails: bool,
    /// What is compared in place of the bytes.
    pub(crate) hashed: Option<Hashed>,
    /// Whether the tables of TOML are compared that both texts are, and not their bytes.
    pub(crate) toml: bool,
    /// Whether the bytes are only those with which it begins.
    pub(crate) begins: bool,
    /// Whether nothing is compared.
    pub(crate) any: bool,
}

impl Stream {
    pub(crate) fn new(alloc: Global, place: Place) -> Stream {
        Stream {
            place,
            bytes: Bytes::new(alloc),
            room: ROOM,
            fails: List::new(alloc),
            endless: None,
            left: None,
            flush_fails: false,
            hashed: None,
            toml: false,
            begins: false,
            any: false,
        }
    }

    /// Takes a word of a stream, or tells that it is none.
    pub(crate) fn take(
        &mut self,
        alloc: Global,
        word: &str,
        rest: Option<&str>,
    ) -> Result<bool, Fault> {
        match (word, rest) {
            ("room", Some(count)) => self.room = count_of(count)?,
            ("fails", Some(calls)) => self.fails = numbers_of(alloc, calls)?,
            _ => match self.place {
                Place::Input => return self.take_of_input(word, rest),
                Place::Output => return self.take_of_output(word, rest),
                Place::Says => return Ok(false),
            },
        }
        Ok(true)
    }

    fn take_of_input(&mut self, word: &str, rest: Option<&str>) -> Result<bool, Fault> {
        match (word, rest) {
            ("endless", Some(digits)) => self.endless = Some(byte_of(digits)?),
            ("left", Some(count)) => self.left = Some(count_of(count)?),
            _ => return Ok(false),
        }
        Ok(true)
    }

    fn take_of_output(&mut self, word: &str, rest: Option<&str>) -> Result<bool, Fault> {
        match (word, rest) {
            ("flush", Some("fails")) => self.flush_fails = true,
            ("hash", Some(told)) => self.hashed = Some(hashed_of(told)?),
            ("toml", None) => self.toml = true,
            ("begins", None) => self.begins = true,
            ("any", None) => self.any = true,
            _ => return Ok(false),
        }
        Ok(true)
    }
}

fn hashed_of(text: &str) -> Result<Hashed, Fault> {
    let (count, hash) = text.split_once(' ').ok_or(Fault::BadValue)?;
    Ok(Hashed {
        count: count_of(count)?,
        hash: address_of(hash)?,
    })
}

/// The run that a case tells, and the status and the streams that it is to have.
#[derive(Drop)]
pub(crate) struct Case {
    pub(crate) words: Vec<String>,
    pub(crate) status: u8,
    pub(crate) input: Stream,
    pub(crate) output: Stream,
    pub(crate) says: Stream,
}

impl Case {
    pub(crate) fn new(alloc: Global) -> Case {
        Case {
            words: Vec::new(alloc),
            status: 0,
            input: Stream::new(alloc, Place::Input),
            output: Stream::new(alloc, Place::Output),
            says: Stream::new(alloc, Place::Says),
        }
    }

    /// Takes a word of the call, or tells that it is none.
    pub(crate) fn take(
        &mut self,
        alloc: Global,
        word: &str,
        rest: Option<&str>,
    ) -> Result<bool, Fault> {
        match (word, rest) {
            ("words", None) => self.set_words(Vec::new(alloc)),
            ("words", Some(words)) => self.set_words(words_of(alloc, words)?),
            ("word", _) => self.add_word(alloc, rest.unwrap_or(""))?,
            ("wordx", Some(digits)) => self.add_digits(alloc, digits)?,
            ("status", Some(number)) => {
                self.status = number.parse::<u8>().map_err(|_| Fault::BadValue)?;
            }
            _ => return Ok(false),
        }
        Ok(true)
    }

    fn set_words(&mut self, words: Vec<String>) {
        drop(mem::replace(&mut self.words, words));
    }

    fn add_word(&mut self, alloc: Global, word: &str) -> Result<(), Fault> {
        self.words.push(String::from_str(alloc, word)?)?;
        Ok(())
    }

    fn add_digits(&mut self, alloc: Global, digits: &str) -> Result<(), Fault> {
        let bytes = decode(alloc, digits).map_err(|_| Fault::BadValue)?;
        let word = str::from_utf8(bytes.as_slice()).map_err(|_| Fault::BadValue)?;
        self.add_word(alloc, word)
    }

    /// Lends one of the streams.
    pub(crate) fn stream(&mut self, place: Place) -> &mut Stream {
        match place {
            Place::Input => &mut self.input,
            Place::Output => &mut self.output,
            Place::Says => &mut self.says,
        }
    }

    /// Begins one of the streams.
    pub(crate) fn begin(&mut self, alloc: Global, place: Place) {
        drop(mem::replace(self.stream(place), Stream::new(alloc, place)));
    }
}

fn words_of(alloc: Global, line: &str) -> Result<Vec<String>, Fault> {
    let mut words = Vec::new(alloc);
    for word in line.split(' ') {
        words.push(String::from_str(alloc, word)?)?;
    }
    Ok(words)
}
