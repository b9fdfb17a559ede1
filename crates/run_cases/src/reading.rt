//! The lines of a file of cases.

use crate::bytes::{is_of_bytes, pad, put_line, put_over, repeat, repeat_numbered};
use crate::case::{Case, Place};
use crate::comparing::part_that_differs;
use crate::ending::{Ending, Holder, item_of, memory_of};
use crate::fault::Fault;
use crate::kept::Kept;
use crate::numbers::{Numbers, byte_of, count_of, number_of};
use crate::plan::take_entry;
use crate::running::{Ran, Rig, run};
use std::alloc::Global;
use std::mem;
use vt_outside::{Bytes, List};

// To what words and bytes belong that don't say it.
#[derive(Clone, Copy)]
enum Part {
    // of no part
    None,
    Stream(Place),
    Held,
    Plan,
    Text,
}

/// The case that is read from lines, and what is kept from the cases before.
#[derive(Drop)]
pub(crate) struct Cases {
    case: Case,
    ending: Ending,
    kept: Kept,
    /// What the run before wrote to standard output.
    before: Bytes,
    names: Vec<String>,
    /// The words that the case has told and may tell once.
    told: Vec<String>,
    part: Part,
    /// From where on the next line's bytes stand in the place of others.
    over: Option<usize>,
    /// Whether a case is begun.
    open: bool,
    line: u64,
    /// How many runs are made.
    runs: u64,
    /// The number of the run that was made last, where its case tells for which numbers it is run.
    number: Option<u32>,
}

impl Cases {
    pub(crate) fn new(alloc: Global) -> Cases {
        Cases {
            case: Case::new(alloc),
            ending: Ending::new(alloc),
            kept: Kept::new(alloc),
            before: Bytes::new(alloc),
            names: Vec::new(alloc),
            told: Vec::new(alloc),
            part: Part::None,
            over: None,
            open: false,
            line: 0,
            runs: 0,
            number: None,
        }
    }

    /// Returns how many runs are made.
    pub(crate) fn runs(&self) -> u64 {
        self.runs
    }

    /// Returns the number of the run that was made last, where its case tells for which numbers it is run.
    pub(crate) fn number(&self) -> Option<u32> {
        self.number
    }

    /// Returns the number of the line that was taken last, from 1 on.
    pub(crate) fn line(&self) -> u64 {
        self.line
    }

    /// Returns the name of the case that was begun last.
    pub(crate) fn name(&self) -> &str {
        match self.names.last() {
            Some(name) => name.as_str(),
            None => "",
        }
    }

    /// Takes a line that ends no case.
    pub(crate) fn take(&mut self, alloc: Global, line: &str) -> Result<(), Fault> {
        self.line = self.line.saturating_add(1);
        if line.is_empty() || line.starts_with('#') {
            return Ok(());
        }
        if is_of_bytes(line) {
            return self.take_bytes(alloc, line);
        }
        if self.over.is_some() {
            return Err(Fault::BadValue);
        }
        match line.split_once(' ') {
            Some((word, rest)) => self.take_word(alloc, word, Some(rest)),
            None => self.take_word(alloc, line, None),
        }
    }

    fn take_bytes(&mut self, alloc: Global, line: &str) -> Result<(), Fault> {
        let over = self.over;
        self.over = None;
        let bytes = self.bytes()?;
        match over {
            Some(place) => put_over(alloc, bytes, place, line),
            None => put_line(alloc, bytes, line),
        }
    }

    // Lends the bytes of the part.
    fn bytes(&mut self) -> Result<&mut Bytes, Fault> {
        match self.part {
            Part::Stream(place) => Ok(&mut self.case.stream(place).bytes),
            Part::Text => Ok(self.kept.last()),
            Part::Held => match self.ending.held.last_mut() {
                Some(held) => Ok(&mut held.bytes),
                None => Err(Fault::UnknownWord),
            },
            Part::None | Part::Plan => Err(Fault::UnknownWord),
        }
    }

    fn take_word(&mut self, alloc: Global, word: &str, rest: Option<&str>) -> Result<(), Fault> {
        match (word, rest) {
            ("=", Some(name)) => return self.begin_case(alloc, name),
            ("text", Some(name)) => return self.begin_text(alloc, name),
            _ => {}
        }
        if self.take_text(alloc, word, rest)? {
            return Ok(());
        }
        if !self.open {
            return Err(Fault::NoCase);
        }
        self.take_of_case(alloc, word, rest)
    }

    fn begin_case(&mut self, alloc: Global, name: &str) -> Result<(), Fault> {
        if self.open {
            return Err(Fault::NoEnd);
        }
        if self.names.iter().any(|other| other.as_str() == name) {
            return Err(Fault::NameAgain);
        }
        self.names.push(String::from_str(alloc, name)?)?;
        drop(mem::replace(&mut self.ending, Ending::new(alloc)));
        drop(mem::replace(&mut self.told, Vec::new(alloc)));
        self.part = Part::None;
        self.open = true;
        Ok(())
    }

    fn begin_text(&mut self, alloc: Global, name: &str) -> Result<(), Fault> {
        if self.open {
            return Err(Fault::NoEnd);
        }
        self.part = Part::Text;
        self.kept.keep(alloc, name, Bytes::new(alloc))
    }

    // Takes a word of a case that is begun.
    fn take_of_case(&mut self, alloc: Global, word: &str, rest: Option<&str>) -> Result<(), Fault> {
        if self.take_of_part(alloc, word, rest)? {
            return Ok(());
        }
        if is_told_once(word) {
            self.tell_once(alloc, word)?;
        }
        if self.case.take(alloc, word, rest)?
            || self.ending.take_begin(alloc, word, rest)?
            || self.ending.take_end(alloc, word, rest)?
        {
            return Ok(());
        }
        self.begin_part(alloc, word, rest)
    }

    fn tell_once(&mut self, alloc: Global, word: &str) -> Result<(), Fault> {
        if self.told.iter().any(|other| other.as_str() == word) {
            return Err(Fault::ToldTwice);
        }
        self.told.push(String::from_str(alloc, word)?)?;
        Ok(())
    }

    // Begins a part of the case.
    fn begin_part(&mut self, alloc: Global, word: &str, rest: Option<&str>) -> Result<(), Fault> {
        match (word, rest) {
            ("input", None) => self.begin_stream(alloc, Place::Input),
            ("output", None) => self.begin_stream(alloc, Place::Output),
            ("says", None) => self.begin_stream(alloc, Place::Says),
            ("item", Some(selector)) => return self.hold(alloc, item_of(selector)?),
            ("memory", Some(address)) => return self.hold(alloc, memory_of(address)?),
            ("plan", None) => {
                self.part = Part::Plan;
                self.ending.plan = Some(List::new(alloc));
            }
            _ => return Err(Fault::UnknownWord),
        }
        Ok(())
    }

    fn begin_stream(&mut self, alloc: Global, place: Place) {
        self.part = Part::Stream(place);
        self.case.begin(alloc, place);
    }

    fn hold(&mut self, alloc: Global, holder: Holder) -> Result<(), Fault> {
        self.part = Part::Held;
        self.ending.hold(alloc, holder)
    }

    // Takes a word of the part, or tells that it is none.
    fn take_of_part(
        &mut self,
        alloc: Global,
        word: &str,
        rest: Option<&str>,
    ) -> Result<bool, Fault> {
        match self.part {
            Part::Stream(place) => self.case.stream(place).take(alloc, word, rest),
            Part::Plan => match &mut self.ending.plan {
                Some(entries) => take_entry(alloc, entries, word, rest),
                None => Ok(false),
            },
            _ => Ok(false),
        }
    }

    // Takes a word that tells bytes, or tells that it is none.
    fn take_text(&mut self, alloc: Global, word: &str, rest: Option<&str>) -> Result<bool, Fault> {
        match (word, rest) {
            ("keep", Some(name)) => self.keep(alloc, name)?,
            ("take", Some(told)) => self.take_kept(alloc, told)?,
            ("before", None) => self.take_before()?,
            ("over", Some(place)) => self.over = Some(count_of(place)?),
            ("pad", Some(told)) => put_padding(alloc, self.bytes()?, told)?,
            ("repeat", Some(told)) => put_repeated(self.bytes()?, told)?,
            _ => return Ok(false),
        }
        Ok(true)
    }

    fn keep(&mut self, alloc: Global, name: &str) -> Result<(), Fault> {
        let bytes = self.bytes()?.copy()?;
        self.kept.keep(alloc, name, bytes)
    }

    fn take_before(&mut self) -> Result<(), Fault> {
        let copy = self.before.copy()?;
        let put = self.put(copy.as_slice());
        drop(copy);
        put
    }

    fn put(&mut self, bytes: &[u8]) -> Result<(), Fault> {
        Ok(self.bytes()?.extend(bytes)?)
    }

    // Takes what is kept under a name, as often as is told.
    fn take_kept(&mut self, alloc: Global, told: &str) -> Result<(), Fault> {
        let (name, times) = match told.split_once(' ') {
            Some((name, times)) => (name, Some(times)),
            None => (told, None),
        };
        let copy = self.kept.copy_of(name)?;
        let put = self.put_times(alloc, copy.as_slice(), times);
        drop(copy);
        put
    }

    fn put_times(&mut self, alloc: Global, piece: &[u8], times: Option<&str>) -> Result<(), Fault> {
        let Some(told) = times else {
            return self.put(piece);
        };
        match told.split_once(' ') {
            None => repeat(self.bytes()?, piece, count_of(told)?),
            Some((times, first)) => repeat_numbered(
                alloc,
                self.bytes()?,
                piece,
                number_of(times)?,
                number_of(first)?,
            ),
        }
    }

    /// Ends the case: makes its runs, up to the first one that ends otherwise than the case tells, and returns the part that is otherwise.
    pub(crate) fn end(
        &mut self,
        alloc: Global,
        rig: &mut Rig,
    ) -> Result<Option<&'static str>, Fault> {
        self.line = self.line.saturating_add(1);
        if !self.open {
            return Err(Fault::NoCase);
        }
        if self.over.is_some() {
            return Err(Fault::BadValue);
        }
        self.open = false;
        self.part = Part::None;
        match self.ending.each {
            Some(numbers) => self.make_runs(alloc, numbers, rig),
            None => self.make_run(alloc, None, rig),
        }
    }

    fn make_runs(
        &mut self,
        alloc: Global,
        numbers: Numbers,
        rig: &mut Rig,
    ) -> Result<Option<&'static str>, Fault> {
        for place in 0..numbers.count {
            let number = Some(numbers.number(place));
            if let Some(part) = self.make_run(alloc, number, rig)? {
                return Ok(Some(part));
            }
        }
        Ok(None)
    }

    fn make_run(
        &mut self,
        alloc: Global,
        number: Option<u32>,
        rig: &mut Rig,
    ) -> Result<Option<&'static str>, Fault> {
        self.runs = self.runs.saturating_add(1);
        self.number = number;
        let ran = run(alloc, &self.case, &self.ending, number.unwrap_or(0), rig)?;
        let part = part_that_differs(alloc, &self.case, &self.ending, &ran, &rig.world);
        let kept = self.keep_output(alloc, &ran);
        drop(ran);
        kept?;
        Ok(part?)
    }

    fn keep_output(&mut self, alloc: Global, ran: &Ran) -> Result<(), Fault> {
        drop(mem::replace(&mut self.before, Bytes::new(alloc)));
        Ok(self.before.extend(ran.out.taken())?)
    }

    /// Ends the file: the last case has its end.
    pub(crate) fn end_file(&self) -> Result<(), Fault> {
        if self.open || self.over.is_some() {
            return Err(Fault::NoEnd);
        }
        Ok(())
    }
}

// Whether a case may tell a word but once.
fn is_told_once(word: &str) -> bool {
    matches!(
        word,
        "words"
            | "status"
            | "again"
            | "places"
            | "refuses"
            | "each"
            | "plan"
            | "state"
            | "fault"
            | "top"
            | "touched"
    )
}

// Behind `pad`: up to how many bytes, and which byte, 0 where it isn't told.
fn put_padding(alloc: Global, bytes: &mut Bytes, told: &str) -> Result<(), Fault> {
    match told.split_once(' ') {
        None => pad(alloc, bytes, count_of(told)?, 0),
        Some((count, byte)) => pad(alloc, bytes, count_of(count)?, byte_of(byte)?),
    }
}

// Behind `repeat`: how often, and the text.
fn put_repeated(bytes: &mut Bytes, told: &str) -> Result<(), Fault> {
    let (times, text) = told.split_once(' ').ok_or(Fault::BadValue)?;
    repeat(bytes, text.as_bytes(), count_of(times)?)
}
