//! What a case tells of its run for itself alone: the world and the places in which it is made, its plan, and the world at its end.

use crate::fault::Fault;
use crate::numbers::{Numbers, address_of, each_of, number_of, numbers_of};
use crate::plan::Entry;
use cfg_dma::{Finished, Kind};
use std::alloc::Global;
use vt_outside::{Bytes, List};

/// Where bytes are held at the end.
#[derive(Clone, Copy)]
pub(crate) enum Holder {
    /// An item of the device.
    Item(u16),
    /// The guest's memory, from an address on.
    Memory(u64),
}

/// Bytes that are held at the end.
#[derive(Drop)]
pub(crate) struct Held {
    pub(crate) holder: Holder,
    pub(crate) bytes: Bytes,
}

/// What a case tells for itself alone.
#[derive(Drop)]
pub(crate) struct Ending {
    pub(crate) again: bool,
    pub(crate) places: bool,
    pub(crate) refuses: List<u32>,
    /// For which numbers the run is made.
    pub(crate) each: Option<Numbers>,
    pub(crate) plan: Option<List<Entry>>,
    pub(crate) state: Option<String>,
    pub(crate) fault: Option<String>,
    pub(crate) top: Option<u64>,
    pub(crate) touched: Option<List<u32>>,
    /// The last transfers.
    pub(crate) finished: List<Finished>,
    pub(crate) held: Vec<Held>,
}

impl Ending {
    pub(crate) fn new(alloc: Global) -> Ending {
        Ending {
            again: false,
            places: false,
            refuses: List::new(alloc),
            each: None,
            plan: None,
            state: None,
            fault: None,
            top: None,
            touched: None,
            finished: List::new(alloc),
            held: Vec::new(alloc),
        }
    }

    /// Takes a word of how the run is made, or tells that it is none.
    pub(crate) fn take_begin(
        &mut self,
        alloc: Global,
        word: &str,
        rest: Option<&str>,
    ) -> Result<bool, Fault> {
        match (word, rest) {
            ("again", None) => self.again = true,
            ("places", None) => self.places = true,
            ("refuses", Some(calls)) => self.refuses = numbers_of(alloc, calls)?,
            ("each", Some(numbers)) => self.each = Some(each_of(numbers)?),
            _ => return Ok(false),
        }
        Ok(true)
    }

    /// Takes a word of how the run ends, or tells that it is none.
    pub(crate) fn take_end(
        &mut self,
        alloc: Global,
        word: &str,
        rest: Option<&str>,
    ) -> Result<bool, Fault> {
        match (word, rest) {
            ("state", Some(state)) => self.state = Some(state_of(alloc, state)?),
            ("fault", Some(fault)) => self.fault = Some(String::from_str(alloc, fault)?),
            ("top", Some(digits)) => self.top = Some(address_of(digits)?),
            ("touched", Some(frames)) => self.touched = Some(numbers_of(alloc, frames)?),
            ("finished", Some(transfer)) => self.finished.push(finished_of(transfer)?)?,
            _ => return Ok(false),
        }
        Ok(true)
    }

    /// Begins bytes that are held at the end.
    pub(crate) fn hold(&mut self, alloc: Global, holder: Holder) -> Result<(), Fault> {
        self.held.push(Held {
            holder,
            bytes: Bytes::new(alloc),
        })?;
        Ok(())
    }
}

/// The item of the device that a word tells.
pub(crate) fn item_of(text: &str) -> Result<Holder, Fault> {
    let select = text.parse::<u16>().map_err(|_| Fault::BadValue)?;
    Ok(Holder::Item(select))
}

/// The place in memory that a word tells.
pub(crate) fn memory_of(text: &str) -> Result<Holder, Fault> {
    Ok(Holder::Memory(address_of(text)?))
}

fn state_of(alloc: Global, word: &str) -> Result<String, Fault> {
    match word {
        "idle" | "running" | "done" | "refused" => Ok(String::from_str(alloc, word)?),
        _ => Err(Fault::BadValue),
    }
}

// A transfer: its kind, the selector of its item, the offset there, its length, its address in memory, and whether it failed.
fn finished_of(text: &str) -> Result<Finished, Fault> {
    let (text, error) = match text.strip_suffix(" error") {
        Some(front) => (front, true),
        None => (text, false),
    };
    let (kind, text) = text.split_once(' ').ok_or(Fault::BadValue)?;
    let (select, text) = text.split_once(' ').ok_or(Fault::BadValue)?;
    let (offset, text) = text.split_once(' ').ok_or(Fault::BadValue)?;
    let (length, address) = text.split_once(' ').ok_or(Fault::BadValue)?;
    Ok(Finished {
        kind: kind_of(kind)?,
        select: select.parse::<u16>().map_err(|_| Fault::BadValue)?,
        offset: number_of(offset)?,
        length: number_of(length)?,
        address: address_of(address)?,
        error,
    })
}

fn kind_of(word: &str) -> Result<Kind, Fault> {
    match word {
        "read" => Ok(Kind::Read),
        "write" => Ok(Kind::Write),
        "skip" => Ok(Kind::Skip),
        "nothing" => Ok(Kind::Nothing),
        _ => Err(Fault::BadValue),
    }
}
