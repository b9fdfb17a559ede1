//! The events of a plan.

use crate::fault::Fault;
use crate::numbers::{address_of, byte_of, count_of, number_of};
use firmware_load::Event;
use std::alloc::Global;
use vt_outside::{List, OutOfMemory};

/// What a line of a plan tells.
#[derive(Clone, Copy)]
pub(crate) enum Entry {
    One(Event),
    /// So many events, a step of the firmware and a piece of so many bytes in turn. Where no count is told, it is the number of the run.
    Turns { count: Option<u32>, bytes: u32 },
}

/// Adds the entries that a word tells to those of a plan, or tells that it is no word of a plan.
pub(crate) fn take_entry(
    alloc: Global,
    entries: &mut List<Entry>,
    word: &str,
    rest: Option<&str>,
) -> Result<bool, Fault> {
    match (word, rest) {
        ("turns", Some(told)) => entries.push(turns_of(told)?)?,
        ("times", Some(count)) => repeat(alloc, entries, count_of(count)?)?,
        _ => match event_of(word, rest)? {
            Some(event) => entries.push(Entry::One(event))?,
            None => return Ok(false),
        },
    }
    Ok(true)
}

fn event_of(word: &str, rest: Option<&str>) -> Result<Option<Event>, Fault> {
    Ok(Some(match (word, rest) {
        ("firmware", None) => Event::Firmware,
        ("device", Some(count)) => Event::Device(number_of(count)?),
        ("other", Some(write)) => write_of(write)?,
        ("reset", None) => Event::Reset,
        _ => return Ok(None),
    }))
}

fn write_of(text: &str) -> Result<Event, Fault> {
    let (address, byte) = text.split_once(' ').ok_or(Fault::BadValue)?;
    Ok(Event::Other {
        addr: address_of(address)?,
        byte: byte_of(byte)?,
    })
}

fn turns_of(text: &str) -> Result<Entry, Fault> {
    let (count, bytes) = text.split_once(' ').ok_or(Fault::BadValue)?;
    let count = match count {
        "each" => None,
        _ => Some(number_of(count)?),
    };
    Ok(Entry::Turns {
        count,
        bytes: number_of(bytes)?,
    })
}

// The entries so many times over.
fn repeat(alloc: Global, entries: &mut List<Entry>, times: usize) -> Result<(), Fault> {
    let mut all = List::new(alloc);
    for _ in 0..times {
        all.extend(entries.as_slice())?;
    }
    *entries = all;
    Ok(())
}

/// The events that entries tell, in the run of a number.
pub(crate) fn events_of(
    alloc: Global,
    entries: &[Entry],
    number: u32,
) -> Result<List<Event>, OutOfMemory> {
    let mut events = List::new(alloc);
    for entry in entries {
        put_entry(&mut events, *entry, number)?;
    }
    Ok(events)
}

fn put_entry(events: &mut List<Event>, entry: Entry, number: u32) -> Result<(), OutOfMemory> {
    match entry {
        Entry::One(event) => events.push(event),
        Entry::Turns { count, bytes } => put_turns(events, count.unwrap_or(number), bytes),
    }
}

fn put_turns(events: &mut List<Event>, count: u32, bytes: u32) -> Result<(), OutOfMemory> {
    for place in 0..count {
        events.push(turn(place, bytes))?;
    }
    Ok(())
}

fn turn(place: u32, bytes: u32) -> Event {
    if place % 2 == 0 {
        Event::Firmware
    } else {
        Event::Device(bytes)
    }
}
