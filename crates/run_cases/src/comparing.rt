//! Which part of a run is otherwise than its case tells.

use crate::case::{Case, Hashed, Stream};
use crate::ending::{Ending, Held, Holder};
use crate::running::Ran;
use cfg_dma::Finished;
use guest_memory::GuestMemory;
use std::alloc::{AllocError, Global};
use std::str;
use toml::Table;
use vmtables::{State, World};
use vt_outside::List;

/// How many frames of the memory may be touched: those of the first MiB, and those of the 32 MiB that end at the top.
const FRAMES: u32 = 8448;

/// Returns the first part of a run that is otherwise than its case tells, or `None`.
pub(crate) fn part_that_differs(
    alloc: Global,
    case: &Case,
    ending: &Ending,
    ran: &Ran,
    world: &World,
) -> Result<Option<&'static str>, AllocError> {
    if let Some(part) = stream_that_differs(alloc, case, ran) {
        return Ok(Some(part));
    }
    if let Some(part) = state_that_differs(alloc, ending, world)? {
        return Ok(Some(part));
    }
    Ok(seen_that_differs(ending, world))
}

fn stream_that_differs(alloc: Global, case: &Case, ran: &Ran) -> Option<&'static str> {
    if ran.status != case.status {
        return Some("status");
    }
    if !is_taken(alloc, &case.output, ran.out.taken()) {
        return Some("standard output");
    }
    if !is_taken(alloc, &case.says, ran.say.taken()) {
        return Some("standard error");
    }
    match case.input.left {
        Some(left) if left != ran.source.left() => Some("the rest of the input"),
        _ => None,
    }
}

// Whether a stream took what it is to take.
fn is_taken(alloc: Global, stream: &Stream, taken: &[u8]) -> bool {
    if stream.any {
        return true;
    }
    if stream.toml {
        return are_one_table(alloc, taken, stream.bytes.as_slice());
    }
    if stream.begins {
        return taken.starts_with(stream.bytes.as_slice());
    }
    match stream.hashed {
        Some(hashed) => hashed_of(taken) == hashed,
        None => taken == stream.bytes.as_slice(),
    }
}

// Whether two texts are TOML, and of the same table.
fn are_one_table(alloc: Global, one: &[u8], other: &[u8]) -> bool {
    match (table_of(alloc, one), table_of(alloc, other)) {
        (Some(one), Some(other)) => is_same(one, other),
        (one, other) => {
            drop(one);
            drop(other);
            false
        }
    }
}

fn is_same(one: Table, other: Table) -> bool {
    let same = one == other;
    drop(one);
    drop(other);
    same
}

fn table_of(alloc: Global, text: &[u8]) -> Option<Table> {
    let text = str::from_utf8(text).ok()?;
    toml::table_from_str(alloc, text).ok()
}

// How many bytes there are, and their hash, which is FNV-1a of 64 bits.
fn hashed_of(bytes: &[u8]) -> Hashed {
    let mut hash = 0xCBF2_9CE4_8422_2325u64;
    for byte in bytes {
        hash = (hash ^ u64::from(*byte)).wrapping_mul(0x100_0000_01B3);
    }
    Hashed {
        count: bytes.len(),
        hash,
    }
}

fn state_that_differs(
    alloc: Global,
    ending: &Ending,
    world: &World,
) -> Result<Option<&'static str>, AllocError> {
    if let Some(state) = &ending.state
        && state.as_str() != state_word(world)
    {
        return Ok(Some("state"));
    }
    if let Some(fault) = &ending.fault {
        if !is_refused_for(alloc, world, fault.as_str())? {
            return Ok(Some("fault"));
        }
    }
    Ok(None)
}

fn state_word(world: &World) -> &'static str {
    match world.state() {
        State::Idle => "idle",
        State::Running => "running",
        State::Done => "done",
        State::Refused(_) => "refused",
    }
}

fn is_refused_for(alloc: Global, world: &World, text: &str) -> Result<bool, AllocError> {
    match world.state() {
        State::Refused(fault) => {
            let told = format!(in alloc; "{fault:?}")?;
            Ok(told.as_str() == text)
        }
        _ => Ok(false),
    }
}

fn seen_that_differs(ending: &Ending, world: &World) -> Option<&'static str> {
    if !ending.finished.as_slice().is_empty() && !are_last(world, ending.finished.as_slice()) {
        return Some("transfers");
    }
    if let Some(frames) = &ending.touched
        && !are_touched(world, frames)
    {
        return Some("touched frames");
    }
    match ending.top {
        Some(top) if !is_top(world, top) => return Some("top"),
        _ => {}
    }
    for held in &ending.held {
        if let Some(part) = held_that_differs(world, held) {
            return Some(part);
        }
    }
    None
}

// The memory, of a load that has ended.
fn memory_of(world: &World) -> Option<&GuestMemory> {
    match world.state() {
        State::Done | State::Refused(_) => Some(world.memory()),
        _ => None,
    }
}

fn is_top(world: &World, top: u64) -> bool {
    match memory_of(world) {
        Some(memory) => u64::from(memory.top()) == top,
        None => false,
    }
}

fn are_touched(world: &World, frames: &List<u32>) -> bool {
    match memory_of(world) {
        Some(memory) => are_touched_in(memory, frames.as_slice()),
        None => false,
    }
}

fn are_touched_in(memory: &GuestMemory, frames: &[u32]) -> bool {
    for frame in 0..FRAMES {
        if memory.touched(frame) != frames.contains(&frame) {
            return false;
        }
    }
    true
}

// Whether these are the last transfers of the device.
fn are_last(world: &World, transfers: &[Finished]) -> bool {
    match world.state() {
        State::Done => ends_with(world.device().finished(), transfers),
        _ => false,
    }
}

fn ends_with(all: &[Finished], last: &[Finished]) -> bool {
    match all.len().checked_sub(last.len()) {
        Some(front) => &all[front..] == last,
        None => false,
    }
}

fn held_that_differs(world: &World, held: &Held) -> Option<&'static str> {
    match held.holder {
        Holder::Item(select) if !holds_item(world, select, held.bytes.as_slice()) => Some("item"),
        Holder::Memory(address) if !holds_at(world, address, held.bytes.as_slice()) => {
            Some("memory")
        }
        _ => None,
    }
}

fn holds_item(world: &World, select: u16, bytes: &[u8]) -> bool {
    match world.state() {
        State::Done => match world.device().item(select) {
            Some(item) => item.bytes.as_slice() == bytes,
            None => false,
        },
        _ => false,
    }
}

fn holds_at(world: &World, address: u64, bytes: &[u8]) -> bool {
    match memory_of(world) {
        Some(memory) => holds_in(memory, address, bytes),
        None => false,
    }
}

fn holds_in(memory: &GuestMemory, address: u64, bytes: &[u8]) -> bool {
    let mut at = address;
    for byte in bytes {
        if !memory.is_ram(at) || memory.read(at) != *byte {
            return false;
        }
        at = at.saturating_add(1);
    }
    true
}
