//! A piece of a container, taken part by part: each part takes what it lacks, and is judged once it is whole.

ghost use Rattle.std.specs.Prelude.{◌≡◌, ◌+◌, ◌*◌, ◌<◌, ◌≤◌, [], ◌++◌, length, IfOk, IfErr};
ghost use Rattle.cfg_directory.specs.Held.{HasCount, HasListed, Gathers, KeepsHeld, IsTaken, IsTakenAt, bytes_of};

use crate::container::ImageFault;
use crate::filling::fill_next;
use crate::held::{Held, Stage};
use crate::listing::ENTRY_SIZE;
use crate::opening::{opened_items, read_entries};
use std::alloc::Global;
use vt_bytes::get_be;

// How many bytes say how many files there are.
const COUNT_SIZE: usize = 4;

// How many files there may be.
const FILE_LIMIT: u64 = 1024;

/// Takes a piece, by how far the reader is.
pub(crate) fn take_piece(
    alloc: Global,
    held: &mut Held,
    stage: Stage,
    piece: &[u8],
) -> Result<Stage, ImageFault>
    requires { KeepsHeld stage held.old }
    ensures { IsTakenAt stage (bytes_of held.old ++ piece.now) held.new result }
{
    match stage {
        Stage::Count => take_count(alloc, held, piece),
        Stage::Entries(count) => take_entries(alloc, held, count, piece),
        Stage::Flags(count) => take_flags(alloc, held, count, piece),
        Stage::Contents => take_contents(held, piece),
        Stage::Refused(fault) => Err(fault),
    }
}

// Takes what lacks to the number of files, and what follows it.
fn take_count(alloc: Global, held: &mut Held, piece: &[u8]) -> Result<Stage, ImageFault>
    requires short { length held.old.head < 4 }
    requires none { held.old.items ≡ [] }
    ensures { IsTaken (bytes_of held.old ++ piece.now) held.new result }
{
    let left = held.head.fill(COUNT_SIZE, piece);
    if held.head.len() < COUNT_SIZE {
        return Ok(Stage::Count);
    }
    let count = get_be(held.head.as_slice(), 0, COUNT_SIZE);
    if count > FILE_LIMIT {
        return Err(ImageFault::TooMany);
    }
    take_entries(alloc, held, count as u32, left)
}

// Takes what lacks to the entries, and what follows them.
fn take_entries(
    alloc: Global,
    held: &mut Held,
    count: u32,
    piece: &[u8],
) -> Result<Stage, ImageFault>
    requires counted { HasCount held.old.head count }
    requires within { length held.old.head ≤ 4 + 64 * count }
    requires none { held.old.items ≡ [] }
    ensures { IsTaken (bytes_of held.old ++ piece.now) held.new result }
{
    let size = COUNT_SIZE + ENTRY_SIZE * count as usize;
    let left = held.head.fill(size, piece);
    if held.head.len() < size {
        return Ok(Stage::Entries(count));
    }
    held.listed = read_entries(alloc, count, held.head.as_slice())?;
    take_flags(alloc, held, count, left)
}

// Takes what lacks to the flags, and what follows them.
fn take_flags(alloc: Global, held: &mut Held, count: u32, piece: &[u8]) -> Result<Stage, ImageFault>
    requires listed { HasListed held.old.head count held.old.listed }
    requires within { length held.old.head ≤ 4 + 65 * count }
    requires none { held.old.items ≡ [] }
    ensures { IsTaken (bytes_of held.old ++ piece.now) held.new result }
{
    let size = COUNT_SIZE + (ENTRY_SIZE + 1) * count as usize;
    let left = held.head.fill(size, piece);
    if held.head.len() < size {
        return Ok(Stage::Flags(count));
    }
    held.items = opened_items(alloc, count, held.head.as_slice(), held.listed.as_slice())?;
    held.next = 0;
    take_contents(held, left)
}

// Takes the bytes of the files, one file after the other. No byte may be left.
fn take_contents(held: &mut Held, piece: &[u8]) -> Result<Stage, ImageFault>
    requires { Gathers held.old }
    ensures { IsTaken (bytes_of held.old ++ piece.now) held.new result }
{
    let mut left = piece;
    while held.next < held.listed.len() {
        let place = held.next;
        left = fill_next(held, left)?;
        if held.next == place {
            return Ok(Stage::Contents);
        }
    }
    if !left.is_empty() {
        return Err(ImageFault::TrailingBytes);
    }
    Ok(Stage::Contents)
}
