ghost use Rattle.std.specs.Prelude.{◌≡◌, ◌+◌, ◌<◌, ◌≤◌, ◌^◌, [], ◌∷◌, length, IfOk};
ghost use Rattle.vt_outside.specs.Readings.{Agrees};
ghost use Rattle.aml_terms.specs.Paths.{is_lead_char, is_name_char};
ghost use Rattle.aml_terms.specs.Reading.{shape_at, segment_at, segments_at, counted_at, names_at, levels_up, path_at, path_from, then_at, byte_at, reported};

use crate::found::Found;
use crate::numbers::read_byte;
use aml_terms::{AmlFault, Path};
use std::alloc::Global;
use vt_outside::List;

// What begins a path at the root (ACPI 6.5, 20.2.2).
const ROOT: u8 = 0x5C;

// What begins a path a level up.
const PARENT: u8 = 0x5E;

// What stands before two segments.
const TWO_SEGMENTS: u8 = 0x2E;

// What stands before the number of segments.
const MANY_SEGMENTS: u8 = 0x2F;

const SEGMENT_SIZE: usize = 4;

/// Reads the path at the front of `text`, which begins at `place`. Its segments take their memory from `alloc`.
#[tactic(auto, unfolding(aml_terms::specs::Reading::path_at))]
pub(crate) fn read_path(alloc: Global, place: u32, text: &[u8]) -> Result<Found<Path>, AmlFault>
    requires { place + length text.now < 2 ^ 32 }
    ensures path { Agrees reported (λ found. (found.value, found.size)) result (path_at place text.now) }
    ensures within { IfOk result (λ found. found.size ≤ length text.now) }
{
    if let [ROOT, rest @ ..] = text {
        let names = read_names(alloc, place + 1, rest)?;
        return Ok(path_of(true, 0, names).behind(1));
    }
    let parents = levels_up(text);
    let beginning = usize::from(parents);
    let names = read_names(alloc, place + u32::from(parents), &text[beginning..])?;
    Ok(path_of(false, parents, names).behind(beginning))
}

// A path of these names.
fn path_of(root: bool, parents: u8, names: Found<List<[u8; 4]>>) -> Found<Path>
    ensures value { result.value ≡ path_from root parents names.value }
    ensures size { result.size ≡ names.size }
{
    Found {
        value: Path {
            root,
            parents,
            segments: names.value,
        },
        size: names.size,
    }
}

// How many levels up a path begins that doesn't begin at the root: at most 255.
fn levels_up(text: &[u8]) -> u8
    ensures parents { result ≡ levels_up text.now }
    ensures within { result ≤ length text.now }
{
    let mut parents = 0;
    for byte in text {
        if *byte != PARENT || parents == u8::MAX {
            return parents;
        }
        parents += 1;
    }
    parents
}

// Reads the segments of a path: one, two, or any number of them behind their number.
#[tactic(auto, unfolding(aml_terms::specs::Reading::names_at))]
fn read_names(alloc: Global, place: u32, text: &[u8]) -> Result<Found<List<[u8; 4]>>, AmlFault>
    requires { place + length text.now < 2 ^ 32 }
    ensures names { Agrees reported (λ found. (found.value, found.size)) result (names_at place text.now) }
    ensures within { IfOk result (λ found. found.size ≤ length text.now) }
{
    match text {
        [] => Err(AmlFault::Truncated(place)),
        [TWO_SEGMENTS, rest @ ..] => Ok(read_segments(alloc, 2, place + 1, rest)?.behind(1)),
        [MANY_SEGMENTS, rest @ ..] => Ok(read_counted(alloc, place + 1, rest)?.behind(1)),
        [..] => read_segments(alloc, 1, place, text),
    }
}

// Reads the number of segments, which isn't 0, and the segments.
#[tactic(auto, unfolding(aml_terms::specs::Reading::counted_at))]
fn read_counted(alloc: Global, place: u32, text: &[u8]) -> Result<Found<List<[u8; 4]>>, AmlFault>
    requires { place + length text.now < 2 ^ 32 }
    ensures names { Agrees reported (λ found. (found.value, found.size)) result (then_at byte_at counted_at place text.now) }
    ensures within { IfOk result (λ found. found.size ≤ length text.now) }
{
    let count = read_byte(place, text)?;
    if count == 0 {
        return Err(AmlFault::BadName(place));
    }
    Ok(read_segments(alloc, usize::from(count), place + 1, &text[1..])?.behind(1))
}

// Reads `count` segments.
fn read_segments(
    alloc: Global,
    count: usize,
    place: u32,
    text: &[u8],
) -> Result<Found<List<[u8; 4]>>, AmlFault>
    requires { place + length text.now < 2 ^ 32 }
    ensures segments { Agrees reported (λ found. (found.value, found.size)) result (segments_at count place text.now) }
    ensures within { IfOk result (λ found. found.size ≤ length text.now) }
{
    let mut segments = List::with_room(alloc, count)?;
    let mut size = 0;
    for _index in 0..count {
        segments.push(read_segment(place + size as u32, &text[size..])?)?;
        size += SEGMENT_SIZE;
    }
    Ok(Found {
        value: segments,
        size,
    })
}

// Reads a segment. Of two characters that can't stand in it the first is told.
#[tactic(auto, unfolding(aml_terms::specs::Reading::segment_at))]
fn read_segment(place: u32, text: &[u8]) -> Result<[u8; 4], AmlFault>
    requires { place + length text.now < 2 ^ 32 }
    ensures segment { Agrees reported (λ segment. (segment, 4)) result (segment_at place text.now) }
    ensures within { IfOk result (λ segment. 4 ≤ length text.now) }
{
    let lead = lead_char(place, text)?;
    let second = name_char(place + 1, &text[1..])?;
    let third = name_char(place + 2, &text[2..])?;
    let fourth = name_char(place + 3, &text[3..])?;
    Ok([lead, second, third, fourth])
}

// Reads the first character of a segment.
fn lead_char(place: u32, text: &[u8]) -> Result<u8, AmlFault>
    ensures char { Agrees reported (λ c. (c ∷ [], 1)) result (shape_at (is_lead_char ∷ []) place text.now) }
    ensures within { IfOk result (λ c. 1 ≤ length text.now) }
{
    match text {
        [] => Err(AmlFault::Truncated(place)),
        [byte @ (b'A'..=b'Z' | b'_'), ..] => Ok(*byte),
        [..] => Err(AmlFault::BadName(place)),
    }
}

// Reads a character behind the first of a segment.
fn name_char(place: u32, text: &[u8]) -> Result<u8, AmlFault>
    ensures char { Agrees reported (λ c. (c ∷ [], 1)) result (shape_at (is_name_char ∷ []) place text.now) }
    ensures within { IfOk result (λ c. 1 ≤ length text.now) }
{
    match text {
        [] => Err(AmlFault::Truncated(place)),
        [byte @ (b'A'..=b'Z' | b'_' | b'0'..=b'9'), ..] => Ok(*byte),
        [..] => Err(AmlFault::BadName(place)),
    }
}
