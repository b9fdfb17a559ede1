ghost use Rattle.std.specs.Prelude.{◌≡◌, ◌+◌, ◌<◌, ◌≤◌, ◌^◌, List, [], ◌∷◌, ◌++◌, length, nat_lt, Ok, Err, IfOk, IfErr, OnOk, if◌then◌else◌};
ghost use Rattle.std.specs.List.{prefix_len};
ghost use Rattle.vt_outside.specs.Readings.{Agrees};
ghost use Rattle.aml_terms.specs.Trees.{Tree, int, chars, buffer, pack, trees_of, view, views};
ghost use Rattle.aml_terms.specs.Reading.{enclosed_at, made_at, integer_behind, chars_at, buffer_in, package_in, value_behind, value_at, all_in, reported};
ghost use Rattle.aml_decode.specs.Chars.{is_char};
ghost use Rattle.aml_decode.specs.Kept.{IsKept};
ghost use Rattle.aml_decode.specs.Rooms.{buffer_at, package_at};
ghost use Rattle.aml_decode.specs.Widths.{IsWide};

use crate::found::Found;
use crate::numbers::{integer_behind, read_byte, read_enclosing, read_integer};
use aml_terms::{AmlFault, Opcode, Term};
use std::alloc::Global;
use vt_outside::{Bytes, List, OutOfMemory, Text};

// More values than this aren't in a package: its count is a byte (ACPI 6.5, 20.2.5.4).
const MOST_VALUES: usize = 255;

/// Reads the value at the front of `text`, which begins at `place`. Packages and buffers nest in at most `room` levels. What the
/// value holds takes its memory from `alloc`.
#[cycle(values)]
#[tactic(auto, using(crate::proofs::Announced::wide))]
pub(crate) fn read_value(
    alloc: Global,
    room: u8,
    place: u32,
    text: &[u8],
) -> Result<Found<Term>, AmlFault>
    requires { place + length text.now < 2 ^ 32 }
    ensures value { Agrees reported (λ found. (view found.value, found.size)) result (value_at room place text.now) }
    ensures within { IfOk result (λ found. found.size ≤ length text.now) }
    ensures some { IfOk result (λ found. 1 ≤ found.size) }
{
    let byte = read_byte(place, text)?;
    let value = value_behind(alloc, room, byte, Opcode::of(byte), place + 1, &text[1..])?;
    Ok(value.behind(1))
}

// Reads the value behind `byte`, which says `opcode`.
#[cycle(values)]
#[tactic(auto, unfolding(aml_terms::specs::Reading::value_behind))]
fn value_behind(
    alloc: Global,
    room: u8,
    byte: u8,
    opcode: Opcode,
    place: u32,
    text: &[u8],
) -> Result<Found<Term>, AmlFault>
    requires wide { IsWide opcode }
    requires behind { 1 ≤ place }
    requires place { place + length text.now < 2 ^ 32 }
    ensures value { Agrees reported (λ found. (view found.value, found.size)) result
        (value_behind (buffer_at room) (package_at room) byte opcode place text.now) }
    ensures within { IfOk result (λ found. found.size ≤ length text.now) }
{
    match opcode {
        Opcode::Constant | Opcode::Integer(_) => int_behind(byte, opcode, place, text),
        Opcode::Ones => Ok(Found {
            value: Term::Ones,
            size: 0,
        }),
        Opcode::Chars => read_chars(alloc, place, text),
        Opcode::Buffer => read_buffer(alloc, room, place, text),
        Opcode::Package => read_package(alloc, room, place, text),
        Opcode::Name | Opcode::Scope | Opcode::Extended | Opcode::Other => {
            Err(AmlFault::OutsideGrammar(place - 1))
        }
    }
}

// Reads the integer behind `byte` as a term.
fn int_behind(byte: u8, opcode: Opcode, place: u32, text: &[u8]) -> Result<Found<Term>, AmlFault>
    requires wide { IsWide opcode }
    requires behind { 1 ≤ place }
    requires place { place + length text.now < 2 ^ 32 }
    ensures int { Agrees reported (λ found. (view found.value, found.size)) result
        (made_at int (integer_behind byte opcode) place text.now) }
    ensures within { IfOk result (λ found. found.size ≤ length text.now) }
{
    let number = integer_behind(byte, opcode, place, text)?;
    Ok(Found {
        value: Term::Int(number.value),
        size: number.size,
    })
}

// Reads the characters of a text, up to its NUL.
fn read_chars(alloc: Global, place: u32, text: &[u8]) -> Result<Found<Term>, AmlFault>
    requires { place + length text.now < 2 ^ 32 }
    ensures chars { Agrees reported (λ found. (view found.value, found.size)) result (made_at chars chars_at place text.now) }
    ensures within { IfOk result (λ found. found.size ≤ length text.now) }
{
    let count = char_count(text);
    if count == text.len() {
        return Err(AmlFault::Truncated(place + count as u32));
    }
    if text[count] != 0 {
        return Err(AmlFault::OutsideGrammar(place + count as u32));
    }
    let mut chars = Text::new(alloc);
    chars.extend(&text[..count])?;
    Ok(Found {
        value: Term::Chars(chars),
        size: count + 1,
    })
}

// How many characters of a text `text` begins with.
fn char_count(text: &[u8]) -> usize
    ensures { result ≡ prefix_len is_char text.now }
{
    text.iter()
        .take_while(|byte| **byte > 0 && **byte < 0x80)
        .count()
}

// Reads a buffer behind its opcode, for which there must be room.
#[tactic(auto, unfolding(crate::specs::Rooms::buffer_at))]
fn read_buffer(alloc: Global, room: u8, place: u32, text: &[u8]) -> Result<Found<Term>, AmlFault>
    requires behind { 1 ≤ place }
    requires place { place + length text.now < 2 ^ 32 }
    ensures buffer { Agrees reported (λ found. (view found.value, found.size)) result (buffer_at room place text.now) }
    ensures within { IfOk result (λ found. found.size ≤ length text.now) }
{
    if room == 0 {
        return Err(AmlFault::OutsideGrammar(place - 1));
    }
    enclosed_buffer(alloc, place, text)
}

// Reads a buffer's package length and what it encloses.
#[tactic(auto, unfolding(aml_terms::specs::Reading::enclosed_at))]
fn enclosed_buffer(alloc: Global, place: u32, text: &[u8]) -> Result<Found<Term>, AmlFault>
    requires { place + length text.now < 2 ^ 32 }
    ensures buffer { Agrees reported (λ found. (view found.value, found.size)) result (enclosed_at buffer_in place text.now) }
    ensures within { IfOk result (λ found. found.size ≤ length text.now) }
{
    let length = read_enclosing(place, text)?;
    let inner = &text[length.size..][..length.value];
    let content = buffer_in(alloc, place + length.size as u32, inner)?;
    Ok(Found {
        value: Term::Buffer(content),
        size: length.size + length.value,
    })
}

// Reads a buffer's size, and the bytes that are left, whose number it tells.
#[tactic(auto, unfolding(aml_terms::specs::Reading::buffer_in, aml_terms::specs::Reading::sized_in))]
fn buffer_in(alloc: Global, place: u32, text: &[u8]) -> Result<Bytes, AmlFault>
    requires { place + length text.now < 2 ^ 32 }
    ensures { Agrees reported (λ bytes. buffer bytes) result (buffer_in place text.now) }
{
    let size = read_integer(place, text)?;
    let content = &text[size.size..];
    if size.value != content.len() as u64 {
        return Err(AmlFault::OutsideGrammar(place));
    }
    let mut bytes = Bytes::new(alloc);
    bytes.extend(content)?;
    Ok(bytes)
}

// Reads a package behind its opcode, for which there must be room.
#[cycle(values)]
#[tactic(auto, unfolding(crate::specs::Rooms::package_at))]
fn read_package(alloc: Global, room: u8, place: u32, text: &[u8]) -> Result<Found<Term>, AmlFault>
    requires behind { 1 ≤ place }
    requires place { place + length text.now < 2 ^ 32 }
    ensures package { Agrees reported (λ found. (view found.value, found.size)) result (package_at room place text.now) }
    ensures within { IfOk result (λ found. found.size ≤ length text.now) }
{
    if room == 0 {
        return Err(AmlFault::OutsideGrammar(place - 1));
    }
    enclosed_package(alloc, room - 1, place, text)
}

// Reads a package's length and what it encloses.
#[cycle(values)]
#[tactic(auto, unfolding(aml_terms::specs::Reading::enclosed_at))]
fn enclosed_package(
    alloc: Global,
    room: u8,
    place: u32,
    text: &[u8],
) -> Result<Found<Term>, AmlFault>
    requires { place + length text.now < 2 ^ 32 }
    ensures package { Agrees reported (λ found. (view found.value, found.size)) result
        (enclosed_at (package_in (value_at room)) place text.now) }
    ensures within { IfOk result (λ found. found.size ≤ length text.now) }
{
    let length = read_enclosing(place, text)?;
    let inner = &text[length.size..][..length.value];
    let values = package_in(alloc, room, place + length.size as u32, inner)?;
    Ok(Found {
        value: Term::Package(values),
        size: length.size + length.value,
    })
}

// Reads a package's count, and the values behind it, whose number it tells.
#[cycle(values)]
#[tactic(auto, unfolding(aml_terms::specs::Reading::package_in, aml_terms::specs::Reading::counted_in))]
fn package_in(alloc: Global, room: u8, place: u32, text: &[u8]) -> Result<List<Term>, AmlFault>
    requires { place + length text.now < 2 ^ 32 }
    ensures { Agrees reported (λ values. pack (views values)) result (package_in (value_at room) place text.now) }
{
    let count = read_byte(place, text)?;
    let kept = read_values(alloc, room, place + 1, &text[1..])?;
    if usize::from(count) != kept.count {
        return Err(AmlFault::OutsideGrammar(place));
    }
    Ok(kept.values)
}

// The values of a package that are kept, and how many there are.
#[derive(Drop)]
struct Kept {
    values: List<Term>,
    count: usize,
}

impl Kept {
    // Counts `value`, and keeps it if it is one of those that may be in a package.
    fn add(&mut self, value: Term) -> Result<(), OutOfMemory>
        requires { self.old.count < 2 ^ 32 }
        ensures count { OnOk result (self.new.count ≡ self.old.count + 1) }
        ensures values { OnOk result (self.new.values
            ≡ self.old.values ++ (if nat_lt self.old.count MOST_VALUES then value ∷ [] else [])) }
    {
        if self.count < MOST_VALUES {
            self.values.push(value)?;
        }
        self.count += 1;
        Ok(())
    }
}

// Reads values to the end of the text. Those that no package may have are only counted, so that they take no memory.
#[cycle(values)]
fn read_values(alloc: Global, room: u8, place: u32, text: &[u8]) -> Result<Kept, AmlFault>
    requires { place + length text.now < 2 ^ 32 }
    ensures values { IfOk result (λ kept. (trees : List Tree) × IsKept kept trees
        × (all_in (value_at room) place text.now ≡ Ok (trees_of trees))) }
    ensures fault { IfErr result (λ fault. Agrees reported views (Err fault) (all_in (value_at room) place text.now)) }
{
    let mut kept = Kept {
        values: List::new(alloc),
        count: 0,
    };
    let mut size = 0;
    while size < text.len() {
        let found = read_value(alloc, room, place + size as u32, &text[size..])?;
        kept.add(found.value)?;
        size += found.size;
    }
    Ok(kept)
}
