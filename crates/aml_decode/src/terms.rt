ghost use Rattle.std.specs.Prelude.{◌+◌, ◌<◌, ◌≤◌, ◌^◌, length, IfOk};
ghost use Rattle.vt_outside.specs.Readings.{Agrees};
ghost use Rattle.aml_terms.specs.Reading.{reported};
ghost use Rattle.aml_terms.specs.Trees.{scope, view, views};
ghost use Rattle.aml_terms.specs.Reading.{made_at, then_at, byte_at, enclosed_at, all_in, value_at, inside, named_at, extended_at, term_behind, term_at};
ghost use Rattle.aml_decode.specs.Rooms.{inside_at};

use crate::found::Found;
use crate::numbers::{read_byte, read_enclosing};
use crate::path::read_path;
use crate::values::read_value;
use aml_terms::{AmlFault, Opcode, Path, Term};
use std::alloc::Global;
use vt_outside::{Boxed, List};

// The second byte of a device's opcode (ACPI 6.5, 20.2.5.2).
const DEVICE: u8 = 0x82;

/// Reads terms to the end of `text`, which begins at `place`. Scopes, devices, packages and buffers nest in at most `room` levels.
/// The terms take their memory from `alloc`.
#[cycle(terms)]
pub(crate) fn read_terms(
    alloc: Global,
    room: u8,
    place: u32,
    text: &[u8],
) -> Result<List<Term>, AmlFault>
    requires { place + length text.now < 2 ^ 32 }
    ensures { Agrees reported views result (all_in (term_at room) place text.now) }
{
    let mut terms = List::new(alloc);
    let mut size = 0;
    while size < text.len() {
        let found = read_term(alloc, room, place + size as u32, &text[size..])?;
        terms.push(found.value)?;
        size += found.size;
    }
    Ok(terms)
}

// Reads a term.
#[cycle(terms)]
fn read_term(alloc: Global, room: u8, place: u32, text: &[u8]) -> Result<Found<Term>, AmlFault>
    requires { place + length text.now < 2 ^ 32 }
    ensures term { Agrees reported (λ found. (view found.value, found.size)) result (term_at room place text.now) }
    ensures within { IfOk result (λ found. found.size ≤ length text.now) }
    ensures some { IfOk result (λ found. 1 ≤ found.size) }
{
    let byte = read_byte(place, text)?;
    let term = term_behind(alloc, room, Opcode::of(byte), place + 1, &text[1..])?;
    Ok(term.behind(1))
}

// Reads the term behind the byte that says `opcode`.
#[cycle(terms)]
#[tactic(auto, unfolding(aml_terms::specs::Reading::term_behind))]
fn term_behind(
    alloc: Global,
    room: u8,
    opcode: Opcode,
    place: u32,
    text: &[u8],
) -> Result<Found<Term>, AmlFault>
    requires behind { 1 ≤ place }
    requires place { place + length text.now < 2 ^ 32 }
    ensures term { Agrees reported (λ found. (view found.value, found.size)) result
        (term_behind (value_at room) (inside_at room) opcode place text.now) }
    ensures within { IfOk result (λ found. found.size ≤ length text.now) }
{
    match opcode {
        Opcode::Name => read_named(alloc, room, place, text),
        Opcode::Scope => read_scope(alloc, room, place, text),
        Opcode::Extended => read_device(alloc, room, place, text),
        Opcode::Constant
        | Opcode::Integer(_)
        | Opcode::Ones
        | Opcode::Chars
        | Opcode::Buffer
        | Opcode::Package
        | Opcode::Other => Err(AmlFault::OutsideGrammar(place - 1)),
    }
}

// Reads a name's path and its value.
#[tactic(auto, unfolding(aml_terms::specs::Reading::named_at))]
fn read_named(alloc: Global, room: u8, place: u32, text: &[u8]) -> Result<Found<Term>, AmlFault>
    requires { place + length text.now < 2 ^ 32 }
    ensures named { Agrees reported (λ found. (view found.value, found.size)) result (named_at (value_at room) place text.now) }
    ensures within { IfOk result (λ found. found.size ≤ length text.now) }
{
    let path = read_path(alloc, place, text)?;
    let value = read_value(alloc, room, place + path.size as u32, &text[path.size..])?;
    Ok(Found {
        value: Term::Named(path.value, Boxed::new(alloc, value.value)?),
        size: path.size + value.size,
    })
}

// Reads a scope behind its opcode.
#[cycle(terms)]
fn read_scope(alloc: Global, room: u8, place: u32, text: &[u8]) -> Result<Found<Term>, AmlFault>
    requires behind { 1 ≤ place }
    requires place { place + length text.now < 2 ^ 32 }
    ensures scope { Agrees reported (λ found. (view found.value, found.size)) result
        (made_at (λ x. scope x.0 x.1) (inside_at room 1) place text.now) }
    ensures within { IfOk result (λ found. found.size ≤ length text.now) }
{
    let inside = read_inside(alloc, room, 1, place, text)?;
    Ok(Found {
        value: Term::Scope(inside.value.path, inside.value.terms),
        size: inside.size,
    })
}

// Reads a device behind the first byte of its opcode.
#[cycle(terms)]
#[tactic(auto, unfolding(aml_terms::specs::Reading::extended_at))]
fn read_device(alloc: Global, room: u8, place: u32, text: &[u8]) -> Result<Found<Term>, AmlFault>
    requires behind { 1 ≤ place }
    requires place { place + length text.now < 2 ^ 32 }
    ensures device { Agrees reported (λ found. (view found.value, found.size)) result
        (then_at byte_at (extended_at (inside_at room)) place text.now) }
    ensures within { IfOk result (λ found. found.size ≤ length text.now) }
{
    let second = read_byte(place, text)?;
    if second != DEVICE {
        return Err(AmlFault::OutsideGrammar(place - 1));
    }
    let inside = read_inside(alloc, room, 2, place + 1, &text[1..])?;
    Ok(Found {
        value: Term::Device(inside.value.path, inside.value.terms),
        size: 1 + inside.size,
    })
}

// What a scope or a device encloses.
#[derive(Drop)]
struct Contents {
    path: Path,
    terms: List<Term>,
}

// Reads what a scope or a device encloses, for which there must be room. Its opcode has `back` bytes.
#[cycle(terms)]
#[tactic(auto, unfolding(crate::specs::Rooms::inside_at))]
fn read_inside(
    alloc: Global,
    room: u8,
    back: u32,
    place: u32,
    text: &[u8],
) -> Result<Found<Contents>, AmlFault>
    requires back { back ≤ place }
    requires place { place + length text.now < 2 ^ 32 }
    ensures inside { Agrees reported (λ found. ((found.value.path, views found.value.terms), found.size)) result
        (inside_at room back place text.now) }
    ensures within { IfOk result (λ found. found.size ≤ length text.now) }
{
    if room == 0 {
        return Err(AmlFault::OutsideGrammar(place - back));
    }
    enclosed_contents(alloc, room - 1, place, text)
}

// Reads the package length of a scope or a device and what it encloses.
#[cycle(terms)]
#[tactic(auto, unfolding(aml_terms::specs::Reading::enclosed_at))]
fn enclosed_contents(
    alloc: Global,
    room: u8,
    place: u32,
    text: &[u8],
) -> Result<Found<Contents>, AmlFault>
    requires { place + length text.now < 2 ^ 32 }
    ensures inside { Agrees reported (λ found. ((found.value.path, views found.value.terms), found.size)) result
        (enclosed_at (inside (term_at room)) place text.now) }
    ensures within { IfOk result (λ found. found.size ≤ length text.now) }
{
    let length = read_enclosing(place, text)?;
    let inner = &text[length.size..][..length.value];
    let value = contents_in(alloc, room, place + length.size as u32, inner)?;
    Ok(Found {
        value,
        size: length.size + length.value,
    })
}

// Reads the path of a scope or a device, and the terms that are left.
#[cycle(terms)]
#[tactic(auto, unfolding(aml_terms::specs::Reading::inside))]
fn contents_in(alloc: Global, room: u8, place: u32, text: &[u8]) -> Result<Contents, AmlFault>
    requires { place + length text.now < 2 ^ 32 }
    ensures { Agrees reported (λ contents. (contents.path, views contents.terms)) result (inside (term_at room) place text.now) }
{
    let path = read_path(alloc, place, text)?;
    let terms = read_terms(alloc, room, place + path.size as u32, &text[path.size..])?;
    Ok(Contents {
        path: path.value,
        terms,
    })
}
