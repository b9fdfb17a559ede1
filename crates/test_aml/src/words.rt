//! Terms in words: their kinds, their paths as a person writes them, and their numbers and bytes in hexadecimal digits.

use aml_terms::{AmlFault, Path, Term};
use std::alloc::Global;
use std::test::Fail;
use vt_outside::{Bytes, OutOfMemory};

static DIGITS: [u8; 16] = *b"0123456789abcdef";

/// Appends terms, one after the other.
#[cycle(words)]
pub fn push_terms(told: &mut Bytes, terms: &[Term]) -> Result<(), OutOfMemory> {
    for term in terms {
        push_term(told, term)?;
    }
    Ok(())
}

#[cycle(words)]
fn push_term(told: &mut Bytes, term: &Term) -> Result<(), OutOfMemory> {
    match term {
        Term::Int(number) => push_integer(told, *number),
        Term::Fixed(number) => push_bytes(told, b"fixed ", &number.to_be_bytes()),
        Term::Ones => push_ones(told),
        Term::Chars(text) => push_chars(told, text.as_slice()),
        Term::Buffer(bytes) => push_buffer(told, bytes.as_slice()),
        Term::Package(values) => push_package(told, values.as_slice()),
        Term::Named(path, value) => push_named(told, path, value.get()),
        Term::Scope(path, terms) => push_inside(told, b"scope ", path, terms.as_slice()),
        Term::Device(path, terms) => push_inside(told, b"device ", path, terms.as_slice()),
    }
}

#[cycle(words)]
fn push_package(told: &mut Bytes, values: &[Term]) -> Result<(), OutOfMemory> {
    told.extend(b"package [ ")?;
    push_terms(told, values)?;
    told.extend(b"] ")
}

#[cycle(words)]
fn push_named(told: &mut Bytes, path: &Path, value: &Term) -> Result<(), OutOfMemory> {
    told.extend(b"name ")?;
    push_path(told, path)?;
    push_term(told, value)
}

#[cycle(words)]
fn push_inside(
    told: &mut Bytes,
    kind: &[u8],
    path: &Path,
    terms: &[Term],
) -> Result<(), OutOfMemory> {
    told.extend(kind)?;
    push_path(told, path)?;
    told.extend(b"[ ")?;
    push_terms(told, terms)?;
    told.extend(b"] ")
}

fn push_integer(told: &mut Bytes, number: u64) -> Result<(), OutOfMemory> {
    push_bytes(told, b"int ", &number.to_be_bytes())
}

fn push_ones(told: &mut Bytes) -> Result<(), OutOfMemory> {
    told.extend(b"ones ")
}

fn push_chars(told: &mut Bytes, text: &[u8]) -> Result<(), OutOfMemory> {
    push_bytes(told, b"text ", text)
}

fn push_buffer(told: &mut Bytes, bytes: &[u8]) -> Result<(), OutOfMemory> {
    push_bytes(told, b"buffer ", bytes)
}

fn push_path(told: &mut Bytes, path: &Path) -> Result<(), OutOfMemory> {
    push_beginning(told, path.root, path.parents)?;
    for segment in path.segments.as_slice() {
        push_segment(told, segment)?;
    }
    told.push(b' ')
}

fn push_beginning(told: &mut Bytes, root: bool, parents: u8) -> Result<(), OutOfMemory> {
    if root {
        told.push(b'\\')?;
    }
    for _ in 0..parents {
        told.push(b'^')?;
    }
    Ok(())
}

fn push_segment(told: &mut Bytes, segment: &[u8]) -> Result<(), OutOfMemory> {
    told.push(b'.')?;
    told.extend(segment)
}

fn push_bytes(told: &mut Bytes, kind: &[u8], bytes: &[u8]) -> Result<(), OutOfMemory> {
    told.extend(kind)?;
    for byte in bytes {
        told.extend(&[digit(*byte / 16), digit(*byte % 16)])?;
    }
    told.push(b' ')
}

fn digit(number: u8) -> u8 {
    DIGITS[usize::from(number % 16)]
}

/// Tells a fault, with its place.
pub fn told_fault(alloc: Global, fault: AmlFault) -> Result<Bytes, Fail> {
    let mut told = Bytes::new(alloc);
    push_fault(&mut told, fault)?;
    Ok(told)
}

fn push_fault(told: &mut Bytes, fault: AmlFault) -> Result<(), OutOfMemory> {
    match fault {
        AmlFault::Truncated(place) => push_bytes(told, b"truncated ", &place.to_be_bytes()),
        AmlFault::BadLength(place) => push_bytes(told, b"length ", &place.to_be_bytes()),
        AmlFault::BadName(place) => push_bytes(told, b"bad name ", &place.to_be_bytes()),
        AmlFault::OutsideGrammar(place) => push_bytes(told, b"outside ", &place.to_be_bytes()),
        AmlFault::OutOfMemory => Err(OutOfMemory),
    }
}
