//! AML's terms in words: a line for each name, each scope and each device, with its path, and one for the end of a scope or a device. Values
//! stand in the lines of their names.

use crate::words::{push_name, push_number, push_text};
use aml_terms::{Path, Term};
use vt_outside::{Bytes, OutOfMemory};

/// Appends that a definition block spells these terms.
pub fn push_block_terms(told: &mut Bytes, terms: &[Term]) -> Result<(), OutOfMemory> {
    told.extend(b" terms")?;
    push_terms(told, terms)
}

#[cycle(words)]
fn push_terms(told: &mut Bytes, terms: &[Term]) -> Result<(), OutOfMemory> {
    for term in terms {
        push_term(told, term)?;
    }
    Ok(())
}

#[cycle(words)]
fn push_term(told: &mut Bytes, term: &Term) -> Result<(), OutOfMemory> {
    match term {
        Term::Int(number) => push_int(told, *number),
        Term::Fixed(number) => push_fixed(told, *number),
        Term::Ones => told.extend(b" ones"),
        Term::Chars(text) => push_bytes(told, b" text", text.as_slice()),
        Term::Buffer(bytes) => push_bytes(told, b" buffer", bytes.as_slice()),
        Term::Package(values) => push_package(told, values.as_slice()),
        Term::Named(path, value) => push_named(told, path, value.get()),
        Term::Scope(path, terms) => push_inside(told, b"scope", path, terms.as_slice()),
        Term::Device(path, terms) => push_inside(told, b"device", path, terms.as_slice()),
    }
}

#[cycle(words)]
fn push_package(told: &mut Bytes, values: &[Term]) -> Result<(), OutOfMemory> {
    told.extend(b" package [")?;
    push_terms(told, values)?;
    told.extend(b" ]")
}

#[cycle(words)]
fn push_named(told: &mut Bytes, path: &Path, value: &Term) -> Result<(), OutOfMemory> {
    push_name(told, b"name")?;
    push_path(told, path)?;
    push_term(told, value)
}

#[cycle(words)]
fn push_inside(
    told: &mut Bytes,
    kind: &[u8],
    path: &Path,
    terms: &[Term],
) -> Result<(), OutOfMemory> {
    push_name(told, kind)?;
    push_path(told, path)?;
    push_terms(told, terms)?;
    push_name(told, b"end")
}

fn push_int(told: &mut Bytes, number: u64) -> Result<(), OutOfMemory> {
    told.extend(b" int")?;
    push_number(told, number)
}

// A dword is told as one, whatever its value.
fn push_fixed(told: &mut Bytes, number: u32) -> Result<(), OutOfMemory> {
    push_bytes(told, b" fixed", &number.to_be_bytes())
}

fn push_bytes(told: &mut Bytes, kind: &[u8], bytes: &[u8]) -> Result<(), OutOfMemory> {
    told.extend(kind)?;
    push_text(told, bytes)
}

// Appends a path as a person writes it.
fn push_path(told: &mut Bytes, path: &Path) -> Result<(), OutOfMemory> {
    push_beginning(told, path.root, path.parents)?;
    for (index, segment) in path.segments.as_slice().iter().enumerate() {
        push_segment(told, index, segment)?;
    }
    Ok(())
}

fn push_beginning(told: &mut Bytes, root: bool, parents: u8) -> Result<(), OutOfMemory> {
    told.push(b' ')?;
    if root {
        told.push(b'\\')?;
    }
    for _ in 0..parents {
        told.push(b'^')?;
    }
    Ok(())
}

fn push_segment(told: &mut Bytes, index: usize, segment: &[u8]) -> Result<(), OutOfMemory> {
    if index > 0 {
        told.push(b'.')?;
    }
    told.extend(segment)
}
