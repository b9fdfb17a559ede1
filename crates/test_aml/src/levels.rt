//! Scopes in one another, and what may stand in the inmost: 16 levels are read.

use crate::told::is_told;
use aml_encode::pkg_length;
use std::alloc::Global;
use std::process::Abort;
use std::test::Fail;
use vt_outside::{Bytes, OutOfMemory};

// What stands in the inmost scope, and what is read: nothing where that is terms.
static INMOST: [(usize, &[u8], &str); 8] = [
    (16, b"", ""),
    (17, b"", "outside 00000067 "),
    (16, b"\x08ABCD\x00", ""),
    (16, b"\x08ABCD\x11\x02\x00", "outside 0000006c "),
    (16, b"\x08ABCD\x12\x02\x00", "outside 0000006c "),
    (16, b"\x5b\x82\x05ABCD", "outside 00000067 "),
    (16, b"\x10", "outside 00000066 "),
    (16, b"\x5b", "truncated 00000067 "),
];

#[test]
fn levels(rt: HostRuntime) -> Result<(), Fail> {
    let alloc = rt.alloc();
    for (levels, inmost, wanted) in &INMOST {
        is_nested(&rt, alloc, *levels, *inmost, *wanted)?;
    }
    Ok(())
}

fn is_nested(
    rt: &impl Abort,
    alloc: Global,
    levels: usize,
    inmost: &[u8],
    wanted: &str,
) -> Result<(), Fail> {
    let bytes = nested(alloc, levels, inmost)?;
    if !wanted.is_empty() {
        return is_told(rt, alloc, bytes.as_slice(), wanted);
    }
    let told = crate::told::told(alloc, bytes.as_slice())?;
    assert!(rt; told.as_slice().starts_with(b"scope "), "{levels} levels");
    Ok(())
}

#[test]
fn sixteen_levels_have_102_bytes(rt: HostRuntime) -> Result<(), Fail> {
    let bytes = nested(rt.alloc(), 16, b"")?;
    assert_eq!(&rt; bytes.len(), 102);
    drop(bytes);
    Ok(())
}

// So many scopes `ABCD`, each in the one before it, with the shortest lengths.
fn nested(alloc: Global, levels: usize, inmost: &[u8]) -> Result<Bytes, OutOfMemory> {
    let mut bytes = Bytes::new(alloc);
    bytes.extend(inmost)?;
    for _ in 0..levels {
        bytes = scope_of(alloc, bytes.as_slice())?;
    }
    Ok(bytes)
}

fn scope_of(alloc: Global, inner: &[u8]) -> Result<Bytes, OutOfMemory> {
    let mut bytes = Bytes::new(alloc);
    bytes.push(0x10)?;
    push_length(&mut bytes, inner.len().saturating_add(4))?;
    bytes.extend(b"ABCD")?;
    bytes.extend(inner)?;
    Ok(bytes)
}

// Appends the shortest package length of so many bytes, which no test has more of than a length encloses.
fn push_length(bytes: &mut Bytes, body: usize) -> Result<(), OutOfMemory> {
    if body > 268_435_451 {
        return Err(OutOfMemory);
    }
    let length = pkg_length(body as u32);
    bytes.extend(length.bytes.get(..usize::from(length.len)).unwrap_or(&[]))
}
