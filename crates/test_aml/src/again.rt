//! What is read and written again: the shortest spelling of the same terms.

use crate::every::EVERY;
use crate::told::read;
use aml_encode::encode_terms;
use std::alloc::Global;
use std::process::Abort;
use std::test::Fail;
use vt_outside::Bytes;

// Bytes, and what their terms are written as.
static AGAIN: [(&[u8], &[u8]); 13] = [
    (b"", b""),
    // integers, each as short as it can be
    (b"\x08ABCD\x0a\x00", b"\x08ABCD\x00"),
    (
        b"\x08ABCD\x0e\x01\x00\x00\x00\x00\x00\x00\x00",
        b"\x08ABCD\x01",
    ),
    (b"\x08ABCD\x0c\xff\x00\x00\x00", b"\x08ABCD\x0a\xff"),
    (b"\x08ABCD\x0c\x00\x01\x00\x00", b"\x08ABCD\x0b\x00\x01"),
    (
        b"\x08ABCD\x0e\x00\x00\x01\x00\x00\x00\x00\x00",
        b"\x08ABCD\x0c\x00\x00\x01\x00",
    ),
    (
        b"\x08ABCD\x0e\x00\x00\x00\x00\x01\x00\x00\x00",
        b"\x08ABCD\x0e\x00\x00\x00\x00\x01\x00\x00\x00",
    ),
    // lengths
    (b"\x10\x46\x00ABCD", b"\x10\x05ABCD"),
    (b"\x5b\x82\xc8\x00\x00\x00ABCD", b"\x5b\x82\x05ABCD"),
    (
        b"\x08ABCD\x12\x86\x00\x00\x02\x00\x01",
        b"\x08ABCD\x12\x04\x02\x00\x01",
    ),
    (
        b"\x08ABCD\x11\x46\x00\x0b\x01\x00A",
        b"\x08ABCD\x11\x03\x01A",
    ),
    // paths
    (b"\x08\x2f\x01ABCD\x00", b"\x08ABCD\x00"),
    (b"\x08\x5e\x2f\x02ABCDEFGH\x00", b"\x08\x5e\x2eABCDEFGH\x00"),
];

#[test]
fn the_shortest_again(rt: HostRuntime) -> Result<(), Fail> {
    let alloc = rt.alloc();
    for (bytes, wanted) in &AGAIN {
        is_written_again(&rt, alloc, *bytes, *wanted)?;
    }
    Ok(())
}

// A list with a term of every kind, whose spelling is the shortest.
#[test]
fn every_kind_again(rt: HostRuntime) -> Result<(), Fail> {
    is_written_again(&rt, rt.alloc(), &EVERY, &EVERY)
}

fn is_written_again(
    rt: &impl Abort,
    alloc: Global,
    bytes: &[u8],
    wanted: &[u8],
) -> Result<(), Fail> {
    let again = again(alloc, bytes)?;
    assert_eq!(rt; *again.as_slice(), *wanted, "{bytes:?}");
    Ok(())
}

// What the terms that bytes spell are written as.
fn again(alloc: Global, bytes: &[u8]) -> Result<Bytes, Fail> {
    let terms = read(alloc, bytes)?;
    let mut again = Bytes::new(alloc);
    let written = encode_terms(terms.as_slice(), &mut again);
    drop(terms);
    written?;
    Ok(again)
}
