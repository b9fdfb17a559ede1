//! Names of files, and bytes that are none.

use crate::outside::asserts::are_bytes;
use std::process::Abort;
use std::test::Fail;
use vt_outside::{Name, NameFault, are_printable};

#[test]
fn names(rt: HostRuntime) -> Result<(), Fail> {
    let name = Name::of("etc/a")?;
    has_field(&rt, &name)?;
    is_other(&rt, &name)
}

fn has_field(rt: &impl Abort, name: &Name) -> Result<(), Fail> {
    let mut field = [0; 56];
    field[..5].copy_from_slice(b"etc/a");
    is_read_as(rt, &field, name)?;
    is_written_as(rt, name, &field);

    // what follows the NUL is ignored
    field[6..].copy_from_slice(&[0xFF; 50]);
    is_read_as(rt, &field, name)
}

fn is_read_as(rt: &impl Abort, field: &[u8; 56], name: &Name) -> Result<(), Fail> {
    let read = Name::read(field)?;
    assert!(rt; read == *name);
    Ok(())
}

fn is_written_as(rt: &impl Abort, name: &Name, field: &[u8; 56]) {
    are_bytes(rt, &name.bytes(), field);
}

fn is_other(rt: &impl Abort, name: &Name) -> Result<(), Fail> {
    let other = Name::of("etc/b")?;
    assert!(rt; other != *name);
    Ok(())
}

#[test]
fn the_longest_name(rt: HostRuntime) -> Result<(), Fail> {
    let mut field = [b'~'; 56];
    field[55] = 0;
    let name = Name::read(&field)?;
    is_written_as(&rt, &name, &field);
    Ok(())
}

static FIELDS: [(&[u8; 56], NameFault); 4] = [
    (&[b'A'; 56], NameFault::NoNul),
    (&[0; 56], NameFault::EmptyName),
    (
        b"a\x7f\0aaaaaaaaaaaaaaaaaaaaaaaaaaaaaaaaaaaaaaaaaaaaaaaaaaaaa",
        NameFault::BadNameByte,
    ),
    (
        b"\x1fa\0aaaaaaaaaaaaaaaaaaaaaaaaaaaaaaaaaaaaaaaaaaaaaaaaaaaaa",
        NameFault::BadNameByte,
    ),
];

#[test]
fn bytes_that_are_no_name(rt: HostRuntime) {
    for (field, fault) in &FIELDS {
        is_fault(&rt, Name::read(field), *fault);
    }
    is_fault(&rt, Name::of(""), NameFault::EmptyName);
    is_fault(&rt, Name::of("a\n"), NameFault::BadNameByte);
}

fn is_fault(rt: &impl Abort, name: Result<Name, NameFault>, fault: NameFault) {
    assert_eq!(rt; name.err(), Some(fault));
}

#[test]
fn bytes_that_print(rt: HostRuntime) {
    assert!(rt; are_printable(b" ~"));
    assert!(rt; !are_printable(b" \x1f~"));
    assert!(rt; !are_printable(b" \x7f~"));
}
