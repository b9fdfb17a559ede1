//! Terms that no reader gives, or that are too long, and values that stand alone.

ghost use Rattle.std.specs.Prelude.{IfOk};
ghost use Rattle.aml_terms.specs.Trees.{view};
ghost use Rattle.aml_terms.specs.WellFormed.{IsGoodValue};

use aml_encode::{TermFault, encode_term};
use aml_terms::Term;
use std::alloc::Global;
use std::process::Abort;
use std::test::Fail;
use vt_outside::{Bytes, List, OutOfMemory};

// Integers, and their shortest spelling.
static INTEGERS: [(u64, &[u8]); 12] = [
    (0, b"\x00"),
    (1, b"\x01"),
    (2, b"\x0a\x02"),
    (0xFF, b"\x0a\xff"),
    (0x100, b"\x0b\x00\x01"),
    (0xFFFF, b"\x0b\xff\xff"),
    (0x1_0000, b"\x0c\x00\x00\x01\x00"),
    (0xFFFF_FFFF, b"\x0c\xff\xff\xff\xff"),
    (0x1_0000_0000, b"\x0e\x00\x00\x00\x00\x01\x00\x00\x00"),
    (
        0x0123_4567_89AB_CDEF,
        b"\x0e\xef\xcd\xab\x89\x67\x45\x23\x01",
    ),
    (u64::MAX - 1, b"\x0e\xfe\xff\xff\xff\xff\xff\xff\xff"),
    (u64::MAX, b"\x0e\xff\xff\xff\xff\xff\xff\xff\xff"),
];

// Integers that are written as dwords.
static FIXED: [(u32, &[u8]); 4] = [
    (0, b"\x0c\x00\x00\x00\x00"),
    (1, b"\x0c\x01\x00\x00\x00"),
    (40, b"\x0c\x28\x00\x00\x00"),
    (u32::MAX, b"\x0c\xff\xff\xff\xff"),
];

#[test]
fn integers(rt: HostRuntime) -> Result<(), Fail> {
    let alloc = rt.alloc();
    for (number, wanted) in &INTEGERS {
        is_integer(&rt, alloc, *number, *wanted)?;
    }
    for (number, wanted) in &FIXED {
        is_fixed(&rt, alloc, *number, *wanted)?;
    }
    Ok(())
}

#[tactic(auto, unfolding(aml_terms::specs::WellFormed::IsGoodValue))]
fn is_integer(rt: &impl Abort, alloc: Global, number: u64, wanted: &[u8]) -> Result<(), Fail> {
    let mut bytes = Bytes::new(alloc);
    encode_term(&Term::Int(number), &mut bytes)?;
    are_bytes(rt, &bytes, wanted);
    Ok(())
}

#[tactic(auto, unfolding(aml_terms::specs::WellFormed::IsGoodValue))]
fn is_fixed(rt: &impl Abort, alloc: Global, number: u32, wanted: &[u8]) -> Result<(), Fail> {
    let mut bytes = Bytes::new(alloc);
    encode_term(&Term::Fixed(number), &mut bytes)?;
    are_bytes(rt, &bytes, wanted);
    Ok(())
}

fn are_bytes(rt: &impl Abort, bytes: &Bytes, wanted: &[u8]) {
    assert_eq!(rt; *bytes.as_slice(), *wanted);
}

// A package with a dword that would fit a byte.
#[test]
fn a_package_of_dwords(rt: HostRuntime) -> Result<(), Fail> {
    let package = dwords(rt.alloc())?;
    let written = is_written_behind(
        &rt,
        rt.alloc(),
        &package,
        b"\x12\x08\x02\x0c\x28\x00\x00\x00\x00",
    );
    drop(package);
    written
}

#[tactic(auto, unfolding(aml_terms::specs::WellFormed::IsGoodValue))]
fn dwords(alloc: Global) -> Result<Term, OutOfMemory>
    ensures { IfOk result (λ term. IsGoodValue (view term)) }
{
    let mut values = List::new(alloc);
    values.push(Term::Fixed(40))?;
    values.push(Term::Int(0))?;
    Ok(Term::Package(values))
}

// What is there already stays in front.
fn is_written_behind(
    rt: &impl Abort,
    alloc: Global,
    value: &Term,
    wanted: &[u8],
) -> Result<(), Fail>
    requires { IsGoodValue (view value.now) }
{
    let mut bytes = Bytes::new(alloc);
    bytes.extend(b"\x08ADDR")?;
    encode_term(value, &mut bytes)?;
    assert!(rt; bytes.as_slice().strip_prefix(b"\x08ADDR") == Some(wanted));
    Ok(())
}

// How many bytes a buffer has that is too long.
const TOO_LONG: usize = 268_435_456;

#[test]
fn a_buffer_of_268_435_456_bytes(rt: HostRuntime) -> Result<(), Fail> {
    let buffer = buffer_of(rt.alloc(), TOO_LONG)?;
    let refused = is_too_long(&rt, rt.alloc(), &buffer);
    drop(buffer);
    refused
}

#[tactic(auto, unfolding(aml_terms::specs::WellFormed::IsGoodValue))]
fn buffer_of(alloc: Global, size: usize) -> Result<Term, OutOfMemory>
    ensures { IfOk result (λ term. IsGoodValue (view term)) }
{
    let mut bytes = Bytes::with_room(alloc, size)?;
    fill_up(&mut bytes, size)?;
    Ok(Term::Buffer(bytes))
}

fn fill_up(bytes: &mut Bytes, size: usize) -> Result<(), OutOfMemory> {
    for _ in 0..size / 4096 {
        bytes.extend(&[0x5A; 4096])?;
    }
    Ok(())
}

fn is_too_long(rt: &impl Abort, alloc: Global, buffer: &Term) -> Result<(), Fail>
    requires { IsGoodValue (view buffer.now) }
{
    let mut bytes = Bytes::new(alloc);
    bytes.push(7)?;
    assert_eq!(rt;
        encode_term(buffer, &mut bytes),
        Err(TermFault::TermTooLong)
    );
    are_bytes(rt, &bytes, &[7]);
    Ok(())
}
