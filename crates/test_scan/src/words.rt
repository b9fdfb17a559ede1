//! ACPI tables in words: a line for each table and each entry, with its name, and its numbers and texts in hexadecimal digits. A number
//! is spelled without the bytes of zero in front of it.

use acpi_decode::AcpiFault;
use std::alloc::Global;
use std::test::Fail;
use vt_outside::{Bytes, OutOfMemory};

static DIGITS: [u8; 16] = *b"0123456789abcdef";

/// Begins a line with a name.
pub fn push_name(told: &mut Bytes, name: &[u8]) -> Result<(), OutOfMemory> {
    told.push(b'\n')?;
    told.extend(name)
}

/// Appends that an entry is of a known type, and its numbers.
pub fn push_entry(told: &mut Bytes, kind: u8, numbers: &[u64]) -> Result<(), OutOfMemory> {
    push_name(told, b"entry")?;
    push_number(told, u64::from(kind))?;
    push_numbers(told, numbers)
}

/// Appends that an entry is of another type, and its length.
pub fn push_other_entry(told: &mut Bytes, kind: u8, length: u8) -> Result<(), OutOfMemory> {
    push_name(told, b"other entry")?;
    push_numbers(told, &[u64::from(kind), u64::from(length)])
}

/// Appends numbers.
pub fn push_numbers(told: &mut Bytes, numbers: &[u64]) -> Result<(), OutOfMemory> {
    for number in numbers {
        push_number(told, *number)?;
    }
    Ok(())
}

/// Appends a number.
pub fn push_number(told: &mut Bytes, number: u64) -> Result<(), OutOfMemory> {
    let zeros = (number.leading_zeros() / 8).min(7);
    push_text(told, &number.to_be_bytes()[zeros as usize..])
}

/// Appends bytes, each of them.
pub fn push_text(told: &mut Bytes, text: &[u8]) -> Result<(), OutOfMemory> {
    told.push(b' ')?;
    push_digits(told, text)
}

/// Appends the digits of bytes.
pub fn push_digits(told: &mut Bytes, bytes: &[u8]) -> Result<(), OutOfMemory> {
    for byte in bytes {
        told.extend(&[digit(*byte / 16), digit(*byte % 16)])?;
    }
    Ok(())
}

fn digit(number: u8) -> u8 {
    DIGITS[usize::from(number % 16)]
}

/// Tells a fault, with its address.
pub fn told_fault(alloc: Global, fault: AcpiFault) -> Result<Bytes, Fail> {
    let mut told = Bytes::new(alloc);
    push_fault(&mut told, fault)?;
    Ok(told)
}

/// Appends a fault, with its address.
pub fn push_fault(told: &mut Bytes, fault: AcpiFault) -> Result<(), OutOfMemory> {
    let (name, address) = match fault {
        AcpiFault::OutsideRam(address) => (b"outside ram".as_slice(), address),
        AcpiFault::BadSum(address) => (b"bad sum".as_slice(), address),
        AcpiFault::BadLength(address) => (b"bad length".as_slice(), address),
        AcpiFault::BadEntry(address) => (b"bad entry".as_slice(), address),
        AcpiFault::WrongSignature(address) => (b"wrong signature".as_slice(), address),
        AcpiFault::TwiceGiven(address) => (b"twice given".as_slice(), address),
        AcpiFault::OutOfMemory => return Err(OutOfMemory),
    };
    told.extend(name)?;
    push_number(told, address)
}
