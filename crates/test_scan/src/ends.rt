//! Tables at both ends of a piece of RAM that ends with the last address: each is read where it fits, and lies outside RAM where a byte of it
//! doesn't. No dump spells such a memory.

use crate::edits::{mend, push_zeros, put_at};
use crate::every::{TABLES, Table};
use crate::pieces::{Piece, Pieces, place_of};
use crate::rsdp::rsdp_of;
use crate::told::{are_words, told};
use crate::words::told_fault;
use acpi_decode::AcpiFault;
use std::alloc::Global;
use std::process::Abort;
use std::test::Fail;
use vt_outside::Bytes;

const RSDP: u64 = 0xE_0000;

// Where the XSDT stands, and behind it a FADT.
const XSDT: u64 = 0x1000;

const XSDT_PLACE: usize = 36;

const FADT: u64 = 0x1040;

const FADT_PLACE: usize = 100;

// The first address of the piece at the end of all addresses.
const FIRST: u64 = u64::MAX - 319;

// A piece for these two, one for a table at an end, and one for the RSDP, which has no other bytes.
static PIECES: [Piece; 3] = [
    Piece {
        start: XSDT,
        size: 512,
        place: 36,
    },
    Piece {
        start: FIRST,
        size: 320,
        place: 548,
    },
    Piece {
        start: RSDP,
        size: 36,
        place: 0,
    },
];

const SIZE: usize = 868;

// How a table is led to: by the RSDP, by the XSDT, or by the pointer of 64 bits at an offset of the FADT.
#[derive(Clone, Copy, Debug)]
enum Way {
    Rsdp,
    Xsdt,
    Fadt(usize),
}

#[test]
fn ends_of_addresses(rt: HostRuntime) -> Result<(), Fail> {
    are_ended(&rt, rt.alloc(), &TABLES[0], Way::Rsdp)?;
    are_ended(&rt, rt.alloc(), &TABLES[1], Way::Fadt(132))?;
    are_ended(&rt, rt.alloc(), &TABLES[2], Way::Fadt(140))?;
    for table in &TABLES[3..] {
        are_ended(&rt, rt.alloc(), table, Way::Xsdt)?;
    }
    Ok(())
}

// A table at both ends of the piece, and one byte past them; and where only its header is RAM, or not even that.
fn are_ended(rt: &impl Abort, alloc: Global, table: &Table, way: Way) -> Result<(), Fail> {
    let fits = u64::MAX.saturating_sub(table.size as u64).saturating_add(1);
    is_read_at(rt, alloc, FIRST, table, way)?;
    is_outside_at(rt, alloc, FIRST - 1, table, way)?;
    is_read_at(rt, alloc, fits, table, way)?;
    is_outside_at(rt, alloc, fits.saturating_add(1), table, way)?;
    for count in [36, 35, 8, 4, 1] {
        let address = u64::MAX.saturating_sub(count).saturating_add(1);
        is_outside_at(rt, alloc, address, table, way)?;
    }
    Ok(())
}

// A table is read at an address.
fn is_read_at(
    rt: &impl Abort,
    alloc: Global,
    address: u64,
    table: &Table,
    way: Way,
) -> Result<(), Fail> {
    let told = told_at(alloc, address, table, way)?;
    assert!(rt;
        told.as_slice().starts_with(b"\nrsdp"),
        "{way:?} {address}: {told:?}"
    );
    Ok(())
}

// A table lies outside RAM.
fn is_outside_at(
    rt: &impl Abort,
    alloc: Global,
    address: u64,
    table: &Table,
    way: Way,
) -> Result<(), Fail> {
    let told = told_at(alloc, address, table, way)?;
    is_outside(rt, alloc, told.as_slice(), address)
}

fn is_outside(rt: &impl Abort, alloc: Global, told: &[u8], address: u64) -> Result<(), Fail> {
    let wanted = told_fault(alloc, AcpiFault::OutsideRam(address))?;
    are_words(rt, told, wanted.as_slice());
    Ok(())
}

// What is told of the memory with a table at an address.
fn told_at(alloc: Global, address: u64, table: &Table, way: Way) -> Result<Bytes, Fail> {
    let mut bytes = Bytes::new(alloc);
    put_memory(alloc, &mut bytes, address, table, way)?;
    let view = Pieces {
        pieces: &PIECES,
        bytes: bytes.as_slice(),
    };
    told(alloc, &view, RSDP)
}

fn put_memory(
    alloc: Global,
    bytes: &mut Bytes,
    address: u64,
    table: &Table,
    way: Way,
) -> Result<(), Fail> {
    push_zeros(bytes, SIZE)?;
    match way {
        Way::Rsdp => put_at(bytes, 0, &rsdp_of(address)),
        Way::Xsdt => put_anchor(bytes, address),
        Way::Fadt(offset) => {
            put_anchor(bytes, FADT);
            put_fadt(alloc, bytes, offset, address)?;
        }
    }
    put_table(alloc, bytes, address, table)
}

// Puts an RSDP, and an XSDT that names one table.
fn put_anchor(bytes: &mut Bytes, named: u64) {
    put_at(bytes, 0, &rsdp_of(XSDT));
    put_at(bytes, XSDT_PLACE, b"XSDT\x2c\0\0\0");
    put_at(bytes, XSDT_PLACE + 36, &named.to_le_bytes());
    mend(bytes, XSDT_PLACE);
}

// Puts the FADT, of whose pointers the one at an offset leads to an address.
fn put_fadt(alloc: Global, bytes: &mut Bytes, offset: usize, address: u64) -> Result<(), Fail> {
    let mut fadt = leading_nowhere(alloc, &TABLES[3])?;
    put_at(&mut fadt, offset, &address.to_le_bytes());
    mend(&mut fadt, 0);
    put_at(bytes, FADT_PLACE, fadt.as_slice());
    Ok(())
}

// Puts as much of a table at an address as is RAM there.
fn put_table(alloc: Global, bytes: &mut Bytes, address: u64, table: &Table) -> Result<(), Fail> {
    let table = leading_nowhere(alloc, table)?;
    put_at_address(bytes, address, table.as_slice());
    Ok(())
}

fn put_at_address(bytes: &mut Bytes, address: u64, part: &[u8]) {
    let mut at = address;
    for byte in part {
        if let Some(place) = place_of(&PIECES, at) {
            put_at(bytes, place, &[*byte]);
        }
        at = at.saturating_add(1);
    }
}

// A table whose entries or pointers, if it has any, lead nowhere.
fn leading_nowhere(alloc: Global, table: &Table) -> Result<Bytes, Fail> {
    let mut bytes = Bytes::new(alloc);
    push_leading_nowhere(alloc, &mut bytes, table)?;
    Ok(bytes)
}

fn push_leading_nowhere(alloc: Global, bytes: &mut Bytes, table: &Table) -> Result<(), Fail> {
    let decoded = hex::decode(alloc, table.digits)?;
    bytes.extend(decoded.as_slice())?;
    if bytes.as_slice().starts_with(b"XSDT") {
        put_at(bytes, 36, &[0; 64]);
    }
    if bytes.as_slice().starts_with(b"FACP") {
        put_at(bytes, 36, &[0; 8]);
        put_at(bytes, 132, &[0; 16]);
    }
    if table.has_sum {
        mend(bytes, 0);
    }
    Ok(())
}
