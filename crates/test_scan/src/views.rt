//! What a view of pieces tells of many bytes at once, by the methods that read it byte by byte.

use crate::pieces::{Piece, Pieces};
use acpi_decode::MemView;
use std::process::Abort;

// Two pieces with gaps around them, and one up to the last address.
static PIECES: [Piece; 3] = [
    Piece {
        start: 16,
        size: 5,
        place: 0,
    },
    Piece {
        start: 24,
        size: 3,
        place: 5,
    },
    Piece {
        start: u64::MAX - 3,
        size: 4,
        place: 8,
    },
];

const BYTES: &[u8] = b"\x01\x02\x04\x08\x10\xff\xfe\xfc\x21\x43\x65\x87";

// Runs by their address and their number of bytes, whether each byte is RAM, and their sum where it is.
static RUNS: [(u64, u32, Option<u8>); 14] = [
    (16, 0, Some(0)),
    (15, 0, Some(0)),
    (16, 1, Some(0x01)),
    (16, 5, Some(0x1F)),
    (16, 6, None),
    (15, 2, None),
    (20, 5, None),
    (24, 3, Some(0xF9)),
    (24, u32::MAX, None),
    (u64::MAX - 3, 4, Some(0x50)),
    (u64::MAX - 3, 5, None),
    (u64::MAX, 1, Some(0x87)),
    (u64::MAX, 2, None),
    (u64::MAX, u32::MAX, None),
];

fn view() -> Pieces<'static> {
    Pieces {
        pieces: &PIECES,
        bytes: BYTES,
    }
}

#[test]
fn runs_of_pieces(rt: HostRuntime) {
    for (address, count, sum) in &RUNS {
        assert_eq!(rt;
            sum_of(&view(), *address, *count),
            *sum,
            "{count} from {address}"
        );
    }
}

// The sum of a run, where it is RAM.
fn sum_of<V: MemView>(view: &V, address: u64, count: u32) -> Option<u8> {
    if view.is_ram_range(address, count) {
        Some(view.sum_range(address, count))
    } else {
        None
    }
}

#[test]
fn copies_of_pieces(rt: HostRuntime) {
    are_copied(&rt, &view(), 16, 5, b"\x01\x02\x04\x08\x10");
    are_copied(&rt, &view(), u64::MAX - 3, 4, b"\x21\x43\x65\x87");
}

// What is copied of a run of up to 8 bytes, where it is RAM.
fn are_copied<V: MemView>(rt: &impl Abort, view: &V, address: u64, count: u32, wanted: &[u8]) {
    let mut room = [0xAA; 8];
    let count = count.min(8);
    if view.is_ram_range(address, count) {
        view.copy_out(address, &mut room[..count as usize]);
    }
    assert_eq!(rt; room[..count as usize], *wanted, "{address}");
}
