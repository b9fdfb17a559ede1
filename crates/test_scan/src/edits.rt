//! Bytes in which tests change what stands at a place, where there is one.

use vt_bytes::byte_sum;
use vt_outside::{Bytes, OutOfMemory};

// The byte at a place, or 0 where there is none.
fn byte_at(bytes: &Bytes, place: usize) -> u8 {
    bytes.as_slice().get(place).copied().unwrap_or(0)
}

/// Puts bytes at a place, as many as there is room for.
pub fn put_at(bytes: &mut Bytes, place: usize, part: &[u8]) {
    let mut at = place;
    for byte in part {
        if at < bytes.len() {
            bytes.set(at, *byte);
        }
        at = at.saturating_add(1);
    }
}

/// Appends so many zeros.
pub fn push_zeros(bytes: &mut Bytes, count: usize) -> Result<(), OutOfMemory> {
    for _ in 0..count {
        bytes.push(0)?;
    }
    Ok(())
}

// The length that the table at a place tells.
fn length_at(bytes: &Bytes, table: usize) -> u32 {
    let place = table.saturating_add(4);
    u32::from_le_bytes([
        byte_at(bytes, place),
        byte_at(bytes, place.saturating_add(1)),
        byte_at(bytes, place.saturating_add(2)),
        byte_at(bytes, place.saturating_add(3)),
    ])
}

/// Sets the sum of the table at a place, by the length that it tells, where it has so many bytes.
pub fn mend(bytes: &mut Bytes, table: usize) {
    let place = table.saturating_add(9);
    let before = byte_at(bytes, place);
    let sum = sum_at(bytes, table, length_at(bytes, table) as usize);
    put_at(bytes, place, &[before.wrapping_sub(sum)]);
}

// The sum of so many bytes from a place on, or 0 where there are fewer.
fn sum_at(bytes: &Bytes, place: usize, count: usize) -> u8 {
    match bytes.as_slice().get(place..place.saturating_add(count)) {
        Some(part) => byte_sum(part),
        None => 0,
    }
}
