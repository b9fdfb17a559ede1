//! Sums of bytes: worked ones, and those of so many bytes from so many offsets on, beside a plain loop.

ghost use Rattle.std.specs.Prelude.{◌≡◌, ◌+◌, ◌<◌, ◌≤◌, length, IfOk};

use std::alloc::Global;
use std::process::Abort;
use std::test::Fail;
use vt_bytes::byte_sum;
use vt_outside::OutOfMemory;

// How many bytes there are: as many as a frame of memory has, and some blocks more.
const COUNT: usize = 4192;

// How many bytes are summed up at a time.
const BLOCK: usize = 32;

#[test]
fn worked_sums(rt: HostRuntime) -> Result<(), Fail> {
    is_sum_of(&rt, rt.alloc(), 0xFF, 33, 0xDF)?;
    is_sum_of(&rt, rt.alloc(), 0xFF, 0, 0)?;
    is_sum_of(&rt, rt.alloc(), 1, 256, 0)
}

// So many times the byte are the sum.
fn is_sum_of(rt: &impl Abort, alloc: Global, byte: u8, count: usize, sum: u8) -> Result<(), Fail> {
    let bytes = vec![in alloc; byte; count]?;
    assert_eq!(rt; byte_sum(&bytes), sum);
    Ok(())
}

#[test]
fn sums_beside_a_plain_loop(rt: HostRuntime) -> Result<(), Fail> {
    let bytes = mixed_bytes(rt.alloc())?;
    for offset in 0..BLOCK {
        are_plain(&rt, &bytes[offset..], 0, 100);
        are_plain(&rt, &bytes[offset..], 4064, 4128);
    }
    Ok(())
}

// The first bytes, so many at least and at most, have the sum that a plain loop gives.
fn are_plain(rt: &impl Abort, bytes: &[u8], least: usize, most: usize)
    requires { most ≤ length bytes.now }
{
    for count in least..=most {
        is_plain(rt, &bytes[..count]);
    }
}

fn is_plain(rt: &impl Abort, bytes: &[u8]) {
    assert_eq!(rt; byte_sum(bytes), plain_sum(bytes), "{} bytes", bytes.len());
}

fn plain_sum(bytes: &[u8]) -> u8 {
    let mut sum = 0u8;
    for byte in bytes {
        sum = sum.wrapping_add(*byte);
    }
    sum
}

// Bytes of which neighbours differ, and so do those a block apart.
fn mixed_bytes(alloc: Global) -> Result<Vec<u8>, OutOfMemory>
    ensures { IfOk result (λ bytes. length bytes.items ≡ COUNT) }
{
    let mut bytes = vec![in alloc; 0; COUNT]?;
    for place in 0..COUNT {
        bytes[place] = ((place * 7 + place / BLOCK) % 256) as u8;
    }
    Ok(bytes)
}
