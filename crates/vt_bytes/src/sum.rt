ghost use Rattle.std.specs.Prelude.{◌≡◌};
ghost use Rattle.std.specs.List.{flat_map};
ghost use Rattle.vt_bytes.specs.Numbers.{byte_sum};

use std::simd::prelude::*;

/// Returns the sum of all of `bytes`, modulo 256. The sum of no bytes is 0.
pub fn byte_sum(bytes: &[u8]) -> u8
    ensures { result ≡ byte_sum bytes.now }
{
    let (blocks, rest) = bytes.as_chunks::<32>();
    sum_of_blocks(blocks).wrapping_add(sum_of_rest(rest))
}

// The sum of blocks: each lane sums up the bytes at its place in a block, and then the lanes are summed up.
fn sum_of_blocks(blocks: &[[u8; 32]]) -> u8
    ensures { result ≡ byte_sum (flat_map (λ block. block) blocks.now) }
{
    let mut lanes = u8x32::splat(0);
    for block in blocks {
        lanes += u8x32::from_array(*block);
    }
    lanes.reduce_sum()
}

// The sum of bytes that fill no block.
fn sum_of_rest(bytes: &[u8]) -> u8
    ensures { result ≡ byte_sum bytes.now }
{
    let mut sum = 0u8;
    for byte in bytes {
        sum = sum.wrapping_add(*byte);
    }
    sum
}
