//! Numbers in bytes, 8-bit sums, and what a memory is.
//!
//! Each call is exact: a number is the sum of its bytes times 256 to the power of their places, from the low byte
//! or from the high one, and a sum is taken modulo 256. No call takes memory.
//!
//! A memory has a top, a fill byte, and a byte at each address of the RAM map. It changes by a function: the memory with these
//! bytes at that address. The laws say when two memories are equal, and what is where after a change. What is seen of a memory is
//! a view: the byte at each address, or none where there is no RAM.
#![tactic(auto)]

pub mod laws;
mod memory;
mod number;
mod sum;
mod units;

pub use memory::{AddressRange, BIOS_END, BIOS_START};
pub use number::{get_be, get_le, put_be, put_le};
pub use sum::byte_sum;
pub use units::{BYTES_IN_MIB, KIB_IN_MIB};
