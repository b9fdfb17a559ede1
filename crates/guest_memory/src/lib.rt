//! Guest memory: the bytes of RAM, in frames of 4,096 bytes that are filled when a byte of them is first changed.
//!
//! RAM is 0 to 0x9FFFF, 0xE0000 to 0xFFFFF, and the 32 MiB that end at the machine's top. What lies between is no RAM (a PC's
//! video memory and option ROMs), nor is what lies past the top. Contracts see two things: the memory, which is a top, a fill byte, and the
//! byte at each RAM address; and of each frame whether it is touched, which is no part of what the memory is. Each call that changes a
//! memory says which one it then is, the memory with these bytes at that address, and which frames that touched: those that the range
//! meets. A frame that isn't touched holds the fill byte alone. Bytes are lent within one frame, and the calls over longer ranges go frame
//! by frame.
//!
//! The frames are those of `raw_frames`, one block of memory that nobody has written. `store` has a flag for each, and lends a frame of fill
//! bytes wherever one isn't touched.
#![tactic(auto)]

mod memory;
mod patch;
mod ranges;
mod store;

pub use memory::{FRAME_BYTES, GuestMemory, ram_ranges};
pub use patch::TooFar;
