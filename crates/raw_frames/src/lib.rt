//! Raw frames of a guest's memory: one block of 8,448 frames of 4,096 bytes, each filled when it is first touched.
//!
//! A guest has 33 MiB that its firmware may touch, and most runs touch a few frames of it. So the block is taken from `Global` in one
//! piece and not written: the kernel gives no page to it before a byte is written. A frame is filled as a whole, with a byte that the
//! caller names, and from then on parts of it are lent, to be read or to be changed. The block goes back to `Global` in `Drop`, whatever
//! frames are filled by then.
//!
//! Contracts see a list of 8,448 frames: of each its 4,096 bytes, or none before it is filled. Nothing can be read of a frame that isn't
//! filled, and no frame is filled twice. While a part is lent to be changed nothing else is lent, and when the loan ends the frame
//! has the bytes that were left in the part, with its other bytes as they were. No clause speaks of pages, or says that the block is given
//! back.
//!
//! `places` has the pointer, and all that is `unsafe`: five functions, each proved by hand. `frames` is plain code over them.
#![tactic(auto)]

mod frames;
mod places;

pub use frames::{FRAME_BYTES, FRAME_COUNT, Frames};
