//! Files with holes: bytes that are appended, fields to which the address of a file is added when it is placed, and
//! bytes that make a range sum to zero.
//!
//! Contracts see a blob as its bytes, its pointer holes and its sum holes. Holes lie in the file and apart from each
//! other, each sum's byte in the range that it sums, and no call moves what stands in the file. A layout is appended as its
//! rows, with long bytes and pointers among them as parts behind the rows, and wherever a memory then holds the file with its
//! holes filled, it holds the rows.
#![tactic(auto)]

mod append;
mod blob;
mod hole;
pub mod laws;
mod part;

pub use append::{append_layout, append_rows};
pub use blob::{Blob, Parts};
pub use hole::{PointerHole, SumHole};
pub use part::{Part, size_of_parts};
