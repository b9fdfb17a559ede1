//! SMBIOS structures read from bytes (DSP0134, version 3.0.0, 6.1).
//!
//! The contract is that `decode_table` reads structures exactly where the bytes begin with them, whatever follows, and else tells
//! the first fault and where the structure at fault begins. The law is that bytes are read in one way.
#![tactic(auto)]

mod body;
mod fault;
mod kind;
pub mod laws;
mod strings;
mod structure;
mod table;

pub use fault::SmbiosFault;
pub use table::decode_table;
