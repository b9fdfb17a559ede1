//! SMBIOS structures and their anchor as bytes (DSP0134, version 3.0.0, 5.2.2, 6.1).
//!
//! The contract is that the bytes are exactly those of the structures, one after the other, that a reader by the standard finds
//! these structures in them and no others, and when a table is too large. The laws are that the bytes of structures don't begin with
//! those of others, and that the structures of an accepted machine can be built, are small, and have handles that differ.
#![tactic(auto)]

mod anchor;
mod building;
pub mod laws;
mod sizes;
mod string_set;
mod structure;

pub use anchor::build_anchor;
pub use building::{SmbiosBuildFault, build_smbios};
pub use string_set::StringSet;
