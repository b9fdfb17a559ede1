//! The parts of a machine that SMBIOS structures tell (DSP0134, chapter 7). It is the way back from the structures of a machine.
//!
//! The contract of [`parts_in`] is exact for any structures. The law is that an accepted machine's parts are got back from its structures, its
//! ranges but for their nodes.
#![tactic(auto)]

mod chassis;
mod dimm;
mod firmware;
pub mod laws;
mod oem_strings;
mod parts;
mod range;
mod slot;
mod socket;
mod system;
mod told;

pub use parts::{SmbiosParts, parts_in};
