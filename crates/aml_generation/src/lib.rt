//! The address of the id of a machine's generation among terms of AML (Microsoft, Virtual Machine Generation ID; QEMU,
//! docs/specs/vmgenid.rst).
//!
//! A device `VGEN` on the system bus tells it by a package `ADDR` of its two halves. The contract of [`take_generation`] is exact: which
//! terms tell the address, and what the terms are without it. The laws say the same of the address alone, as that of the first of the
//! devices that may tell it, and that nothing changes where none is told.
#![tactic(auto)]

mod address;
mod generation;
pub mod laws;

pub use generation::take_generation;
