//! Terms of AML as bytes (ACPI 6.5, 20.2).
//!
//! The contract is that the bytes of well-formed terms are exactly their spelling, and when a package in one is too large. A term is walked
//! twice, first to measure what each package in it encloses and then to write it, so the time is in proportion to its bytes.
#![tactic(auto)]

mod encode;
mod fault;
mod integer;
mod length;
mod measure;
mod path;
mod sizes;
mod write;

pub use encode::{encode_term, encode_terms};
pub use fault::TermFault;
pub use length::{PkgLength, pkg_length};
