//! The terms of AML that bytes spell (ACPI 6.5, 20.2).
//!
//! The contract is that `decode_terms` gives exactly what the definition of reading gives: the terms, or the first fault and its place;
//! and that only want of memory may come in its stead. There is a small reader for each part of the grammar, in its order. Each is given
//! the text up to the end of what encloses it, so nothing is read past that end, and the place of the text, so that a fault's place
//! counts from the first byte of all.
#![tactic(auto)]

mod decode;
mod found;
mod numbers;
mod path;
mod terms;
mod values;

pub use decode::decode_terms;
