//! Tests of the ground on which all crates stand: streams, lists, texts and names; numbers, sums, layouts as rows, records and files with holes;
//! and guest memory.
#![tactic(auto)]

pub mod layouts;
#[cfg(test)]
mod memory;
#[cfg(test)]
mod outside;
