//! The machine of an inventory: the description again of what a guest's memory shows.
//!
//! A candidate is read out of the inventory, key by key. It is the answer where it is accepted and the inventory is its own; else the first
//! item that fails is told. The contract of [`describe`] is exact both ways, and the law is that the candidate of an accepted machine's
//! inventory is that machine, where its numbers fit their types, so that no two such machines have the same inventory.
#![tactic(auto)]

mod candidate;
mod description;
pub mod laws;

pub use candidate::candidate_of;
pub use description::{DescribeFault, describe};
