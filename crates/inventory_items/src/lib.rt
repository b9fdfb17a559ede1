//! The items of an inventory, and the first in which two inventories differ.
//!
//! The contract of [`first_difference`] is exact: which item differs first, or that none does. The law is that two inventories that agree in
//! all items are one.
#![tactic(auto)]

mod agreement;
mod difference;
pub mod laws;
mod parts;
mod records;
mod same;
mod structures;
mod tables;

pub use difference::first_difference;
