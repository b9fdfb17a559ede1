//! The parts of a machine that ACPI tables tell (ACPI 6.5, 5.2), but for the devices that a DSDT does. It is the way back from the tables of
//! a machine.
//!
//! The contracts are exact for any tables: each number is read from the place where it is written, and one that doesn't fit its key is 0. The
//! laws are that each part of an accepted machine is got back from its tables.
#![tactic(auto)]

mod controllers;
mod ecam;
pub mod laws;
mod maker;
mod nodes;
mod parts;
mod power;

pub use controllers::Controllers;
pub use ecam::ecam_in;
pub use nodes::{OnNode, affinities_in, put_nodes};
pub use parts::{AcpiParts, parts_in};
pub use power::power_in;
