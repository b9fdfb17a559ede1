//! The terms of a machine's DSDT: the devices that a guest finds through AML alone (ACPI 6.5, chapter 6 with 6.4).
//!
//! A device is a name and named values, and a machine's devices are lists, one after the other: the bridge to PCI, the serial ports, the
//! clock, the keyboard, the timer, the processors, and the one that leads to the id of the machine's generation. The contract is that
//! `dsdt_terms` gives the terms as they are written, and `kept_terms` as a reader keeps them, exactly. The laws say that they have one
//! written spelling, which is short; as which terms it is read wherever the file of the id stands; and that these lead to the id.
#![tactic(auto)]

mod bridge;
mod devices;
mod dsdt;
mod generation;
pub mod laws;
mod names;

pub use dsdt::{dsdt_terms, kept_terms};
pub use generation::ID_OFFSET;
