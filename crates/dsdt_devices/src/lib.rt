//! The devices that the terms of a DSDT tell (ACPI 6.5, 5.2.11.1): the bridge to PCI with its buses, windows and routes, the serial ports,
//! the clock and the keyboard controller. It is the way back from `dsdt_terms`.
//!
//! The contract of [`devices_in`] is exact for any terms. The law is that the devices of an accepted machine are got back from the terms
//! that are kept of it.
#![tactic(auto)]

mod bridge;
mod bus_terms;
mod devices;
pub mod laws;
mod uart;

pub use devices::{DsdtDevices, devices_in};
