//! What a guest's memory shows from its anchors: the anchor of SMBIOS structures (DSP0134, version 3.0.0, 5.2.1, 5.2.2 and 6.1), and the
//! RSDP, that of ACPI tables (ACPI 6.5, 5.2.5).
//!
//! An anchor stands on a multiple of 16 below 1 MiB. The contract is that the least valid one of each kind is found exactly, and that [`scan`]
//! reads the inventory of a memory, which is what both lead to, exactly where the memory shows it, and else tells the first fault: that of the
//! ACPI tables, or where these have none that of the SMBIOS structures. An anchor that isn't there is no fault. [`scan_by`] does so by any
//! search, which says of what form the anchors are. The law is that a memory is scanned in one way by each search.
#![tactic(auto)]

mod acpi;
mod anchor;
mod fault;
mod inventory;
pub mod laws;
mod least;
mod range;
mod rsdp;
mod smbios;
mod smbios2;
mod sought_anchor;
mod sought_root;
mod view;

pub use anchor::{find_smbios, find_smbios_by, find_smbios2};
pub use fault::ScanFault;
pub use inventory::{scan, scan_by};
pub use rsdp::{find_rsdp, find_rsdp_by};
pub use smbios::{scan_smbios, scan_smbios_by};
pub use view::Seen;
