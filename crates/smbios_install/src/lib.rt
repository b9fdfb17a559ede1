//! Files of SMBIOS structures that no script of a device names: QEMU gives a machine's structures and their anchor so
//! (hw/smbios/smbios.c), and its firmware installs them by itself. Here that is said by commands which are added to the script.
//!
//! The contract is exact: [`install`] gives the files with the anchor's pointer blanked and the commands of the anchor's form behind those
//! that are there, exactly where no reason stands against it, and else the first reason. The laws are that in any memory which holds the
//! files that such a script has placed the structures stand where their anchor says, that what is read there is what the structures' file
//! is read as, and that the commands in front do what they do without the added ones.
#![tactic(auto)]

mod anchor;
mod checking;
mod commands;
mod fault;
mod installing;
pub mod laws;
mod selecting;

pub use anchor_scan::find_smbios2;
pub use fault::InstallFault;
pub use installing::{install, with_install};
