//! The files of a fw_cfg device: items by name and by selector, the device's directory, and a container that
//! carries the items as one run of bytes.
//!
//! The directory is the one of QEMU's fw_cfg (docs/specs/fw_cfg); the container is this project's own. Contracts
//! see the list of the items, whose names and selectors differ. Bytes are accepted exactly where they are a container,
//! as its items; others are refused for the first fault of their parts. A container may be read in pieces, as they come.
#![tactic(auto)]

mod container;
mod directory;
mod filling;
mod gathering;
mod head;
mod held;
mod item;
mod items;
pub mod laws;
mod listed;
mod listing;
mod opening;
mod reader;
mod reading;
mod smbios_names;

pub use container::{ImageFault, read_image, write_image};
pub use directory::directory_bytes;
pub use item::Item;
pub use items::Items;
pub use listed::Listed;
pub use listing::{ENTRY_SIZE, list_entries};
pub use reader::ImageReader;
pub use smbios_names::{anchor_name, structures_name};
