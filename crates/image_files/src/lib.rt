//! The files of an image: files of fw_cfg with holes, the script by which a firmware places and links them (QEMU,
//! hw/acpi/bios-linker-loader.c), and the items of fw_cfg that files and script are.
//!
//! All follows from one list of files, in the order in which they are placed: the contract of [`link`] is exact, and files that have too many
//! bytes are refused exactly where they have. The laws say what a run of the script leaves, whatever lawful places the files are given, and in
//! whatever lawful order the commands come that link them.
#![tactic(auto)]

mod by_name;
mod file;
mod image;
mod items;
pub mod laws;
mod script;
mod sizes;

pub use file::{ImageFile, Placing};
pub use image::{Image, ImageBuildFault, link};
pub use zone_alloc::Zone;
