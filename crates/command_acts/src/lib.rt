//! What a load of an image of fw_cfg into a guest's memory is made of, by the script that is one of its files (QEMU,
//! hw/acpi/bios-linker-loader.c).
//!
//! [`Placements`], [`add_pointer`] and [`add_checksum`] are what one command does in memory, for a firmware that carries out a script between
//! other events: their contracts speak of a memory and of the files that stand in it, and of no load. A pointer and a sum leave exactly the
//! memory in which files stand as the run of the script makes them; a pointer whose sum doesn't fit changes no byte. The first cause for which a
//! command is refused is told, but for what the bytes in memory tell. [`LoadFault`] is why a load ends before its script does.
//!
//! How a load has to end is said here too, for the crates above: as the run of the script on plain lists ends, with the places that an
//! allocator gave.
#![tactic(auto)]

mod commands;
mod fault;
pub mod laws;
mod placed;
mod placements;

pub use commands::{add_checksum, add_pointer};
pub use fault::LoadFault;
pub use placed::PlacedFile;
pub use placements::{Placements, infos_of};
