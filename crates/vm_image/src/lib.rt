//! The image of a machine: its files of fw_cfg, with SMBIOS structures (DMTF DSP0134), ACPI tables and the id of its generation, and the
//! script by which a firmware places and links them, and tells the host where the id is.
//!
//! The contract says which items and which commands they are, and that memory shows exactly the machine once the script has run, whatever
//! lawful places the files were given, whatever byte filled memory, and whatever bytes lie outside of the files and of the BIOS area. The laws
//! say that an accepted machine whose numbers fit their fields has exactly one image.
#![tactic(auto)]

mod acpi;
mod generation;
mod image;
pub mod laws;
mod names;
mod placed;
mod smbios;

pub use image::image_of;
pub use image_files::{Image, ImageBuildFault};
