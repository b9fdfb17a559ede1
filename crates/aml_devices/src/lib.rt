//! The DSDT of a machine, appended to files with holes (ACPI 6.5, 5.2.11.1).
//!
//! `append_dsdt` takes an accepted machine and appends its DSDT to a file, exactly, with a pointer to the id of the machine's generation
//! where it has one; and in any view that holds the file with its holes filled the DSDT stands at its place, as the machine's terms, which
//! lead to the id where its file then stands. Which terms these are is the contract of `dsdt_terms`, which is passed on.
#![tactic(auto)]

mod dsdt;
mod generation;

pub use dsdt::append_dsdt;
pub use dsdt_terms::dsdt_terms;
pub use generation::{GENERATION_FILE, generation_name};
