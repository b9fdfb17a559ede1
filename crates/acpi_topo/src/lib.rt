//! The ACPI tables of a machine that have as many entries as it has processors, interrupt controllers or nodes, appended to files with
//! holes: its MADT, its SRAT and its SLIT (ACPI 6.5, 5.2.12, 5.2.16 and 5.2.17).
//!
//! Each call takes an accepted machine and appends the rows of its table to a file, exactly; and in any view that holds the file with
//! its holes filled the machine's table stands at its place. How a table is appended is the contract of `acpi_append`.
#![tactic(auto)]

mod madt;
mod slit;
mod srat;

pub use madt::append_madt;
pub use slit::append_slit;
pub use srat::append_srat;
