//! What a guest's memory shows, as lines of text: the list of an inventory, and the line of the first fault of its tables.
//!
//! The list has a line for each SMBIOS structure (DSP0134 6.1.2) and for each ACPI table (ACPI 6.5, 5.2). The contract is exact: what
//! `list_to` writes is the text of the definitions, or a front of it with a fault that was counted, and so is each line.
#![tactic(auto)]

mod digits;
mod fault_lines;
mod listing;
mod shown;
mod structures;
mod tables;
mod writing;

pub use fault_lines::{acpi_line, smbios_line};
pub use listing::list_to;
