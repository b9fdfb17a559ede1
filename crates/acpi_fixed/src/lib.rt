//! The ACPI tables of fixed form of a machine, appended to files with holes: its RSDP, its XSDT, its FADT with the FACS, its MCFG, and its
//! HPET table (ACPI 6.5, 5.2; PCI Firmware Specification 3.3, 4.1.2; IA-PC HPET 1.0a, 3.2.4).
//!
//! Each call takes an accepted machine and appends the rows of its table to a file, exactly; and in any view that holds the file with
//! its holes filled the machine's table stands at its place. How a table is appended is the contract of `acpi_append`.
#![tactic(auto)]

mod facs;
mod fadt;
mod hpet;
mod mcfg;
mod rsdp;
mod xsdt;

pub use acpi_append::TABLES_FILE;
pub use facs::append_facs;
pub use fadt::append_fadt;
pub use hpet::append_hpet;
pub use mcfg::append_mcfg;
pub use rsdp::append_rsdp;
pub use xsdt::append_xsdt;
